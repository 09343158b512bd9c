//! Pins that list the same container.
use restore_pins::{PinNo, Pins};
use std::alloc::Global;
use std::test::Fail;
use vault_types::{Id, Memory};

// Whether each of these containers is held.
fn held(pins: &Pins, ids: [Id; 3]) -> [bool; 3] {
    let [first, second, third] = ids;
    [pins.holds(first), pins.holds(second), pins.holds(third)]
}

type Held = [bool; 3];

// Of two pins: what is held at first, whether each lists 2, and for each as it goes its list, and what is held then.
fn in_turn(
    alloc: Global,
) -> Result<(Held, (bool, bool), (Vec<Id>, Held), (Vec<Id>, Held)), Memory> {
    let mut pins = Pins::new(alloc);
    let first = pins.pin(alloc, 1, [5, 2].to_vec(alloc)?)?;
    let second = pins.pin(alloc, 2, [9, 5].to_vec(alloc)?)?;
    let all = held(&pins, [2, 5, 9]);
    let lists = (pins.lists(&first, 2), pins.lists(&second, 2));
    let one = pins.release(first);
    let left = held(&pins, [2, 5, 9]);
    let other = pins.release(second);
    Ok((all, lists, (one, left), (other, held(&pins, [2, 5, 9]))))
}

#[test]
fn a_container_is_held_until_its_last_pin_goes(rt: HostRuntime) -> Result<(), Fail> {
    let (all, lists, first, second) = in_turn(rt.alloc())?;
    assert!(rt; all == [true, true, true] && lists == (true, false));
    assert!(rt; first.0.as_slice() == [5, 2].as_slice() && first.1 == [false, true, true]);
    assert!(rt; second.0.as_slice() == [9, 5].as_slice() && second.1 == [false, false, false]);
    Ok(())
}

// Whether a pin of nothing, and this one, list 5.
fn list_five(alloc: Global, pins: &mut Pins, first: &PinNo) -> Result<(bool, bool), Memory> {
    let none = pins.pin(alloc, 3, Vec::new(alloc))?;
    Ok((pins.lists(&none, 5), pins.lists(first, 5)))
}

// Of two pins where the later goes first: its list, what is held then, and whether a third pin, of nothing, and the first
// list 5.
fn later_first(alloc: Global) -> Result<(Vec<Id>, Held, (bool, bool)), Memory> {
    let mut pins = Pins::new(alloc);
    let first = pins.pin(alloc, 1, [5].to_vec(alloc)?)?;
    let second = pins.pin(alloc, 1, [5, 5, 7].to_vec(alloc)?)?;
    let ids = pins.release(second);
    let left = held(&pins, [5, 7, 9]);
    let lists = list_five(alloc, &mut pins, &first)?;
    Ok((ids, left, lists))
}

#[test]
fn the_later_pin_may_go_first(rt: HostRuntime) -> Result<(), Fail> {
    let (ids, left, lists) = later_first(rt.alloc())?;
    assert!(rt; ids.as_slice() == [5, 5, 7].as_slice() && left == [true, false, false]);
    assert!(rt; lists == (false, true));
    Ok(())
}
