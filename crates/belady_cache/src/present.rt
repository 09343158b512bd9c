//! The containers that are present while a plan is made.
ghost use Rattle.std.specs.Prelude.{◌≡◌, ◌≤◌, ◌<◌, ◌++◌, length, not, IfOk, OnOk};
ghost use Rattle.belady_cache.specs.Present.{is_farther as farther, farthest_of, is_present, replaced, with_slot, steps_to_load, present_after, steps_of};

use vault_types::{Id, Memory, Step};

/// A present container with the place of its next request, or the number of requests where there is none.
#[derive(Clone, Copy, Debug)]
pub struct Held {
    pub id: Id,
    pub next: usize,
}

/// Whether `a` goes rather than `b`: it is requested later, or neither is requested again and its id is lower.
fn is_farther(a: &Held, b: &Held) -> bool
    ensures { result ≡ farther a.now b.now }
{
    a.next > b.next || (a.next == b.next && a.id < b.id)
}

/// The container that is requested last.
fn farthest(present: &[Held]) -> Id
    requires { 0 < length present.now }
    ensures { result ≡ farthest_of present.now }
{
    let [first, rest @ ..] = present else {
        unreachable!()
    };
    let mut best = *first;
    for held in rest {
        if is_farther(held, &best) {
            best = *held;
        }
    }
    best.id
}

/// Puts `new` in the slot of a container, and says whether it has one.
fn replace(present: &mut [Held], id: Id, new: Held) -> bool
    ensures found { result ≡ is_present id present.old }
    ensures replaced { present.new ≡ replaced id new present.old }
{
    let mut found = false;
    for held in present.iter_mut() {
        if held.id == id {
            *held = new;
            found = true;
        }
    }
    found
}

/// Makes an absent container present. Where no slot is free, it gets that of the container that is requested last.
fn load(
    present: &mut Vec<Held>,
    steps: &mut Vec<Step>,
    slots: usize,
    new: Held,
) -> Result<(), Memory>
    requires { 1 ≤ slots }
    ensures present { OnOk result (present.new.items ≡ with_slot slots new present.old.items) }
    ensures steps { OnOk result
        (steps.new.items ≡ steps.old.items ++ steps_to_load slots new.id present.old.items) }
{
    if present.len() < slots {
        present.push(new)?;
    } else {
        let gone = farthest(present.as_slice());
        replace(present.as_mut_slice(), gone, new);
        steps.push(Step::Evict(gone))?;
    }
    steps.push(Step::Load(new.id))?;
    Ok(())
}

/// Serves a request for a container, and says whether it was loaded for it.
pub fn serve(
    present: &mut Vec<Held>,
    steps: &mut Vec<Step>,
    slots: usize,
    new: Held,
) -> Result<bool, Memory>
    requires { 1 ≤ slots }
    ensures loaded { IfOk result (λ loaded. loaded ≡ not (is_present new.id present.old.items)) }
    ensures present { OnOk result (present.new.items ≡ present_after slots new present.old.items) }
    ensures steps { OnOk result (steps.new.items ≡ steps.old.items ++ steps_of slots new present.old.items) }
{
    let loads = !replace(present.as_mut_slice(), new.id, new);
    if loads {
        load(present, steps, slots, new)?;
    }
    steps.push(Step::Serve)?;
    Ok(loads)
}
