//! Which containers lose their last name in one dataset.
use marker_gc::Markers;
use std::alloc::Global;
use std::test::Fail;
use vault_types::{Id, Memory, Version};

// The markers after commits of these versions.
fn committed(alloc: Global, commits: &[(Version, &[Id])]) -> Result<Markers, Memory> {
    let mut markers = Markers::new(alloc);
    for (version, ids) in commits {
        markers.reserve(ids.len())?;
        markers.commit(*version, ids);
    }
    Ok(markers)
}

// A floor, what is in the list already, and what is in it behind the floor.
type Floor = (Version, &'static [Id], &'static [Id]);

fn takes(alloc: Global, markers: &mut Markers, floor: &Floor) -> Result<bool, Memory> {
    let (floor, before, after) = *floor;
    let mut out = before.to_vec(alloc)?;
    out.reserve(markers.count())?;
    markers.take_below(floor, &mut out);
    Ok(out.as_slice() == after)
}

// Whether each floor takes these ids, and they are appended to what is there.
fn take_each(alloc: Global, markers: &mut Markers, floors: &[Floor]) -> Result<bool, Memory> {
    for floor in floors {
        if !takes(alloc, markers, floor)? {
            return Ok(false);
        }
    }
    Ok(true)
}

// How many containers are named, and whether 1 and 2 are.
fn named(markers: &Markers) -> (usize, [bool; 2]) {
    (markers.count(), [markers.named(1), markers.named(2)])
}

// What is named before and behind a floor of version 2, and whether that takes container 1.
fn behind_floor(alloc: Global) -> Result<((usize, [bool; 2]), bool, (usize, [bool; 2])), Memory> {
    let mut markers = committed(alloc, &[(1, &[1, 2]), (2, &[2, 3])])?;
    let before = named(&markers);
    let takes = takes(alloc, &mut markers, &(2, &[], &[1]))?;
    Ok((before, takes, named(&markers)))
}

#[test]
fn a_container_goes_with_the_last_version_that_names_it(rt: HostRuntime) -> Result<(), Fail> {
    let expected = ((3, [true, true]), true, (2, [false, true]));
    assert!(rt; behind_floor(rt.alloc())? == expected);
    Ok(())
}

fn floors_take(
    alloc: Global,
    commits: &[(Version, &[Id])],
    floors: &[Floor],
) -> Result<bool, Memory> {
    let mut markers = committed(alloc, commits)?;
    take_each(alloc, &mut markers, floors)
}

const FLOORS: &[Floor] = &[
    (5, &[99], &[99, 7, 30]),
    (5, &[], &[]),
    (6, &[], &[3, 12, 40]),
];

#[test]
fn ids_are_appended_in_ascending_order(rt: HostRuntime) -> Result<(), Fail> {
    let commits: [(Version, &[Id]); 2] = [(4, &[30, 7, 12, 7]), (5, &[12, 40, 3])];
    assert!(rt; floors_take(rt.alloc(), &commits, FLOORS)?);
    Ok(())
}

// Whether there is no room for so many, and a floor takes then what it would.
fn without_room(alloc: Global) -> Result<(bool, bool), Memory> {
    let mut markers = committed(alloc, &[(1, &[5, 6])])?;
    let has_none = markers.reserve(usize::MAX) == Err(Memory);
    Ok((has_none, takes(alloc, &mut markers, &(2, &[], &[5, 6]))?))
}

#[test]
fn want_of_memory_changes_nothing(rt: HostRuntime) -> Result<(), Fail> {
    assert!(rt; without_room(rt.alloc())? == (true, true));
    Ok(())
}

// How many of 100,000 containers are named, how many a floor takes, and whether these ascend.
fn many(alloc: Global) -> Result<(usize, usize, bool), Memory> {
    let mut ids = Vec::new(alloc);
    for i in 0..100_000u64 {
        ids.push(i.wrapping_mul(7_919) % 100_003)?;
    }
    let mut markers = committed(alloc, &[(1, ids.as_slice())])?;
    let count = markers.count();
    let mut out = Vec::with_capacity(alloc, count)?;
    markers.take_below(2, &mut out);
    Ok((count, out.len(), out.as_slice().is_sorted()))
}

#[test]
fn many_containers_are_taken_at_once(rt: HostRuntime) -> Result<(), Fail> {
    assert!(rt; many(rt.alloc())? == (100_000, 100_000, true));
    Ok(())
}
