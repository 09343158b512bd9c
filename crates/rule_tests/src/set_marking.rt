//! Containers that several sets name.
use set_markers::SetMarkers;
use std::alloc::Global;
use std::test::Fail;
use vault_types::{Id, Memory, Set, Version};

// The markers after commits of these versions of sets.
fn committed(alloc: Global, commits: &[(Set, Version, &[Id])]) -> Result<SetMarkers, Memory> {
    let mut markers = SetMarkers::new(alloc);
    for (set, version, ids) in commits {
        markers.reserve(ids.len())?;
        markers.commit(*set, *version, ids);
    }
    Ok(markers)
}

// A floor of a set; what is in the list already, and what is in it behind the floor; how many containers are named then,
// and whether 1 and 2 are.
struct Floor {
    set: Set,
    version: Version,
    before: &'static [Id],
    after: &'static [Id],
    named: (usize, [bool; 2]),
}

fn takes(alloc: Global, markers: &mut SetMarkers, floor: &Floor) -> Result<bool, Memory> {
    let mut out = floor.before.to_vec(alloc)?;
    out.reserve(markers.count())?;
    markers.take_below(floor.set, floor.version, &mut out);
    Ok(out.as_slice() == floor.after)
}

// How many containers are named, and whether 1 and 2 are.
fn named(markers: &SetMarkers) -> (usize, [bool; 2]) {
    (markers.count(), [markers.named(1), markers.named(2)])
}

// Whether each floor takes these ids, they are appended to what is there, and those are named then.
fn take_each(alloc: Global, markers: &mut SetMarkers, floors: &[Floor]) -> Result<bool, Memory> {
    for floor in floors {
        if !takes(alloc, markers, floor)? || named(markers) != floor.named {
            return Ok(false);
        }
    }
    Ok(true)
}

// How many containers are named at first, and whether the floors do as they say.
fn floors_take(
    alloc: Global,
    commits: &[(Set, Version, &[Id])],
    floors: &[Floor],
) -> Result<(usize, bool), Memory> {
    let mut markers = committed(alloc, commits)?;
    let count = markers.count();
    Ok((count, take_each(alloc, &mut markers, floors)?))
}

const OF_TWO_SETS: &[Floor] = &[
    Floor {
        set: 0,
        version: 2,
        before: &[],
        after: &[],
        named: (4, [true, true]),
    },
    Floor {
        set: 1,
        version: 2,
        before: &[],
        after: &[1],
        named: (3, [false, true]),
    },
];

#[test]
fn a_container_stays_while_another_set_names_it(rt: HostRuntime) -> Result<(), Fail> {
    let commits: [(Set, Version, &[Id]); 4] = [
        (0, 1, &[1, 2]),
        (1, 1, &[1]),
        (0, 2, &[2, 3]),
        (1, 2, &[4]),
    ];
    assert!(rt; floors_take(rt.alloc(), &commits, OF_TWO_SETS)? == (4, true));
    Ok(())
}

const OF_THE_LAST_SET: &[Floor] = &[
    Floor {
        set: 255,
        version: 2,
        before: &[],
        after: &[1],
        named: (2, [false, true]),
    },
    Floor {
        set: 254,
        version: 9,
        before: &[],
        after: &[],
        named: (2, [false, true]),
    },
];

#[test]
fn one_set_is_a_dataset_of_its_own(rt: HostRuntime) -> Result<(), Fail> {
    let commits: [(Set, Version, &[Id]); 2] = [(255, 1, &[1, 2]), (255, 2, &[2, 3])];
    assert!(rt; floors_take(rt.alloc(), &commits, OF_THE_LAST_SET)? == (3, true));
    Ok(())
}

const ASCENDING: &[Floor] = &[
    Floor {
        set: 3,
        version: 8,
        before: &[99],
        after: &[99, 8, 31, 50],
        named: (2, [false, false]),
    },
    Floor {
        set: 4,
        version: 2,
        before: &[],
        after: &[20, 60],
        named: (0, [false, false]),
    },
];

#[test]
fn ids_are_appended_in_ascending_order(rt: HostRuntime) -> Result<(), Fail> {
    let commits: [(Set, Version, &[Id]); 2] = [(3, 7, &[50, 8, 20, 8, 31]), (4, 1, &[20, 60])];
    assert!(rt; floors_take(rt.alloc(), &commits, ASCENDING)? == (5, true));
    Ok(())
}

const WITHOUT_ROOM: Floor = Floor {
    set: 0,
    version: 2,
    before: &[],
    after: &[5, 6],
    named: (0, [false, false]),
};

// Whether there is no room for so many, and a floor takes then what it would.
fn without_room(alloc: Global) -> Result<(bool, bool), Memory> {
    let mut markers = committed(alloc, &[(0, 1, &[5, 6])])?;
    let has_none = markers.reserve(usize::MAX) == Err(Memory);
    Ok((has_none, takes(alloc, &mut markers, &WITHOUT_ROOM)?))
}

#[test]
fn want_of_memory_changes_nothing(rt: HostRuntime) -> Result<(), Fail> {
    assert!(rt; without_room(rt.alloc())? == (true, true));
    Ok(())
}

fn many_ids(alloc: Global) -> Result<Vec<Id>, Memory> {
    let mut ids = Vec::new(alloc);
    for i in 0..50_000u64 {
        ids.push(i.wrapping_mul(7_919) % 50_021)?;
    }
    Ok(ids)
}

// How many ids a floor of a set takes, and whether they ascend.
fn taken(
    alloc: Global,
    markers: &mut SetMarkers,
    set: Set,
    floor: Version,
) -> Result<(usize, bool), Memory> {
    let mut out = Vec::with_capacity(alloc, markers.count())?;
    markers.take_below(set, floor, &mut out);
    Ok((out.len(), out.as_slice().is_sorted()))
}

fn of_four_sets(alloc: Global) -> Result<SetMarkers, Memory> {
    let ids = many_ids(alloc)?;
    let all = ids.as_slice();
    committed(alloc, &[(0, 1, all), (1, 1, all), (2, 1, all), (3, 1, all)])
}

// How many containers are named, and what a floor of each set takes in turn.
fn many(alloc: Global) -> Result<(usize, Vec<(usize, bool)>), Memory> {
    let mut markers = of_four_sets(alloc)?;
    let count = markers.count();
    let mut each = Vec::new(alloc);
    for set in 0..4u8 {
        each.push(taken(alloc, &mut markers, set, 2)?)?;
    }
    Ok((count, each))
}

#[test]
fn many_containers_of_four_sets(rt: HostRuntime) -> Result<(), Fail> {
    let (count, each) = many(rt.alloc())?;
    let expected = [(0, true), (0, true), (0, true), (50_000, true)];
    assert!(rt; count == 50_000);
    assert!(rt; each.as_slice() == expected.as_slice());
    Ok(())
}
