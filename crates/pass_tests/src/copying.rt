// Short restores, worked by hand: the version "abcyzdef" of three chunks in two containers.
use belady_cache::{plan, requests};
use restore_assembler::Copier;
use std::alloc::Global;
use std::test::Fail;
use vault_ports::{FaultSink, MemSink};
use vault_traits::Sink;
use vault_types::{Fault, Fp, Id, Kind, Spot, Whole, Why};

const SPOTS: [Spot; 3] = [
    Spot {
        id: 1,
        at: 0,
        len: 3,
    },
    Spot {
        id: 2,
        at: 1,
        len: 2,
    },
    Spot {
        id: 1,
        at: 3,
        len: 3,
    },
];

// Chunks of container 1, of which the first two and the last two lie side by side.
const NEIGHBOURS: [Spot; 5] = [
    Spot {
        id: 1,
        at: 0,
        len: 3,
    },
    Spot {
        id: 1,
        at: 3,
        len: 3,
    },
    Spot {
        id: 1,
        at: 0,
        len: 2,
    },
    Spot {
        id: 1,
        at: 4,
        len: 1,
    },
    Spot {
        id: 1,
        at: 5,
        len: 1,
    },
];

// By sha1sum, of GNU coreutils.
const SUM: [u8; 20] = [
    0xa7, 0xb6, 0xb1, 0x7e, 0x55, 0xae, 0x74, 0x2a, 0x4d, 0xd7, 0x84, 0xa3, 0x1f, 0x9a, 0xa6, 0x57,
    0x5a, 0x44, 0x2f, 0xe5,
];

const RIGHT: Whole = Whole {
    number: 7,
    want: Fp(SUM),
};

const WRONG: Whole = Whole {
    number: 7,
    want: Fp([0; 20]),
};

const DAMAGED: Fault = Fault::Damaged {
    kind: Kind::Recipe,
    number: 7,
    why: Why::Whole {
        want: Fp([0; 20]),
        found: Fp(SUM),
    },
};

fn payload_of(id: Id) -> &'static [u8] {
    match id {
        1 => b"abcdef",
        2 => b"xyz",
        _ => b"",
    }
}

fn copier_of(
    alloc: Global,
    spots: &[Spot],
    slots: u32,
    whole: Option<Whole>,
) -> Result<Copier, Fail> {
    if slots < 1 || slots > 64 {
        return Err(Fail::from("the slots"));
    }
    let reqs = requests(alloc, spots)?;
    let planned = plan(alloc, reqs.as_slice(), slots)?;
    Ok(Copier::new(alloc, spots.to_vec(alloc)?, planned, slots, whole)?)
}

// Gives the payloads that are wanted, at most twenty, and says how many there were.
fn give_all<K: Sink>(alloc: Global, copier: &mut Copier, sink: &mut K) -> Result<u32, Fault> {
    for given in 0..20 {
        let Some(id) = copier.wants() else {
            return Ok(given);
        };
        let payload = payload_of(id).to_vec(alloc)?;
        if !copier.covers(payload.as_slice()) {
            return Err(Fault::Usage);
        }
        copier.give(payload, sink)?;
    }
    Ok(20)
}

fn sink_with(alloc: Global, room: usize, fail: u64) -> Result<FaultSink, Fail> {
    let inner = MemSink::with(alloc, room)?;
    Ok(FaultSink::new(inner, vec![in alloc; fail]?))
}

// How a copy ends: how many payloads were given, and what is wanted and covered then.
#[derive(Drop)]
struct End {
    answer: Result<u32, Fault>,
    taken: Vec<u8>,
    wants: Option<Id>,
    covers: bool,
}

// Into a sink of so much room, of which the write of this number fails.
fn copied(alloc: Global, copier: Copier, room: usize, fail: u64) -> Result<End, Fail> {
    let mut copier = copier;
    let mut sink = sink_with(alloc, room, fail)?;
    let answer = give_all(alloc, &mut copier, &mut sink);
    Ok(End {
        answer,
        taken: sink.into_vec(),
        wants: copier.wants(),
        covers: copier.covers(b"abcdef"),
    })
}

// How many slots there are, the sum that is compared, and how many loads there are.
const COPIES: &[(u32, Option<Whole>, Result<u32, Fault>)] = &[
    (1, None, Ok(3)),
    (2, None, Ok(2)),
    (64, None, Ok(2)),
    (1, Some(RIGHT), Ok(3)),
    (1, Some(WRONG), Err(DAMAGED)),
];

fn all_is_copied(
    alloc: Global,
    copies: &[(u32, Option<Whole>, Result<u32, Fault>)],
) -> Result<bool, Fail> {
    for (slots, whole, answer) in copies {
        let copier = copier_of(alloc, SPOTS.as_slice(), *slots, *whole)?;
        let end = copied(alloc, copier, 100, 100)?;
        if end.answer != *answer
            || end.taken.as_slice() != b"abcyzdef".as_slice()
            || end.wants.is_some()
        {
            return Ok(false);
        }
    }
    Ok(true)
}

#[test]
fn the_bytes_come_in_order_and_their_sum_is_compared(rt: HostRuntime) -> Result<(), Fail> {
    assert!(rt; all_is_copied(rt.alloc(), COPIES)?);
    Ok(())
}

// The room of a sink, the write that fails, and what the sink has taken.
const FRONTS: &[(usize, u64, &[u8])] = &[
    (100, 1, b""),
    (100, 2, b"abc"),
    (100, 3, b"abcyz"),
    (4, 100, b"abcy"),
];

fn fronts_are_taken(alloc: Global, fronts: &[(usize, u64, &[u8])]) -> Result<bool, Fail> {
    for (room, fail, front) in fronts {
        let copier = copier_of(alloc, SPOTS.as_slice(), 2, None)?;
        let end = copied(alloc, copier, *room, *fail)?;
        let stops = end.answer == Err(Fault::WriteFault(1)) && end.wants.is_none() && !end.covers;
        if !stops || end.taken.as_slice() != *front {
            return Ok(false);
        }
    }
    Ok(true)
}

#[test]
fn a_sink_that_fails_has_a_front(rt: HostRuntime) -> Result<(), Fail> {
    assert!(rt; fronts_are_taken(rt.alloc(), FRONTS)?);
    Ok(())
}

fn neighbours(alloc: Global, fail: u64) -> Result<(bool, Vec<u8>), Fail> {
    let copier = copier_of(alloc, NEIGHBOURS.as_slice(), 1, None)?;
    let end = copied(alloc, copier, 100, fail)?;
    Ok((end.answer.is_ok(), end.taken))
}

#[test]
fn neighbouring_spots_are_one_write(rt: HostRuntime) -> Result<(), Fail> {
    let (second, two) = neighbours(rt.alloc(), 2)?;
    let (third, three) = neighbours(rt.alloc(), 3)?;
    let (fourth, all) = neighbours(rt.alloc(), 4)?;
    assert!(rt; (second, third, fourth) == (false, false, true));
    assert!(rt; two.as_slice() == b"abcdef".as_slice());
    assert!(rt; three.as_slice() == b"abcdefab".as_slice());
    assert!(rt; all.as_slice() == b"abcdefabef".as_slice());
    Ok(())
}

// What a copier with one slot wants at the start.
fn wanted(alloc: Global, spots: &[Spot], whole: Option<Whole>) -> Result<Option<Id>, Fail> {
    let copier = copier_of(alloc, spots, 1, whole)?;
    Ok(copier.wants())
}

fn covers(
    alloc: Global,
    spots: &[Spot],
    whole: Option<Whole>,
    payload: &[u8],
) -> Result<bool, Fail> {
    let copier = copier_of(alloc, spots, 1, whole)?;
    Ok(copier.covers(payload))
}

#[test]
fn a_payload_covers_every_spot_or_is_not_taken(rt: HostRuntime) -> Result<(), Fail> {
    let alloc = rt.alloc();
    let spots = SPOTS.as_slice();
    assert!(rt; wanted(alloc, spots, None)? == Some(1));
    assert!(rt; covers(alloc, spots, None, b"abcdef")? && covers(alloc, spots, None, b"abcdefg")?);
    assert!(rt; !covers(alloc, spots, None, b"abcde")? && !covers(alloc, spots, None, b"")?);
    Ok(())
}

#[test]
fn a_version_of_no_bytes_wants_nothing(rt: HostRuntime) -> Result<(), Fail> {
    assert!(rt; wanted(rt.alloc(), &[], Some(WRONG))? == None);
    assert!(rt; !covers(rt.alloc(), &[], Some(WRONG), b"abcdef")?);
    Ok(())
}
