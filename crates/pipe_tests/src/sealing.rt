// Containers through a sealing stage.
use container_fill::{Filler, Unsealed};
use container_store::Sealed;
use fingerprint_stage::name;
use rewrite_stage::Decided;
use seal_stage::SealStage;
use stage_queue::{Rx, Tx, line};
use stage_threads::Stage;
use std::alloc::Global;
use std::sync::Wait;
use std::test::Fail;
use vault_types::{Flow, How, Memory, Turn};

// So many containers, of a chunk of four equal bytes each.
fn containers(alloc: Global, count: u8) -> Result<Vec<Unsealed>, Memory> {
    let mut filler = Filler::new(alloc, 1, 4);
    let mut all = Vec::new(alloc);
    for letter in 0..=count {
        let decided = Decided {
            chunk: name(vec![in alloc; letter; 4]?),
            how: How::Write,
        };
        if let Some(unsealed) = filler.push(alloc, decided)? {
            all.push(unsealed)?;
        }
    }
    Ok(all)
}

// Gives a stage turns until it is done, and takes what it sends: the ids of the containers, and whether an end came last.
fn drive<R: Wait>(
    rt: &R,
    stage: &mut SealStage,
    far: &mut Rx<Flow<Sealed>>,
    alloc: Global,
) -> Result<(Vec<u64>, bool), Memory> {
    let mut ids = Vec::new(alloc);
    let mut is_ended = false;
    for _ in rt.forever() {
        let turn = stage.turn(rt);
        match far.take(rt) {
            Some(Flow::Part(sealed)) => ids.push(sealed.table().id)?,
            Some(Flow::End) => is_ended = true,
            _ => {}
        }
        if turn == Turn::Done {
            return Ok((ids, is_ended));
        }
    }
    unreachable!()
}

fn offer_all<R: Wait>(rt: &R, near: &mut Tx<Flow<Unsealed>>, all: Vec<Unsealed>) {
    for unsealed in all {
        let _ = near.offer(rt, Flow::Part(unsealed));
    }
    let _ = near.offer(rt, Flow::End);
}

fn sealed<R: Wait>(rt: &R, alloc: Global, count: u8) -> Result<(Vec<u64>, bool), Memory> {
    let (_, mut near, from) = line(alloc, 64)?;
    let (_, to, mut far) = line(alloc, 1)?;
    let mut stage = SealStage::new(from, to);
    offer_all(rt, &mut near, containers(alloc, count)?);
    drive(rt, &mut stage, &mut far, alloc)
}

#[test]
fn containers_are_sealed_in_order(rt: HostRuntime) -> Result<(), Fail> {
    let (ids, is_ended) = sealed(&rt, rt.alloc(), 5)?;
    assert!(rt; ids.as_slice() == [1, 2, 3, 4, 5].as_slice() && is_ended);
    Ok(())
}
