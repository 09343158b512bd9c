// Reading and writing a recipe of format 2, of version 1 of set 0, which standard input has: the fastest of
// nine times each.
use crate::watch::{Stop, Watch, rate};
use folder_shelf::InSource;
use recipe_form2::{decode2, encode2};
use vault_traits::Source;

// The nanoseconds of the sum of a blob, of reading it and of writing it, and whether the same bytes were written.
#[derive(Clone, Copy)]
struct Turn {
    summing: u64,
    reading: u64,
    writing: u64,
    is_same: bool,
}

// Adds a piece of a source to a blob, and gives its length.
fn add_piece(source: &mut InSource, room: &mut [u8], blob: &mut Vec<u8>) -> Result<usize, Stop> {
    if room.is_empty() {
        return Err(Stop::Refused);
    }
    let n = source.read(room)?;
    blob.extend_from_slice(&room[..n])?;
    Ok(n)
}

fn blob_of(rt: HostRuntime) -> Result<Vec<u8>, Stop> {
    let mut source = InSource::new(rt.stdin());
    let mut room = vec![in rt.alloc(); 0u8; 65_536]?;
    let mut blob = Vec::new(rt.alloc());
    for _turn in 0..u64::MAX {
        if add_piece(&mut source, room.as_mut_slice(), &mut blob)? == 0 {
            break;
        }
    }
    Ok(blob)
}

// None where the blob is no recipe of version 1.
fn one_turn(rt: HostRuntime, blob: &[u8]) -> Result<Option<Turn>, Stop> {
    let mut watch = Watch::start(rt)?;
    let sum = fingerprint_stage::sum(blob);
    let summing = watch.lap(rt);
    let Some(recipe) = decode2(rt.alloc(), blob, 0, 1)? else {
        return Ok(None);
    };
    let reading = watch.lap(rt);
    let again = encode2(rt.alloc(), &recipe)?;
    let writing = watch.lap(rt);
    watch.end()?;
    Ok(Some(Turn {
        summing,
        reading,
        writing,
        is_same: fingerprint_stage::sum(again.as_slice()) == sum,
    }))
}

fn faster(one: Turn, other: Turn) -> Turn {
    Turn {
        summing: one.summing.min(other.summing),
        reading: one.reading.min(other.reading),
        writing: one.writing.min(other.writing),
        is_same: one.is_same && other.is_same,
    }
}

fn fastest(rt: HostRuntime, blob: &[u8]) -> Result<Option<Turn>, Stop> {
    let mut best = Turn {
        summing: u64::MAX,
        reading: u64::MAX,
        writing: u64::MAX,
        is_same: true,
    };
    for _turn in 0..9u32 {
        match one_turn(rt, blob)? {
            Some(one) => best = faster(best, one),
            None => return Ok(None),
        }
    }
    Ok(Some(best))
}

fn show(rt: HostRuntime, bytes: u64, best: Turn) -> Result<(), Stop> {
    let read = rate(bytes, best.reading.saturating_sub(best.summing));
    let write = rate(bytes, best.writing.saturating_sub(best.summing));
    let all_read = rate(bytes, best.reading);
    let all_write = rate(bytes, best.writing);
    println!(rt;
        "recipe: {bytes} bytes: read at {all_read} MB/s, {read} without its sum, written at {all_write} MB/s, {write} without its sum"
    )?;
    Ok(())
}

pub fn run(rt: HostRuntime) -> Result<(), Stop> {
    let blob = blob_of(rt)?;
    let Some(best) = fastest(rt, blob.as_slice())? else {
        println!(rt; "recipe: none of version 1")?;
        return Ok(());
    };
    if !best.is_same {
        println!(rt; "recipe: other bytes were written")?;
    }
    show(rt, blob.as_slice().len() as u64, best)
}
