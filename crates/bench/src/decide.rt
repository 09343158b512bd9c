// Deciding and filling, with the chunks named before: each chunk twice, so that every second one is written.
use crate::made::{chunk_of, index_of};
use crate::watch::{Stop, Watch, rate};
use container_fill::Filler;
use container_store::Sealed;
use fingerprint_stage::Chunk;
use rewrite_stage::{Decided, Decider};
use std::alloc::Global;
use vault_types::JobConfig;

pub fn run(rt: HostRuntime) -> Result<(), Stop> {
    let (nanos, sums) = job(rt, 50_000, 4096, 100)?;
    let bytes = 50_000 * 4096;
    let all = rate(bytes, nanos);
    let rest = rate(bytes, nanos.saturating_sub(sums));
    println!(rt; "decide and fill: {all} MB/s, and without the sums of the payloads {rest} MB/s")?;
    Ok(())
}

// The nanoseconds of a chunk of a job, without the sums.
fn each(rt: HostRuntime, chunks: u64, containers: u64) -> Result<u64, Stop> {
    let (nanos, sums) = job(rt, chunks, 64, containers)?;
    Ok(nanos.saturating_sub(sums) / chunks.max(1))
}

fn show_chunks(rt: HostRuntime, chunks: u64) -> Result<(), Stop> {
    let each = each(rt, chunks, 100)?;
    println!(rt; "growth: {chunks} chunks of a job: {each} ns a chunk")?;
    Ok(())
}

fn show_containers(rt: HostRuntime, containers: u64) -> Result<(), Stop> {
    let each = each(rt, 100_000, containers)?;
    println!(rt; "growth: {containers} containers in the index: {each} ns a chunk")?;
    Ok(())
}

pub fn growth(rt: HostRuntime) -> Result<(), Stop> {
    for chunks in [10_000u64, 100_000, 1_000_000] {
        show_chunks(rt, chunks)?;
    }
    for containers in [100u64, 1000, 10_000] {
        show_containers(rt, containers)?;
    }
    Ok(())
}

fn decider_of(alloc: Global, containers: u64) -> Result<Decider, Stop> {
    let index = index_of(alloc, containers, 100)?;
    Ok(Decider::new(alloc, index, Vec::new(alloc), JobConfig::standard()))
}

// A thousand chunks.
fn segment_of(alloc: Global, place: u64, len: usize) -> Result<Vec<Chunk>, Stop> {
    let mut segment = Vec::new(alloc);
    for i in 0..1000u64 {
        let number = place.wrapping_mul(1000).wrapping_add(i) / 2;
        segment.push(chunk_of(alloc, number, len)?)?;
    }
    Ok(segment)
}

fn push(
    alloc: Global,
    filler: &mut Filler,
    decided: Decided,
    full: &mut Vec<Sealed>,
) -> Result<(), Stop> {
    if let Some(unsealed) = filler.push(alloc, decided)? {
        full.push(unsealed.seal())?;
    }
    Ok(())
}

fn decide(alloc: Global, decider: &mut Decider, segment: Vec<Chunk>) -> Result<Vec<Decided>, Stop> {
    Ok(decider.segment(alloc, segment)?)
}

// The containers that are full.
fn fill(alloc: Global, filler: &mut Filler, segment: Vec<Decided>) -> Result<Vec<Sealed>, Stop> {
    let mut full = Vec::new(alloc);
    for decided in segment {
        push(alloc, filler, decided, &mut full)?;
    }
    Ok(full)
}

// Whether the sum of a container's payload is the one in its table, as it is.
fn has_sum(sealed: &Sealed) -> bool {
    fingerprint_stage::sum(sealed.payload()) == sealed.table().payload_sum
}

// The nanoseconds of the sums of payloads.
fn time_sums(rt: HostRuntime, watch: &mut Watch, full: &[Sealed]) -> u64 {
    let mut sums = 0u64;
    let _between = watch.lap(rt);
    for sealed in full {
        let is_right = has_sum(sealed);
        let took = watch.lap(rt);
        if is_right {
            sums = sums.saturating_add(took);
        }
    }
    sums
}

// The nanoseconds of deciding and filling a thousand chunks, and of the sums of what they fill.
fn time_segment(
    rt: HostRuntime,
    watch: &mut Watch,
    decider: &mut Decider,
    filler: &mut Filler,
    segment: Vec<Chunk>,
) -> Result<(u64, u64), Stop> {
    let _between = watch.lap(rt);
    let decided = decide(rt.alloc(), decider, segment)?;
    let full = fill(rt.alloc(), filler, decided)?;
    let took = watch.lap(rt);
    Ok((took, time_sums(rt, watch, full.as_slice())))
}

// The time of a job of so many chunks of `len` bytes, over an index of so many containers, and of the sums of what it
// writes.
fn job(rt: HostRuntime, chunks: u64, len: usize, containers: u64) -> Result<(u64, u64), Stop> {
    let alloc = rt.alloc();
    let mut decider = decider_of(alloc, containers)?;
    let mut filler = Filler::new(alloc, 1_000_000, 4_194_304);
    let mut watch = Watch::start(rt)?;
    let mut took = 0u64;
    let mut sums = 0u64;
    for place in 0..chunks.div_ceil(1000) {
        let segment = segment_of(alloc, place, len)?;
        let (one, sum) = time_segment(rt, &mut watch, &mut decider, &mut filler, segment)?;
        took = took.saturating_add(one);
        sums = sums.saturating_add(sum);
    }
    watch.end()?;
    Ok((took, sums))
}
