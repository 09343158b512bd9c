// A store of many versions.
ghost use Rattle.std.specs.Prelude.{IfOk};
ghost use Rattle.keeper_driver.specs.Drafts.{HasNoJob};

use crate::watch::{Stop, Watch};
use keeper_core::Keeper;
use keeper_driver::jobs::{back_up, delete};
use std::alloc::Global;
use vault_ports::MemShelf;
use vault_types::{Answer, Id, Version};

// So many bytes, in which no four at a multiple of four come twice, nor those of another number.
fn payload(alloc: Global, number: u32, chunks: u32) -> Result<Vec<u8>, Stop> {
    let mut bytes = Vec::new(alloc);
    for chunk in 0..chunks {
        let value = number.wrapping_mul(1000).wrapping_add(chunk);
        bytes.extend_from_slice(&value.to_be_bytes())?;
    }
    Ok(bytes)
}

fn pieces<'a>(alloc: Global, bytes: &'a [u8], size: usize) -> Result<Vec<&'a [u8]>, Stop> {
    Ok(bytes.chunks(size.max(1)).collect(alloc)?)
}

// Backs up a version of 1,000 new chunks, in containers of so many bytes.
fn add_version(
    alloc: Global,
    keeper: &mut Keeper<MemShelf>,
    number: u32,
    size: usize,
) -> Result<(), Stop>
    requires { HasNoJob keeper.old }
    ensures { HasNoJob keeper.new }
{
    let bytes = payload(alloc, number, 1000)?;
    let payloads = pieces(alloc, bytes.as_slice(), size)?;
    Ok(back_up(alloc, keeper, 0, b"", payloads.as_slice())?)
}

fn opened(alloc: Global, shelf: MemShelf) -> Result<Keeper<MemShelf>, Stop>
    ensures { IfOk result HasNoJob }
{
    match Keeper::start(alloc, shelf) {
        Ok(keeper) => Ok(keeper),
        Err(_) => Err(Stop::Refused),
    }
}

// Adds the versions behind the first, each in a container of its own.
fn add_versions(alloc: Global, keeper: &mut Keeper<MemShelf>, versions: u32) -> Result<(), Stop>
    requires { HasNoJob keeper.old }
{
    for number in 1..versions {
        add_version(alloc, keeper, number, 4000)?;
    }
    Ok(())
}

// A store of so many versions, of which the first has ten containers, and each other one a container of its own.
fn store_of(alloc: Global, versions: u32) -> Result<MemShelf, Stop> {
    let mut keeper = opened(alloc, MemShelf::new(alloc))?;
    add_version(alloc, &mut keeper, 0, 400)?;
    add_versions(alloc, &mut keeper, versions)?;
    Ok(keeper.close())
}

// Deletes the first version, and tells how many containers are reclaimed.
fn delete_first(keeper: &mut Keeper<MemShelf>) -> Result<u64, Stop>
    requires { HasNoJob keeper.old }
{
    match delete(keeper, 0, 1)? {
        Answer::Removed { reclaimed, .. } => Ok(reclaimed),
        _ => Ok(0),
    }
}

// The floor, the latest version, and the id of the next container.
fn numbers_of(keeper: &Keeper<MemShelf>) -> (Version, Version, Id) {
    (keeper.floor(0), keeper.latest(0), keeper.next_id())
}

// Makes a store of three versions, opens it and deletes the first: how many containers are reclaimed, and what is left.
fn left(alloc: Global) -> Result<(u64, (Version, Version, Id)), Stop> {
    let mut keeper = opened(alloc, store_of(alloc, 3)?)?;
    let reclaimed = delete_first(&mut keeper)?;
    Ok((reclaimed, numbers_of(&keeper)))
}

/// Prints what is left of a store of three versions.
pub fn show_store(rt: HostRuntime) -> Result<(), Stop> {
    let (reclaimed, (floor, latest, next)) = left(rt.alloc())?;
    println!(rt;
        "keeper VERSIONS; of three versions {floor} to {latest} stay, {reclaimed} containers are reclaimed, the next is {next}"
    )?;
    Ok(())
}

// The nanoseconds of each event, and how many containers are reclaimed.
#[derive(Clone, Copy)]
struct Times {
    opening: u64,
    backup: u64,
    deletion: u64,
    reclaimed: u64,
}

fn timed(rt: HostRuntime, versions: u32, shelf: MemShelf) -> Result<Times, Stop> {
    let mut watch = Watch::start(rt)?;
    let mut keeper = opened(rt.alloc(), shelf)?;
    let opening = watch.lap(rt);
    add_version(rt.alloc(), &mut keeper, versions, 400)?;
    let backup = watch.lap(rt);
    let reclaimed = delete_first(&mut keeper)?;
    let deletion = watch.lap(rt);
    watch.end()?;
    Ok(Times {
        opening,
        backup,
        deletion,
        reclaimed,
    })
}

/// Makes the store, and times its events.
pub fn time_store(rt: HostRuntime, versions: u32) -> Result<(), Stop> {
    let shelf = store_of(rt.alloc(), versions)?;
    let times = timed(rt, versions, shelf)?;
    let opening = times.opening / 1_000;
    let backup = times.backup / 1_000;
    let deletion = times.deletion / 1_000;
    let reclaimed = times.reclaimed;
    println!(rt;
        "{versions} versions: opening {opening} us, a backup into ten containers {backup} us, a deletion of one version {deletion} us, {reclaimed} containers reclaimed"
    )?;
    Ok(())
}
