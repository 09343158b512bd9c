// The names that nothing needs, and the room that later calls find.
ghost use Rattle.std.specs.Prelude.{◌≡◌, ◌≤◌, ◌+◌, ◌-◌, not, length, filter, vec_len, IfOk};
ghost use Rattle.keeper_catalog.specs.Catalog.{memo_of, versions_in, HasRoom};
ghost use Rattle.keeper_open.specs.Reading.{keeps, needs};

use keeper_catalog::{Catalog, SetInfo};
use set_markers::SetMarkers;
use std::alloc::Global;
use std::collections::BTreeMap;
use vault_types::{Id, Kind, Memory, Name, Table};

/// The catalog of what was read.
pub fn catalog_of(
    alloc: Global,
    names: &[Name],
    sets: Vec<SetInfo>,
    tables: BTreeMap<Id, Table>,
    markers: SetMarkers,
) -> Result<Catalog, Memory>
    requires { vec_len sets ≤ 256 }
    ensures parts { IfOk result (λ c. (c.sets ≡ sets) × (c.tables ≡ tables) × (c.markers ≡ markers)) }
    ensures strays { IfOk result
        (λ c. c.strays.items ≡ filter (λ n. not (needs sets.items tables.entries n)) names.now) }
    ensures room { IfOk result (λ c. HasRoom (memo_of c)) }
{
    let mut strays = strays_of(alloc, names, sets.as_slice(), &tables)?;
    let more = tables
        .len()
        .checked_mul(2)
        .ok_or(Memory)?
        .checked_add(versions_in(sets.as_slice()))
        .ok_or(Memory)?;
    strays.reserve(more)?;
    let freed = Vec::with_capacity(alloc, markers.count())?;
    Ok(Catalog {
        sets,
        tables,
        markers,
        strays,
        freed,
    })
}

// How many versions the sets keep.
fn versions_in(sets: &[SetInfo]) -> usize
    requires { length sets.now ≤ 256 }
    ensures { result ≡ versions_in sets.now }
{
    let mut count = 0;
    for set in sets {
        count += versions_of(set);
    }
    count
}

fn versions_of(set: &SetInfo) -> usize
    ensures is { result ≡ set.now.latest + 1 - set.now.floor }
    ensures high { result ≤ 4294967296 }
{
    (set.latest as usize + 1).saturating_sub(set.floor as usize)
}

fn strays_of(
    alloc: Global,
    names: &[Name],
    sets: &[SetInfo],
    tables: &BTreeMap<Id, Table>,
) -> Result<Vec<Name>, Memory>
    ensures { IfOk result
        (λ strays. strays.items ≡ filter (λ n. not (needs sets.now tables.now.entries n)) names.now) }
{
    let mut strays = Vec::new(alloc);
    for name in names {
        if !is_needed(*name, sets, tables) {
            strays.push(*name)?;
        }
    }
    Ok(strays)
}

fn is_needed(name: Name, sets: &[SetInfo], tables: &BTreeMap<Id, Table>) -> bool
    ensures { result ≡ needs sets.now tables.now.entries name }
{
    match name.kind {
        Kind::Table | Kind::Payload => tables.contains_key(&name.number),
        Kind::Recipe => is_kept(name.number, sets),
        Kind::Floor => name.number < 256,
    }
}

// Whether the recipe of this number is that of a kept version.
fn is_kept(number: u64, sets: &[SetInfo]) -> bool
    ensures { result ≡ keeps sets.now number }
{
    let version = number % 4_294_967_296;
    match sets.get((number / 4_294_967_296) as usize) {
        Some(set) => u64::from(set.floor) <= version && version <= u64::from(set.latest),
        None => false,
    }
}
