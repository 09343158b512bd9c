// The names of `fill`, in a list.
ghost use Rattle.std.specs.Prelude.{◌≡◌, ◌≤◌, ◌<◌, ◌++◌, [], None, List, ℕ, IsSome, IfSome, IfOk, OnOk, OnErr, MatchOption, length};
ghost use Rattle.std.specs.Option.{option_map};
ghost use Rattle.workload.specs.Places.{source, sources_to, place_at, version_at, output_at, written, IsFirst, IsPlaced};

use crate::place::{FillPlace, FillVersion};
use std::alloc::Global;
use vault_types::list::ListOf;
use vault_types::text::Text;
use vault_types::{Memory, Version};

// The source of a version.
fn source_of(alloc: Global, version: Version) -> Result<FillPlace, Memory>
    requires low { 1 ≤ version }
    requires high { version ≤ 64 }
    ensures { IfOk result (λ place. place ≡ source version) }
{
    let name = format!(in alloc; "gen-{version}")?;
    Ok(FillPlace {
        name: Text::from_string(name),
        version: Some(FillVersion::new(version)),
        bytes: ListOf::from_vec(Vec::new(alloc)),
    })
}

// Adds the sources of the versions up to one.
pub fn add_sources(alloc: Global, last: Version, places: &mut Vec<FillPlace>) -> Result<(), Memory>
    requires { last ≤ 64 }
    ensures { OnOk result (places.new.items ≡ places.old.items ++ sources_to last) }
{
    for earlier in 0..last {
        places.push(source_of(alloc, earlier + 1)?)?;
    }
    Ok(())
}

// Where the name stands first.
fn index_of(places: &[FillPlace], name: &str) -> Option<usize>
    ensures { MatchOption result (place_at places.now name.now ≡ None) (λ i. (i < length places.now)
        × IsFirst places.now name.now i) }
{
    for (i, place) in places.iter().enumerate() {
        if place.name.as_str() == name {
            return Some(i);
        }
    }
    None
}

// The version that a name gives.
pub fn version_at(places: &[FillPlace], name: &str) -> Option<Version>
    ensures value { result ≡ version_at places.now name.now }
    ensures range { IfSome result (λ v. (1 ≤ v) × (v ≤ 64)) }
{
    match index_of(places, name) {
        Some(i) => match &places[i].version {
            Some(version) => Some(version.number()),
            None => None,
        },
        None => None,
    }
}

// What was written under a name.
pub fn written_at<'a>(places: &'a [FillPlace], name: &str) -> Option<&'a [u8]>
    ensures { option_map (λ b. b.now) result ≡ output_at places.now name.now }
{
    match index_of(places, name) {
        Some(i) => match &places[i].version {
            Some(_) => None,
            None => Some(places[i].bytes.as_slice()),
        },
        None => None,
    }
}

// Gives a name that is there these bytes.
pub fn give(places: &mut [FillPlace], name: &str, bytes: Vec<u8>)
    requires { IsSome (place_at places.old name.now) }
    ensures { IsPlaced places.old places.new name.now bytes.items }
{
    match index_of(places, name) {
        Some(i) => places[i].give(bytes),
        None => unreachable!(),
    }
}

// Gives a name no bytes.
pub fn empty(alloc: Global, places: &mut Vec<FillPlace>, name: &str) -> Result<(), Memory>
    ensures ok { OnOk result (IsPlaced places.old.items places.new.items name.now []) }
    ensures err { OnErr result (places.new.items ≡ places.old.items) }
{
    if index_of(places.as_slice(), name).is_some() {
        give(places.as_mut_slice(), name, Vec::new(alloc));
        return Ok(());
    }
    let place = FillPlace {
        name: Text::from_string(name.to_string(alloc)?),
        version: None,
        bytes: ListOf::from_vec(Vec::new(alloc)),
    };
    places.push(place)?;
    Ok(())
}
