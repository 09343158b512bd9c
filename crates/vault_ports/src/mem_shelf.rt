// A shelf in memory.
ghost use Rattle.std.specs.Prelude.{◌≡◌, ◌≢◌, Some, None, IfOk, OnOk};
ghost use Rattle.std.specs.Option.{option_map};
ghost use Rattle.std.specs.FinMap as map;
ghost use Rattle.vault_traits.specs.Shelf.{gets_after, IsListing};
ghost use Rattle.vault_ports.specs.Mem.{blobs_of, IsInOrder};

use crate::floors::Floors;
use std::alloc::Global;
use std::collections::{BTreeMap, BTreeSet};
use std::marker::Model;
use vault_traits::{Failed, Refused, Shelf};
use vault_types::{Kind, Memory, Name, Set};

/// A shelf in memory. It never fails.
#[derive(Drop)]
pub struct MemShelf {
    floors: Floors,
    tree: BTreeMap<Name, Vec<u8>>,
    gets: u64,
}

impl Model for MemShelf {
    ghost use Rattle.vault_ports.specs.Mem.{Shown, coded_shown, blobs_of, overlaid, HasOnlyFloors};

    ghost Value = { Shown };

    ghost coded = { coded_shown };

    ghost view = { λ a. record { blobs = overlaid a.floors (blobs_of a.tree.entries); gets = a.gets } };

    ghost invariant = { λ a. HasOnlyFloors a.floors };
}

// The count of payload gets after a get.
pub fn count_get(gets: u64, kind: Kind) -> u64
    ensures { result ≡ gets_after kind gets }
{
    match kind {
        Kind::Payload => gets.saturating_add(1),
        _ => gets,
    }
}

// The names in order, each once.
fn in_order(alloc: Global, names: Vec<Name>) -> Result<Vec<Name>, Memory>
    ensures { IfOk result (λ ordered. IsInOrder ordered.items names.items) }
{
    let all: BTreeSet<Name> = names.into_iter().collect(alloc)?;
    Ok(all.into_iter().collect(alloc)?)
}

impl MemShelf {
    /// A shelf with nothing on it. It takes no memory.
    pub fn new(alloc: Global) -> Self
        ensures blobs { result.blobs ≡ map.empty }
        ensures gets { result.gets ≡ 0 }
    {
        MemShelf {
            floors: Floors::new(),
            tree: BTreeMap::new(alloc),
            gets: 0,
        }
    }

    /// A shelf with these blobs, whatever their names. Of a name that stands twice it has the first.
    pub fn with(alloc: Global, blobs: Vec<(Name, Vec<u8>)>) -> Result<Self, Memory>
        ensures blobs { IfOk result (λ s. s.blobs ≡ blobs_of blobs.items) }
        ensures gets { IfOk result (λ s. s.gets ≡ 0) }
    {
        let mut rest = blobs;
        let mut tree = BTreeMap::new(alloc);
        while let Some((name, bytes)) = rest.pop() {
            tree.insert(name, bytes)?;
        }
        Ok(MemShelf {
            floors: Floors::new(),
            tree,
            gets: 0,
        })
    }

    /// What is under a name.
    pub fn blob(&self, name: Name) -> Option<&[u8]>
        ensures { option_map (λ b. b.now) result ≡ map.get self.now.blobs name }
    {
        if let Some(bytes) = self.floors.blob(name) {
            return Some(bytes);
        }
        match self.tree.get(&name) {
            Some(bytes) => Some(bytes.as_slice()),
            None => None,
        }
    }

    /// Every name, by kind and then by number.
    pub fn names(&self, alloc: Global) -> Result<Vec<Name>, Memory>
        ensures { IfOk result (λ names. IsListing self.now.blobs names.items) }
    {
        let mut names: Vec<Name> = self.tree.keys().copied().collect(alloc)?;
        self.floors.push_names(&mut names)?;
        in_order(alloc, names)
    }

    /// A shelf with the same blobs, and no gets.
    pub fn copy(&self) -> Result<Self, Memory>
        ensures blobs { IfOk result (λ s. s.blobs ≡ self.now.blobs) }
        ensures gets { IfOk result (λ s. s.gets ≡ 0) }
    {
        Ok(MemShelf {
            floors: self.floors.copy(),
            tree: self.tree.clone()?,
            gets: 0,
        })
    }

    /// How many gets of a payload there were.
    pub fn payload_gets(&self) -> u64
        ensures { result ≡ self.now.gets }
    {
        self.gets
    }
}

impl Shelf for MemShelf {
    ghost use Rattle.vault_ports.specs.Mem.{none_told};

    ghost told = { λ s. record { blobs = Some s.blobs; history = None; faults = 0; gets = s.gets } };

    fn get(&mut self, alloc: Global, name: Name) -> Result<Option<Vec<u8>>, Refused> {
        self.gets = count_get(self.gets, name.kind);
        match self.blob(name) {
            Some(bytes) => Ok(Some(bytes.to_vec(alloc)?)),
            None => Ok(None),
        }
    }

    fn put(&mut self, alloc: Global, name: Name, bytes: &[u8]) -> Result<(), Refused> {
        let copy = bytes.to_vec(alloc)?;
        self.tree.insert(name, copy)?;
        Ok(())
    }

    fn put_floor(&mut self, set: Set, bytes: &[u8; 28]) -> Result<(), Failed> {
        self.floors.put(set, bytes);
        Ok(())
    }

    fn remove(&mut self, name: Name) -> Result<(), Failed> {
        self.floors.remove(name);
        self.tree.remove(&name);
        Ok(())
    }

    fn list(&mut self, alloc: Global) -> Result<Vec<Name>, Refused> {
        match self.names(alloc) {
            Ok(names) => Ok(names),
            Err(Memory) => Err(Refused::Memory),
        }
    }

    fn settle(&mut self) -> Result<(), Failed> {
        Ok(())
    }

    fn faults(&self) -> u64 {
        0
    }

    ghost reads_an_image = { λ s h kept. absurd (none_told h kept) };
}
