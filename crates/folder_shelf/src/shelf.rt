// The shelf over a folder.
ghost use Rattle.std.specs.Prelude.{◌≡◌, ◌⊎◌, IfOk, IfErr, if◌then◌else◌};
ghost use Rattle.folder_shelf.specs.Silent.{is_failure};
ghost use Rattle.vault_traits.specs.Counts.{counted};
ghost use Rattle.vault_types.specs.declared.Fault.TheVariants as fault;

use crate::folder::Folder;
use crate::streams::count;
use std::alloc::Global;
use std::fs::Files;
use std::marker::Model;
use vault_traits::{Failed, Refused, Shelf};
use vault_types::{Fault, Kind, Name, Set};

/// A shelf over a folder: a file for each blob, with the file names of `names`.
///
/// A `put` writes the bytes to a file with `.new` at its end, which is renamed once they are on the disk. A table and a
/// payload may be on their way while the next ones are made: a later call waits for them, and `settle` waits until all
/// of them and the folder's names are on the disk. So a crash leaves each blob whole, with its old or its new content.
/// Where a table or a payload can't be brought to the disk, the call that waited for it fails, and each `settle` from then
/// on. A name without a file name has no blob and takes none: a `put` of it is a fault. `put_floor`, `remove`
/// and `settle` count a refusal of memory by the host as a fault. Nothing is told of content.
#[derive(Drop)]
pub struct FolderShelf<R: Files> {
    folder: Folder<R>,
    faults: u64,
    gets: u64,
}

impl<R: Files> Model for FolderShelf<R> {
    ghost use Rattle.folder_shelf.specs.Silent.{ShelfCounts};

    ghost Value = { ShelfCounts };

    ghost view = { λ s. record { faults = s.faults; gets = s.gets } };
}

impl<R: Files> FolderShelf<R> {
    /// A shelf over the folder at this path, which is made where it is absent. `StoreFault(1)` says that this failed.
    pub fn start(alloc: Global, files: R, path: &str) -> Result<Self, Fault>
    where
        R: Drop,
        ensures fresh { IfOk result (λ s. s ≡ record { faults = 0; gets = 0 }) }
        ensures err { IfErr result (λ e. (e ≡ fault.Memory) ⊎ (e ≡ fault.StoreFault 1)) }
    {
        match Folder::open(alloc, files, path) {
            Ok(folder) => Ok(FolderShelf {
                folder,
                faults: 0,
                gets: 0,
            }),
            Err(Refused::Memory) => Err(Fault::Memory),
            Err(Refused::Failed) => Err(Fault::StoreFault(1)),
        }
    }
}

impl<R: Files> Shelf for FolderShelf<R> {
    ghost use Rattle.folder_shelf.specs.Silent.{silent_shelf, none_told};

    ghost told = { silent_shelf };

    fn get(&mut self, alloc: Global, name: Name) -> Result<Option<Vec<u8>>, Refused> {
        match name.kind {
            Kind::Payload => self.gets = self.gets.saturating_add(1),
            _ => {}
        }
        let answer = self.folder.read(alloc, name);
        count_refused(&mut self.faults, answer)
    }

    fn put(&mut self, _alloc: Global, name: Name, bytes: &[u8]) -> Result<(), Refused> {
        let answer = self.folder.write(name, bytes);
        count_refused(&mut self.faults, answer)
    }

    fn put_floor(&mut self, set: Set, bytes: &[u8; 28]) -> Result<(), Failed> {
        let name = Name {
            kind: Kind::Floor,
            number: u64::from(set),
        };
        let answer = match self.folder.write(name, bytes) {
            Ok(()) => Ok(()),
            Err(_) => Err(Failed),
        };
        count(&mut self.faults, answer)
    }

    fn remove(&mut self, name: Name) -> Result<(), Failed> {
        let answer = self.folder.remove(name);
        count(&mut self.faults, answer)
    }

    fn list(&mut self, alloc: Global) -> Result<Vec<Name>, Refused> {
        let answer = self.folder.list(alloc);
        count_refused(&mut self.faults, answer)
    }

    fn settle(&mut self) -> Result<(), Failed> {
        let answer = self.folder.settle();
        count(&mut self.faults, answer)
    }

    fn faults(&self) -> u64 {
        self.faults
    }

    ghost reads_an_image = { λ s h kept. absurd (none_told h kept) };
}

// Counts a failure; want of memory is none.
fn count_refused<T>(faults: &mut u64, answer: Result<T, Refused>) -> Result<T, Refused>
    ensures answer { result ≡ answer }
    ensures faults { faults.new ≡ (if is_failure answer then counted faults.old else faults.old) }
{
    match answer {
        Err(Refused::Failed) => *faults = faults.saturating_add(1),
        _ => {}
    }
    answer
}
