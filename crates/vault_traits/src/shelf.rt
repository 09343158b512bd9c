// A shelf of named blobs as the store sees it.
ghost use Rattle.std.specs.Prelude.{◌≡◌, ◌≢◌, ◌⊎◌, ◌≤◌, ◌<◌, List, ℕ, length, Option, Some, None, IfOk, OnOk, OnErr, IfSome, IsErrOf};
ghost use Rattle.std.specs.Option.{option_map};
ghost use Rattle.std.specs.FinMap as map;
ghost use Rattle.vault_types.specs.Shelf.{floor_name};
ghost use Rattle.vault_traits.specs.Counts.{HasCause, HasFailed};
ghost use Rattle.vault_traits.specs.Told.{ShelfTold};
ghost use Rattle.vault_traits.specs.Crash.{ReadsAnImage};
ghost use Rattle.vault_traits.specs.Shelf.{gets_after, history_settled, IsWritten, MayBeWritten, IsAsBefore, IsListing};

use crate::{Failed, Refused};
use std::alloc::Global;
use vault_types::{Kind, Name, Set};

/// Named blobs: the tables, payloads, recipes and floors of a store. What it tells is a finite map from names to
/// bytes. It may also tell its history, from which follows what a crash may leave: the blobs as the last `settle`
/// that succeeded left them, with any subset of the later writes carried out in order, each whole or not at all. A
/// write that failed may be in that subset; one that answered want of memory is not.
pub trait Shelf {
    /// What the shelf tells.
    ghost told: { Self → ShelfTold };

    /// What is under a name. It counts a get of a payload. After an `Err` nothing has changed.
    fn get(&mut self, alloc: Global, name: Name) -> Result<Option<Vec<u8>>, Refused>
        ensures found { IfOk result
            (λ found. IfSome (told self.old).blobs (λ m. option_map (λ v. v.items) found ≡ map.get m name)) }
        ensures kept { IsAsBefore (told self.old) (told self.new) }
        ensures gets { (told self.new).gets ≡ gets_after name.kind (told self.old).gets }
        ensures cause { HasCause (told self.old).faults (told self.new).faults result };

    /// Puts bytes under a name, which is not a floor's. After `Failed` the name has its old or its new content, and all
    /// others stay; after `Memory` nothing has changed.
    fn put(&mut self, alloc: Global, name: Name, bytes: &[u8]) -> Result<(), Refused>
        requires { name.kind ≢ Kind.Floor }
        ensures ok { OnOk result
            (IsWritten (told self.old).blobs (told self.new).blobs (told self.old).history
            (told self.new).history name (Some bytes.now)) }
        ensures at_most { MayBeWritten (told self.old).blobs (told self.new).blobs (told self.old).history
            (told self.new).history name (Some bytes.now) }
        ensures memory { IsErrOf result Refused.Memory → IsAsBefore (told self.old) (told self.new) }
        ensures gets { (told self.new).gets ≡ (told self.old).gets }
        ensures cause { HasCause (told self.old).faults (told self.new).faults result };

    /// Sets the floor of a set. After an `Err` it is the old or the new one. It takes no memory.
    fn put_floor(&mut self, set: Set, bytes: &[u8; 28]) -> Result<(), Failed>
        ensures ok { OnOk result
            (IsWritten (told self.old).blobs (told self.new).blobs (told self.old).history
            (told self.new).history (floor_name set) (Some bytes.now)) }
        ensures at_most { MayBeWritten (told self.old).blobs (told self.new).blobs (told self.old).history
            (told self.new).history (floor_name set) (Some bytes.now) }
        ensures gets { (told self.new).gets ≡ (told self.old).gets }
        ensures cause { HasFailed (told self.old).faults (told self.new).faults result };

    /// Takes a name out; one that is not there needs nothing. After an `Err` it has its old content or none. It takes
    /// no memory.
    fn remove(&mut self, name: Name) -> Result<(), Failed>
        ensures ok { OnOk result
            (IsWritten (told self.old).blobs (told self.new).blobs (told self.old).history
            (told self.new).history name None) }
        ensures at_most { MayBeWritten (told self.old).blobs (told self.new).blobs (told self.old).history
            (told self.new).history name None }
        ensures gets { (told self.new).gets ≡ (told self.old).gets }
        ensures cause { HasFailed (told self.old).faults (told self.new).faults result };

    /// Every name once, by kind and then by number. After an `Err` nothing has changed.
    fn list(&mut self, alloc: Global) -> Result<Vec<Name>, Refused>
        ensures names { IfOk result (λ names. IfSome (told self.old).blobs (λ m. IsListing m names.items)) }
        ensures kept { IsAsBefore (told self.old) (told self.new) }
        ensures gets { (told self.new).gets ≡ (told self.old).gets }
        ensures cause { HasCause (told self.old).faults (told self.new).faults result };

    /// Makes what was written last: a crash from here on leaves it. After an `Err` nothing has changed. It takes no
    /// memory.
    fn settle(&mut self) -> Result<(), Failed>
        ensures blobs { (told self.new).blobs ≡ (told self.old).blobs }
        ensures ok { OnOk result
            ((told self.new).history ≡ history_settled (told self.old).blobs (told self.old).history) }
        ensures failed { OnErr result ((told self.new).history ≡ (told self.old).history) }
        ensures gets { (told self.new).gets ≡ (told self.old).gets }
        ensures cause { HasFailed (told self.old).faults (told self.new).faults result };

    /// How often it has failed.
    fn faults(&self) -> u64
        ensures { result ≡ (told self.now).faults };

    /// A shelf that tells its history tells its blobs too, and what it reads as now is one of the images.
    ghost reads_an_image: { (s : Self) → ReadsAnImage (told s).blobs (told s).history };
}
