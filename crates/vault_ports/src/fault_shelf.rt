// A shelf in memory whose numbered calls fail.
ghost use Rattle.std.specs.Prelude.{◌≡◌, ◌≢◌, ◌↔◌, Some, None, IfOk, OnOk, OnErr, IsErr, IsErrOf, IsTrue, is_err};
ghost use Rattle.std.specs.Option.{option_map};
ghost use Rattle.std.specs.FinMap as map;
ghost use Rattle.vault_types.specs.Shelf.{floor_name};
ghost use Rattle.vault_traits.specs.Counts.{counted, HasCause, HasFailed};
ghost use Rattle.vault_traits.specs.Shelf.{gets_after, IsWritten, MayBeWritten, IsAsBefore, IsListing};
ghost use Rattle.vault_ports.specs.Failing.{is_failed};
ghost use Rattle.vault_ports.specs.Faulty.{FailsNow, IsCounted, done_if, told_of};

use crate::mem_shelf::{MemShelf, count_get};
use crate::numbered::Numbered;
use std::alloc::Global;
use std::marker::Model;
use vault_traits::{Failed, Refused, Shelf};
use vault_types::{Kind, Name, Set};

/// A shelf in memory whose calls of given numbers fail.
#[derive(Drop)]
pub struct FaultShelf {
    inner: MemShelf,
    numbered: Numbered,
    keep: bool,
    faults: u64,
    gets: u64,
}

impl Model for FaultShelf {
    ghost use Rattle.vault_ports.specs.Faulty.{FaultyShelf, coded_faulty};

    ghost Value = { FaultyShelf };

    ghost coded = { coded_faulty };

    ghost view = { λ s.
        record {
          blobs = s.inner.blobs;
          gets = s.gets;
          fail = s.numbered.fail.items;
          keep = s.keep;
          calls = s.numbered.calls;
          faults = s.faults;
        } };
}

impl FaultShelf {
    /// As `inner`, but the calls of these numbers fail, counted from 1 over all six kinds. `keep` says whether a write that
    /// fails is done.
    pub fn new(inner: MemShelf, fail: Vec<u64>, keep: bool) -> Self
        ensures { result
            ≡ record {
              blobs = inner.blobs;
              gets = 0;
              fail = fail.items;
              keep = keep;
              calls = 0;
              faults = 0;
            } }
    {
        FaultShelf {
            inner,
            numbered: Numbered::new(fail),
            keep,
            faults: 0,
            gets: 0,
        }
    }

    /// The shelf that it is over.
    pub fn into_inner(self) -> MemShelf
        ensures { result.blobs ≡ self.blobs }
    {
        let FaultShelf { inner, .. } = self;
        inner
    }

    /// How many gets of a payload there were.
    pub fn payload_gets(&self) -> u64
        ensures { result ≡ self.now.gets }
    {
        self.gets
    }

    // Counts a call, and tells whether it fails.
    fn fails_now(&mut self) -> bool
        ensures fails { IsTrue result ↔ FailsNow self.old }
        ensures calls { self.new ≡ record self.old { calls = counted self.old.calls } }
    {
        self.numbered.fails()
    }

    // Counts a call that failed.
    fn count_fault(&mut self)
        ensures { self.new ≡ record self.old { faults = counted self.old.faults } }
    {
        self.faults = self.faults.saturating_add(1);
    }
}

impl Shelf for FaultShelf {
    ghost use Rattle.vault_ports.specs.Mem.{none_told};

    ghost told = { λ s. told_of s };

    fn get(&mut self, alloc: Global, name: Name) -> Result<Option<Vec<u8>>, Refused>
        ensures found { IfOk result (λ found. option_map (λ v. v.items) found ≡ map.get self.old.blobs name) }
        ensures kept { IsAsBefore (told_of self.old) (told_of self.new) }
        ensures gets { self.new.gets ≡ gets_after name.kind self.old.gets }
        ensures cause { HasCause self.old.faults self.new.faults result }
        ensures fails { IsErrOf result Refused.Failed ↔ FailsNow self.old }
        ensures counts { IsCounted self.old self.new (is_failed result) }
    {
        self.gets = count_get(self.gets, name.kind);
        if self.fails_now() {
            self.count_fault();
            return Err(Refused::Failed);
        }
        self.inner.get(alloc, name)
    }

    /// A put that fails is done where `keep` says so, unless there is no memory.
    fn put(&mut self, alloc: Global, name: Name, bytes: &[u8]) -> Result<(), Refused>
        requires { name.kind ≢ Kind.Floor }
        ensures ok { OnOk result
            (IsWritten (Some self.old.blobs) (Some self.new.blobs) None None name (Some bytes.now)) }
        ensures at_most { MayBeWritten (Some self.old.blobs) (Some self.new.blobs) None None name
            (Some bytes.now) }
        ensures memory { IsErrOf result Refused.Memory → IsAsBefore (told_of self.old) (told_of self.new) }
        ensures gets { self.new.gets ≡ self.old.gets }
        ensures cause { HasCause self.old.faults self.new.faults result }
        ensures fails { IsErrOf result Refused.Failed → FailsNow self.old }
        ensures must { FailsNow self.old → IsErr result }
        ensures done { IsErrOf result Refused.Failed
            → self.new.blobs ≡ done_if self.old.keep self.old.blobs name (Some bytes.now) }
        ensures counts { IsCounted self.old self.new (is_failed result) }
    {
        if !self.fails_now() {
            return self.inner.put(alloc, name, bytes);
        }
        if self.keep {
            self.inner.put(alloc, name, bytes)?;
        }
        self.count_fault();
        Err(Refused::Failed)
    }

    fn put_floor(&mut self, set: Set, bytes: &[u8; 28]) -> Result<(), Failed>
        ensures ok { OnOk result
            (IsWritten (Some self.old.blobs) (Some self.new.blobs) None None (floor_name set)
            (Some bytes.now)) }
        ensures at_most { MayBeWritten (Some self.old.blobs) (Some self.new.blobs) None None (floor_name set)
            (Some bytes.now) }
        ensures gets { self.new.gets ≡ self.old.gets }
        ensures cause { HasFailed self.old.faults self.new.faults result }
        ensures fails { IsErr result ↔ FailsNow self.old }
        ensures done { OnErr result
            (self.new.blobs ≡ done_if self.old.keep self.old.blobs (floor_name set) (Some bytes.now)) }
        ensures counts { IsCounted self.old self.new (is_err result) }
    {
        if !self.fails_now() {
            return self.inner.put_floor(set, bytes);
        }
        if self.keep {
            self.inner.put_floor(set, bytes)?;
        }
        self.count_fault();
        Err(Failed)
    }

    fn remove(&mut self, name: Name) -> Result<(), Failed>
        ensures ok { OnOk result (IsWritten (Some self.old.blobs) (Some self.new.blobs) None None name None) }
        ensures at_most { MayBeWritten (Some self.old.blobs) (Some self.new.blobs) None None name None }
        ensures gets { self.new.gets ≡ self.old.gets }
        ensures cause { HasFailed self.old.faults self.new.faults result }
        ensures fails { IsErr result ↔ FailsNow self.old }
        ensures done { OnErr result (self.new.blobs ≡ done_if self.old.keep self.old.blobs name None) }
        ensures counts { IsCounted self.old self.new (is_err result) }
    {
        if !self.fails_now() {
            return self.inner.remove(name);
        }
        if self.keep {
            self.inner.remove(name)?;
        }
        self.count_fault();
        Err(Failed)
    }

    fn list(&mut self, alloc: Global) -> Result<Vec<Name>, Refused>
        ensures names { IfOk result (λ names. IsListing self.old.blobs names.items) }
        ensures kept { IsAsBefore (told_of self.old) (told_of self.new) }
        ensures gets { self.new.gets ≡ self.old.gets }
        ensures cause { HasCause self.old.faults self.new.faults result }
        ensures fails { IsErrOf result Refused.Failed ↔ FailsNow self.old }
        ensures counts { IsCounted self.old self.new (is_failed result) }
    {
        if self.fails_now() {
            self.count_fault();
            return Err(Refused::Failed);
        }
        self.inner.list(alloc)
    }

    fn settle(&mut self) -> Result<(), Failed>
        ensures blobs { self.new.blobs ≡ self.old.blobs }
        ensures gets { self.new.gets ≡ self.old.gets }
        ensures cause { HasFailed self.old.faults self.new.faults result }
        ensures fails { IsErr result ↔ FailsNow self.old }
        ensures counts { IsCounted self.old self.new (is_err result) }
    {
        if self.fails_now() {
            self.count_fault();
            return Err(Failed);
        }
        self.inner.settle()
    }

    fn faults(&self) -> u64 {
        self.faults
    }

    ghost reads_an_image = { λ s h kept. absurd (none_told h kept) };
}
