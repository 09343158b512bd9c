// A shelf in memory with a gate.
ghost use Rattle.std.specs.Prelude.{◌≡◌, ◌≢◌, Some, None, true, false, IfOk, OnOk, OnErr, IsOk, IsErr, IsErrOf, is_err};
ghost use Rattle.std.specs.Option.{option_map};
ghost use Rattle.std.specs.FinMap as map;
ghost use Rattle.vault_types.specs.declared.Kind.TheVariants as kinds;
ghost use Rattle.vault_types.specs.Shelf.{floor_name};
ghost use Rattle.vault_traits.specs.Counts.{HasCause, HasFailed};
ghost use Rattle.vault_traits.specs.Shelf.{gets_after, IsWritten, MayBeWritten, IsAsBefore, IsListing};
ghost use Rattle.vault_ports.specs.Failing.{counted_if, is_failed};
ghost use Rattle.vault_gates.specs.Shelf.{puts_after, IsGuarded};

use crate::gate::Gate;
use crate::guard::Guard;
use std::alloc::Global;
use std::marker::Model;
use vault_ports::MemShelf;
use vault_traits::{Failed, Refused, Shelf};
use vault_types::{Kind, Name, Set};

/// A shelf in memory. A gate guards one of the puts of one kind, and no other call fails.
#[derive(Drop)]
pub struct GateShelf {
    inner: MemShelf,
    kind: Kind,
    guard: Guard,
    faults: u64,
    gets: u64,
}

impl Model for GateShelf {
    ghost use Rattle.vault_gates.specs.Shelf.{GatedShelf, coded_gated};

    ghost Value = { GatedShelf };

    ghost coded = { coded_gated };

    ghost view = { λ s.
        record {
          blobs = s.inner.blobs;
          gets = s.gets;
          kind = s.kind;
          nth = s.guard.nth;
          puts = s.guard.calls;
          faults = s.faults;
        } };
}

impl GateShelf {
    /// As `inner`, but the gate guards the put of that number, counted from 1 over the puts of that kind; a put of a floor is
    /// one of the kind of floors. It takes no memory.
    pub fn new(inner: MemShelf, kind: Kind, nth: u64, gate: Gate) -> Self
        ensures { result
            ≡ record { blobs = inner.blobs; gets = 0; kind = kind; nth = nth; puts = 0; faults = 0 } }
    {
        GateShelf {
            inner,
            kind,
            guard: Guard::new(gate, nth),
            faults: 0,
            gets: 0,
        }
    }

    /// The shelf that it is over.
    pub fn into_inner(self) -> MemShelf
        ensures { result.blobs ≡ self.blobs }
    {
        let GateShelf { inner, .. } = self;
        inner
    }

    /// How many gets of a payload there were.
    pub fn payload_gets(&self) -> u64
        ensures { result ≡ self.now.gets }
    {
        self.gets
    }

    // Counts a get.
    fn count_get(&mut self, kind: Kind)
        ensures { self.new ≡ record self.old { gets = gets_after kind self.old.gets } }
    {
        match kind {
            Kind::Payload => self.gets = self.gets.saturating_add(1),
            _ => {}
        }
    }

    // Counts a put, and tells whether it goes on.
    fn lets_go_on(&mut self, kind: Kind) -> bool
        ensures refused { result ≡ false → IsGuarded self.old kind }
        ensures counts { self.new ≡ record self.old { puts = puts_after kind self.old } }
    {
        kind != self.kind || self.guard.lets_go_on()
    }

    // Counts a call that failed.
    fn count_fault(&mut self)
        ensures { self.new ≡ record self.old { faults = counted_if true self.old.faults } }
    {
        self.faults = self.faults.saturating_add(1);
    }
}

impl Shelf for GateShelf {
    ghost use Rattle.vault_ports.specs.Mem.{none_told};

    ghost told = { λ s. record { blobs = Some s.blobs; history = None; faults = s.faults; gets = s.gets } };

    fn get(&mut self, alloc: Global, name: Name) -> Result<Option<Vec<u8>>, Refused>
        ensures found { IfOk result (λ found. option_map (λ v. v.items) found ≡ map.get self.old.blobs name) }
        ensures memory { OnErr result (IsErrOf result Refused.Memory) }
        ensures counts { self.new ≡ record self.old { gets = gets_after name.kind self.old.gets } }
    {
        self.count_get(name.kind);
        self.inner.get(alloc, name)
    }

    /// The guarded put fails where its gate refuses it. After an `Err` nothing has changed but the counts.
    fn put(&mut self, alloc: Global, name: Name, bytes: &[u8]) -> Result<(), Refused>
        requires { name.kind ≢ Kind.Floor }
        ensures ok { OnOk result
            (IsWritten (Some self.old.blobs) (Some self.new.blobs) None None name (Some bytes.now)) }
        ensures err { OnErr result (self.new.blobs ≡ self.old.blobs) }
        ensures cause { HasCause self.old.faults self.new.faults result }
        ensures fails { IsErrOf result Refused.Failed → IsGuarded self.old name.kind }
        ensures counts { self.new
            ≡ record self.old {
              blobs = self.new.blobs;
              puts = puts_after name.kind self.old;
              faults = counted_if (is_failed result) self.old.faults;
            } }
    {
        if !self.lets_go_on(name.kind) {
            self.count_fault();
            return Err(Refused::Failed);
        }
        self.inner.put(alloc, name, bytes)
    }

    /// The guarded put fails where its gate refuses it. After an `Err` nothing has changed but the counts.
    fn put_floor(&mut self, set: Set, bytes: &[u8; 28]) -> Result<(), Failed>
        ensures ok { OnOk result
            (IsWritten (Some self.old.blobs) (Some self.new.blobs) None None (floor_name set)
            (Some bytes.now)) }
        ensures err { OnErr result (self.new.blobs ≡ self.old.blobs) }
        ensures cause { HasFailed self.old.faults self.new.faults result }
        ensures fails { IsErr result → IsGuarded self.old kinds.Floor }
        ensures counts { self.new
            ≡ record self.old {
              blobs = self.new.blobs;
              puts = puts_after kinds.Floor self.old;
              faults = counted_if (is_err result) self.old.faults;
            } }
    {
        if !self.lets_go_on(Kind::Floor) {
            self.count_fault();
            return Err(Failed);
        }
        self.inner.put_floor(set, bytes)
    }

    fn remove(&mut self, name: Name) -> Result<(), Failed>
        ensures ok { IsOk result }
        ensures written { IsWritten (Some self.old.blobs) (Some self.new.blobs) None None name None }
        ensures counts { self.new ≡ record self.old { blobs = self.new.blobs } }
    {
        self.inner.remove(name)
    }

    fn list(&mut self, alloc: Global) -> Result<Vec<Name>, Refused>
        ensures names { IfOk result (λ names. IsListing self.old.blobs names.items) }
        ensures memory { OnErr result (IsErrOf result Refused.Memory) }
        ensures kept { self.new ≡ self.old }
    {
        self.inner.list(alloc)
    }

    fn settle(&mut self) -> Result<(), Failed>
        ensures ok { IsOk result }
        ensures kept { self.new ≡ self.old }
    {
        self.inner.settle()
    }

    fn faults(&self) -> u64 {
        self.faults
    }

    ghost reads_an_image = { λ s h kept. absurd (none_told h kept) };
}
