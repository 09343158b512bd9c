// Sinks in memory.
ghost use Rattle.std.specs.Prelude.{◌≡◌, ◌<◌, ◌≤◌, ◌-◌, ◌↔◌, ◌⊎◌, min, Some, [], Ok, length, take, IfOk, OnErr, IsErr, is_err, Contains};
ghost use Rattle.vault_traits.specs.Counts.{counted, HasFailed};
ghost use Rattle.vault_traits.specs.Told.{Takes};
ghost use Rattle.vault_ports.specs.Failing.{counted_if};

use crate::numbered::Numbered;
use std::alloc::Global;
use std::marker::Model;
use vault_traits::{Failed, Sink};
use vault_types::Memory;

/// Keeps what it took, for which it has room from the start.
#[derive(Drop)]
pub struct MemSink {
    taken: Vec<u8>,
    room: usize,
    faults: u64,
}

impl Model for MemSink {
    ghost use Rattle.std.specs.Prelude.{vec_len, vec_capacity, ◌≤◌};
    ghost use Rattle.vault_ports.specs.Streams.{Taking};

    ghost Value = { Taking };

    ghost view = { λ s. record { taken = s.taken.items; room = s.room; faults = s.faults } };

    ghost invariant = { λ s. (vec_len s.taken ≤ s.room) × (s.room ≤ vec_capacity s.taken) };
}

impl MemSink {
    /// A sink with room for so many bytes.
    pub fn with(alloc: Global, room: usize) -> Result<Self, Memory>
        ensures { IfOk result (λ s. s ≡ record { taken = []; room = room; faults = 0 }) }
    {
        let taken = Vec::with_capacity(alloc, room)?;
        Ok(MemSink {
            taken,
            room,
            faults: 0,
        })
    }

    /// What it took.
    pub fn as_slice(&self) -> &[u8]
        ensures { result.now ≡ self.now.taken }
    {
        self.taken.as_slice()
    }

    /// What it took.
    pub fn into_vec(self) -> Vec<u8>
        ensures { result.items ≡ self.taken }
    {
        let MemSink { taken, .. } = self;
        taken
    }
}

impl Sink for MemSink {
    ghost told = { λ s. record { taken = Some s.taken; faults = s.faults } };

    /// Takes as much of the piece as there is room for, and fails where there is none.
    fn write(&mut self, piece: &[u8]) -> Result<usize, Failed>
        requires { 0 < length piece.now }
        ensures some { IfOk result (λ n. (0 < n) × (n ≤ length piece.now)) }
        ensures taken { IfOk result
            (λ n. Takes (Some self.old.taken) (Some self.new.taken) (take n piece.now)) }
        ensures err { OnErr result (self.new.taken ≡ self.old.taken) }
        ensures cause { HasFailed self.old.faults self.new.faults result }
        ensures fails { IsErr result ↔ (length self.old.taken ≡ self.old.room) }
        ensures many { IfOk result (λ n. n ≡ min (self.old.room - length self.old.taken) (length piece.now)) }
        ensures room { self.new.room ≡ self.old.room }
        ensures faults { self.new.faults ≡ counted_if (is_err result) self.old.faults }
    {
        let n = (self.room - self.taken.len()).min(piece.len());
        if n == 0 {
            self.faults = self.faults.saturating_add(1);
            return Err(Failed);
        }
        match self.taken.extend_from_slice(&piece[..n]) {
            Ok(()) => Ok(n),
            Err(_) => unreachable!(),
        }
    }

    fn faults(&self) -> u64 {
        self.faults
    }
}

/// A sink in memory whose writes of given numbers fail too.
#[derive(Drop)]
pub struct FaultSink {
    inner: MemSink,
    numbered: Numbered,
    faults: u64,
}

impl Model for FaultSink {
    ghost use Rattle.vault_ports.specs.Streams.{FaultyTaking};

    ghost Value = { FaultyTaking };

    ghost view = { λ s.
        record {
          taken = s.inner.taken;
          room = s.inner.room;
          fail = s.numbered.fail.items;
          calls = s.numbered.calls;
          faults = s.faults;
        } };
}

impl FaultSink {
    /// As `inner`, but the writes of these numbers fail too, counted from 1.
    pub fn new(inner: MemSink, fail: Vec<u64>) -> Self
        ensures { result
            ≡ record { taken = inner.taken; room = inner.room; fail = fail.items; calls = 0; faults = 0 } }
    {
        FaultSink {
            inner,
            numbered: Numbered::new(fail),
            faults: 0,
        }
    }

    /// What it took.
    pub fn as_slice(&self) -> &[u8]
        ensures { result.now ≡ self.now.taken }
    {
        self.inner.as_slice()
    }

    /// What it took.
    pub fn into_vec(self) -> Vec<u8>
        ensures { result.items ≡ self.taken }
    {
        let FaultSink { inner, .. } = self;
        inner.into_vec()
    }
}

impl Sink for FaultSink {
    ghost told = { λ s. record { taken = Some s.taken; faults = s.faults } };

    /// A write whose number is among those fails, and so does one that finds no room; another one takes as much of the
    /// piece as there is room for.
    fn write(&mut self, piece: &[u8]) -> Result<usize, Failed>
        requires { 0 < length piece.now }
        ensures some { IfOk result (λ n. (0 < n) × (n ≤ length piece.now)) }
        ensures taken { IfOk result
            (λ n. Takes (Some self.old.taken) (Some self.new.taken) (take n piece.now)) }
        ensures err { OnErr result (self.new.taken ≡ self.old.taken) }
        ensures cause { HasFailed self.old.faults self.new.faults result }
        ensures fails { IsErr result
            ↔ (Contains self.old.fail (counted self.old.calls) ⊎ (length self.old.taken ≡ self.old.room)) }
        ensures many { IfOk result (λ n. n ≡ min (self.old.room - length self.old.taken) (length piece.now)) }
        ensures room { self.new.room ≡ self.old.room }
        ensures fail { self.new.fail ≡ self.old.fail }
        ensures calls { self.new.calls ≡ counted self.old.calls }
        ensures faults { self.new.faults ≡ counted_if (is_err result) self.old.faults }
    {
        if self.numbered.fails() {
            self.faults = self.faults.saturating_add(1);
            return Err(Failed);
        }
        match self.inner.write(piece) {
            Ok(n) => Ok(n),
            Err(Failed) => {
                self.faults = self.faults.saturating_add(1);
                Err(Failed)
            }
        }
    }

    fn faults(&self) -> u64 {
        self.faults
    }
}
