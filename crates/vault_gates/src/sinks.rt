// A sink in memory with a gate.
ghost use Rattle.std.specs.Prelude.{◌≡◌, ◌<◌, ◌≤◌, ◌-◌, ◌⊎◌, min, Some, true, false, length, take, is_some, IfOk, OnErr, IsErr, is_err};
ghost use Rattle.vault_traits.specs.Counts.{HasFailed};
ghost use Rattle.vault_traits.specs.Told.{Takes};
ghost use Rattle.vault_ports.specs.Failing.{counted_if};

use crate::gate::Gate;
use std::marker::Model;
use vault_ports::MemSink;
use vault_traits::{Failed, Sink};

/// A sink in memory of which a gate may guard the first write.
#[derive(Drop)]
pub struct GateSink {
    inner: MemSink,
    gate: Option<Gate>,
    faults: u64,
}

impl Model for GateSink {
    ghost use Rattle.std.specs.Prelude.{is_some};
    ghost use Rattle.vault_gates.specs.Streams.{GatedTaking};

    ghost Value = { GatedTaking };

    ghost view = { λ s.
        record { taken = s.inner.taken; room = s.inner.room; gated = is_some s.gate; faults = s.faults } };
}

impl GateSink {
    /// As `inner`, but the gate, if there is one, guards the first write. It takes no memory.
    pub fn new(inner: MemSink, gate: Option<Gate>) -> Self
        ensures { result
            ≡ record { taken = inner.taken; room = inner.room; gated = is_some gate; faults = 0 } }
    {
        GateSink {
            inner,
            gate,
            faults: 0,
        }
    }

    /// What it took.
    pub fn as_slice(&self) -> &[u8]
        ensures { result.now ≡ self.now.taken }
    {
        self.inner.as_slice()
    }

    /// What it took.
    pub fn into_vec(self) -> Vec<u8>
        ensures { result.items ≡ self.taken }
    {
        self.into_inner().into_vec()
    }

    // The sink that it is over.
    pub(crate) fn into_inner(self) -> MemSink
        ensures { result.taken ≡ self.taken }
    {
        let GateSink { inner, .. } = self;
        inner
    }

    // Tells whether this write goes on. No later one is guarded.
    fn lets_go_on(&mut self) -> bool
        ensures refused { result ≡ false → self.old.gated ≡ true }
        ensures gate { self.new ≡ record self.old { gated = false } }
    {
        match self.gate.take() {
            Some(gate) => gate.opens(),
            None => true,
        }
    }
}

impl Sink for GateSink {
    ghost told = { λ s. record { taken = Some s.taken; faults = s.faults } };

    /// The first write fails where there is a gate that refuses it, and so does one that finds no room; another one takes as
    /// much of the piece as there is room for.
    fn write(&mut self, piece: &[u8]) -> Result<usize, Failed>
        requires { 0 < length piece.now }
        ensures some { IfOk result (λ n. (0 < n) × (n ≤ length piece.now)) }
        ensures taken { IfOk result
            (λ n. Takes (Some self.old.taken) (Some self.new.taken) (take n piece.now)) }
        ensures err { OnErr result (self.new.taken ≡ self.old.taken) }
        ensures cause { HasFailed self.old.faults self.new.faults result }
        ensures fails { IsErr result → (self.old.gated ≡ true) ⊎ (length self.old.taken ≡ self.old.room) }
        ensures full { length self.old.taken ≡ self.old.room → IsErr result }
        ensures many { IfOk result (λ n. n ≡ min (self.old.room - length self.old.taken) (length piece.now)) }
        ensures counts { self.new
            ≡ record self.old {
              taken = self.new.taken;
              gated = false;
              faults = counted_if (is_err result) self.old.faults;
            } }
    {
        if !self.lets_go_on() {
            self.faults = self.faults.saturating_add(1);
            return Err(Failed);
        }
        match self.inner.write(piece) {
            Ok(n) => Ok(n),
            Err(Failed) => {
                self.faults = self.faults.saturating_add(1);
                Err(Failed)
            }
        }
    }

    fn faults(&self) -> u64 {
        self.faults
    }
}
