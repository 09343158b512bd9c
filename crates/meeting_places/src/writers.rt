// A writer of which a gate may guard one write.
ghost use Rattle.std.specs.Prelude.{◌≡◌, ◌<◌, ◌≤◌, Some, length, take, IfOk, OnErr, is_err};
ghost use Rattle.vault_traits.specs.Counts.{HasFailed};
ghost use Rattle.vault_traits.specs.Told.{Takes};
ghost use Rattle.vault_ports.specs.Failing.{counted_if};

use std::marker::Model;
use vault_gates::Gate;
use vault_ports::MemSink;
use vault_traits::{Failed, Sink};

/// A sink in memory of which a gate may guard one write.
#[derive(Drop)]
pub struct MeetingSink {
    inner: MemSink,
    gate: Option<Gate>,
    // how many writes come before that one
    before: u64,
    faults: u64,
}

impl Model for MeetingSink {
    ghost use Rattle.meeting_places.specs.Meeting.{MeetingTaking};

    ghost Value = { MeetingTaking };

    ghost view = { λ s. record { taken = s.inner.taken; room = s.inner.room; faults = s.faults } };
}

impl MeetingSink {
    // As `inner`, but the gate, if there is one, guards the write behind so many.
    pub(crate) fn new(inner: MemSink, gate: Option<Gate>, before: u64) -> Self
        ensures { result ≡ record { taken = inner.taken; room = inner.room; faults = 0 } }
    {
        MeetingSink {
            inner,
            gate,
            before,
            faults: 0,
        }
    }

    // The sink that it is over.
    pub(crate) fn into_inner(self) -> MemSink
        ensures { result.taken ≡ self.taken }
    {
        let MeetingSink { inner, .. } = self;
        inner
    }

    // Counts a write, and tells whether it goes on.
    fn lets_go_on(&mut self) -> bool
        ensures { self.new ≡ self.old }
    {
        if self.before > 0 {
            self.before -= 1;
            return true;
        }
        match self.gate.take() {
            Some(gate) => gate.opens(),
            None => true,
        }
    }
}

impl Sink for MeetingSink {
    ghost told = { λ s. record { taken = Some s.taken; faults = s.faults } };

    /// The guarded write fails where its gate refuses it, and so does one that finds no room; another one takes as much of the
    /// piece as there is room for.
    fn write(&mut self, piece: &[u8]) -> Result<usize, Failed>
        requires { 0 < length piece.now }
        ensures some { IfOk result (λ n. (0 < n) × (n ≤ length piece.now)) }
        ensures taken { IfOk result
            (λ n. Takes (Some self.old.taken) (Some self.new.taken) (take n piece.now)) }
        ensures err { OnErr result (self.new.taken ≡ self.old.taken) }
        ensures cause { HasFailed self.old.faults self.new.faults result }
        ensures room { self.new.room ≡ self.old.room }
        ensures counts { self.new.faults ≡ counted_if (is_err result) self.old.faults }
    {
        if !self.lets_go_on() {
            self.faults = self.faults.saturating_add(1);
            return Err(Failed);
        }
        match self.inner.write(piece) {
            Ok(n) => Ok(n),
            Err(Failed) => {
                self.faults = self.faults.saturating_add(1);
                Err(Failed)
            }
        }
    }

    fn faults(&self) -> u64 {
        self.faults
    }
}
