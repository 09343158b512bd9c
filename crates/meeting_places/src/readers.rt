// A reader of which a gate may guard the first read.
ghost use Rattle.std.specs.Prelude.{◌≡◌, ◌<◌, ◌≤◌, Some, [], length, take, IfOk, OnErr, is_err};
ghost use Rattle.vault_traits.specs.Counts.{HasFailed};
ghost use Rattle.vault_traits.specs.Told.{Gives};
ghost use Rattle.vault_ports.specs.Failing.{counted_if};

use std::marker::Model;
use vault_gates::Gate;
use vault_ports::MemSource;
use vault_traits::{Failed, Source};

/// A source in memory of which a gate may guard the first read.
#[derive(Drop)]
pub struct MeetingSource {
    inner: MemSource,
    gate: Option<Gate>,
    faults: u64,
}

impl Model for MeetingSource {
    ghost use Rattle.meeting_places.specs.Meeting.{MeetingGiving};

    ghost Value = { MeetingGiving };

    ghost view = { λ s. record { left = s.inner.left; faults = s.faults } };
}

impl MeetingSource {
    // As `inner`, but the gate, if there is one, guards the first read.
    pub(crate) fn new(inner: MemSource, gate: Option<Gate>) -> Self
        ensures { result ≡ record { left = inner.left; faults = 0 } }
    {
        MeetingSource {
            inner,
            gate,
            faults: 0,
        }
    }

    // Tells whether this read goes on. No later one is guarded.
    fn lets_go_on(&mut self) -> bool
        ensures { self.new ≡ self.old }
    {
        match self.gate.take() {
            Some(gate) => gate.opens(),
            None => true,
        }
    }
}

impl Source for MeetingSource {
    ghost told = { λ s. record { left = Some s.left; faults = s.faults } };

    /// Gives the next bytes. The first read fails where its gate refuses it, and then nothing changes but the count.
    fn read(&mut self, buf: &mut [u8]) -> Result<usize, Failed>
        requires { 0 < length buf.old }
        ensures fits { IfOk result (λ n. n ≤ length buf.old) }
        ensures given { IfOk result (λ n. Gives (Some self.old.left) (Some self.new.left) (take n buf.new)) }
        ensures end { IfOk result (λ n. n ≡ 0 → self.old.left ≡ []) }
        ensures err { OnErr result (self.new.left ≡ self.old.left) }
        ensures cause { HasFailed self.old.faults self.new.faults result }
        ensures counts { self.new.faults ≡ counted_if (is_err result) self.old.faults }
    {
        if !self.lets_go_on() {
            self.faults = self.faults.saturating_add(1);
            return Err(Failed);
        }
        match self.inner.read(buf) {
            Ok(n) => Ok(n),
            Err(Failed) => {
                self.faults = self.faults.saturating_add(1);
                Err(Failed)
            }
        }
    }

    fn faults(&self) -> u64 {
        self.faults
    }
}
