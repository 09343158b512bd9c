// The writers of `fill`.
ghost use Rattle.std.specs.Prelude.{◌≡◌, ◌<◌, ◌≤◌, Some, [], length, take, IfOk, OnErr};
ghost use Rattle.vault_traits.specs.Counts.{HasFailed};
ghost use Rattle.vault_traits.specs.Told.{Takes};

use std::alloc::Global;
use std::marker::Model;
use vault_ports::MemSink;
use vault_traits::{Failed, Sink};
use vault_types::Memory;

// The length of version 64.
const ROOM: usize = 8_388_671;

/// Keeps what it took. It has room for 8,388,671 bytes, and fails only once it has taken so many.
#[derive(Drop)]
pub struct FillSink {
    sink: MemSink,
}

impl Model for FillSink {
    ghost use Rattle.std.specs.Prelude.{◌≡◌, ◌<◌, ◌≤◌, length};
    ghost use Rattle.vault_ports.specs.Streams.{Taking};

    ghost Value = { Taking };

    ghost view = { λ s. s.sink };

    ghost invariant = { λ s. (s.sink.room ≡ 8388671) × (0 < s.sink.faults → 8388671 ≤ length s.sink.taken) };
}

impl FillSink {
    // A sink that has taken nothing.
    pub(crate) fn with(alloc: Global) -> Result<Self, Memory>
        ensures { IfOk result (λ s. s ≡ record { taken = []; room = 8388671; faults = 0 }) }
    {
        let sink = MemSink::with(alloc, ROOM)?;
        Ok(FillSink { sink })
    }

    // What it took.
    pub(crate) fn into_vec(self) -> Vec<u8>
        ensures is { result.items ≡ self.taken }
        ensures full { 0 < self.faults → 8388671 ≤ length self.taken }
    {
        let FillSink { sink } = self;
        sink.into_vec()
    }
}

impl Sink for FillSink {
    ghost told = { λ s. record { taken = Some s.taken; faults = s.faults } };

    /// Takes as much of the piece as there is room for, and fails where there is none.
    fn write(&mut self, piece: &[u8]) -> Result<usize, Failed>
        requires { 0 < length piece.now }
        ensures some { IfOk result (λ n. (0 < n) × (n ≤ length piece.now)) }
        ensures taken { IfOk result
            (λ n. Takes (Some self.old.taken) (Some self.new.taken) (take n piece.now)) }
        ensures err { OnErr result (self.new.taken ≡ self.old.taken) }
        ensures cause { HasFailed self.old.faults self.new.faults result }
    {
        self.sink.write(piece)
    }

    fn faults(&self) -> u64 {
        self.sink.faults()
    }
}
