//! A sink that sums what it takes.
ghost use Rattle.std.specs.Prelude.{◌≡◌, ◌≤◌, ◌++◌, ℕ, [], length, map, take};
ghost use Rattle.vault_types.specs.Names.{fp};

use fingerprint_stage::RunningSum;
use std::alloc::Global;
use std::marker::Model;
use std::snapshot::Snapshot;
use vault_traits::{Failed, Sink};
use vault_types::Fp;

/// Takes all bytes, and keeps only their SHA-1. For contracts it has a snapshot of each byte, which takes no room.
#[derive(Drop)]
pub(crate) struct SumSink {
    sum: RunningSum,
    seen: Vec<Snapshot<u8>>,
    faults: u64,
}

impl Model for SumSink {
    ghost use Rattle.std.specs.Prelude.{map};
    ghost use Rattle.fingerprint_stage.specs.Sums.{HasSummed};
    ghost use Rattle.serial_migrate.specs.Summing.{Summing};

    ghost Value = { Summing };

    ghost view = { λ s. record { taken = map (λ b. b.value) s.seen.items; faults = s.faults } };

    ghost invariant = { λ s. HasSummed s.sum (map (λ b. b.value) s.seen.items) };
}

// Adds a snapshot of each byte, as far as there is room, and says of how many.
fn remember(seen: &mut Vec<Snapshot<u8>>, piece: &[u8]) -> usize
    ensures fits { result ≤ length piece.now }
    ensures added { map (λ b. b.value) seen.new.items
        ≡ map (λ b. b.value) seen.old.items ++ take result piece.now }
{
    let mut count = 0;
    while count < piece.len() {
        match seen.push(Snapshot::of(&piece[count])) {
            Ok(()) => count += 1,
            Err(_) => return count,
        }
    }
    count
}

impl SumSink {
    /// It has taken nothing.
    pub(crate) fn new(alloc: Global) -> Self
        ensures { result ≡ record { taken = []; faults = 0 } }
    {
        SumSink {
            sum: RunningSum::new(),
            seen: Vec::new(alloc),
            faults: 0,
        }
    }

    /// The SHA-1 of what it took.
    pub(crate) fn finish(self) -> Fp
        ensures { result ≡ fp self.taken }
    {
        let SumSink { sum, .. } = self;
        sum.finish()
    }
}

impl Sink for SumSink {
    ghost use Rattle.std.specs.Prelude.{Some};

    ghost told = { λ s. record { taken = Some s.taken; faults = s.faults } };

    fn write(&mut self, piece: &[u8]) -> Result<usize, Failed> {
        let count = remember(&mut self.seen, piece);
        if count == 0 {
            self.faults = self.faults.saturating_add(1);
            return Err(Failed);
        }
        self.sum.add(&piece[..count]);
        Ok(count)
    }

    fn faults(&self) -> u64 {
        self.faults
    }
}
