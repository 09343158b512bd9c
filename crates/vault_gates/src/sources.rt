// A source in memory with a gate.
ghost use Rattle.std.specs.Prelude.{◌≡◌, ◌<◌, ◌≤◌, ◌++◌, min, Some, [], length, map, take, All, IfOk, OnErr, IsErr, is_err};
ghost use Rattle.std.specs.List.{concat};
ghost use Rattle.vault_traits.specs.Counts.{counted, HasFailed};
ghost use Rattle.vault_traits.specs.Told.{Gives};
ghost use Rattle.vault_ports.specs.Failing.{counted_if};
ghost use Rattle.vault_gates.specs.Streams.{first_piece, once_given};

use crate::gate::Gate;
use crate::guard::Guard;
use crate::pieces::Pieces;
use std::marker::Model;
use vault_traits::{Failed, Source};

/// Gives pieces of bytes, one at a read. A gate guards one of the reads, and no other fails.
#[derive(Drop)]
pub struct GateSource {
    pieces: Pieces,
    guard: Guard,
    faults: u64,
}

impl Model for GateSource {
    ghost use Rattle.vault_gates.specs.Streams.{GatedGiving};

    ghost Value = { GatedGiving };

    ghost view = { λ s.
        record { pieces = s.pieces; nth = s.guard.nth; calls = s.guard.calls; faults = s.faults } };
}

impl GateSource {
    /// A source of these pieces, of which none is empty. The gate guards the read of this number, counted from 1. It takes no
    /// memory.
    pub fn new(pieces: Vec<Vec<u8>>, nth: u64, gate: Gate) -> Self
        requires { All (λ p. 0 < length p.items) pieces.items }
        ensures { result
            ≡ record { pieces = map (λ p. p.items) pieces.items; nth = nth; calls = 0; faults = 0 } }
    {
        GateSource {
            pieces: Pieces::new(pieces),
            guard: Guard::new(gate, nth),
            faults: 0,
        }
    }

    // Gives the next piece, or as much of it as fits.
    fn give(&mut self, buf: &mut [u8]) -> usize
        requires { 0 < length buf.old }
        ensures given { concat self.old.pieces ≡ take result buf.new ++ concat self.new.pieces }
        ensures end { result ≡ 0 → self.old.pieces ≡ [] }
        ensures many { result ≡ min (length (first_piece self.old.pieces)) (length buf.old) }
        ensures rest { self.new ≡ record self.old { pieces = once_given result self.old.pieces } }
    {
        let piece = self.pieces.next();
        let n = piece.len().min(buf.len());
        buf[..n].copy_from_slice(&piece[..n]);
        self.pieces.advance(n);
        n
    }
}

impl Source for GateSource {
    ghost told = { λ s. record { left = Some (concat s.pieces); faults = s.faults } };

    /// Gives the next piece, or as much of it as fits: then the rest of it is the next piece. The guarded read fails where its
    /// gate refuses it, and then nothing changes but the counts.
    fn read(&mut self, buf: &mut [u8]) -> Result<usize, Failed>
        requires { 0 < length buf.old }
        ensures fits { IfOk result (λ n. n ≤ length buf.old) }
        ensures given { IfOk result
            (λ n. Gives (Some (concat self.old.pieces)) (Some (concat self.new.pieces)) (take n buf.new)) }
        ensures end { IfOk result (λ n. n ≡ 0 → self.old.pieces ≡ []) }
        ensures err { OnErr result (self.new.pieces ≡ self.old.pieces) }
        ensures buffer { OnErr result (buf.new ≡ buf.old) }
        ensures cause { HasFailed self.old.faults self.new.faults result }
        ensures fails { IsErr result → counted self.old.calls ≡ self.old.nth }
        ensures many { IfOk result (λ n. n ≡ min (length (first_piece self.old.pieces)) (length buf.old)) }
        ensures rest { IfOk result (λ n. self.new.pieces ≡ once_given n self.old.pieces) }
        ensures counts { self.new
            ≡ record self.old {
              pieces = self.new.pieces;
              calls = counted self.old.calls;
              faults = counted_if (is_err result) self.old.faults;
            } }
    {
        if !self.guard.lets_go_on() {
            self.faults = self.faults.saturating_add(1);
            return Err(Failed);
        }
        Ok(self.give(buf))
    }

    fn faults(&self) -> u64 {
        self.faults
    }
}
