// Sources in memory.
ghost use Rattle.std.specs.Prelude.{◌≡◌, ◌<◌, ◌≤◌, ◌↔◌, ◌++◌, min, Some, [], Ok, length, take, IfOk, OnErr, IsErr, IfSome, is_err, Contains};
ghost use Rattle.vault_traits.specs.Counts.{counted, HasFailed};
ghost use Rattle.vault_traits.specs.Told.{Gives};
ghost use Rattle.vault_ports.specs.Failing.{counted_if};

use crate::numbered::Numbered;
use std::marker::Model;
use vault_traits::{Failed, Source};

/// Gives the bytes of a vector, at most so many at a read. It never fails.
#[derive(Drop)]
pub struct MemSource {
    bytes: Vec<u8>,
    at: usize,
    piece: usize,
}

impl Model for MemSource {
    ghost use Rattle.std.specs.Prelude.{drop, length, ◌≤◌};
    ghost use Rattle.vault_ports.specs.Streams.{Giving};

    ghost Value = { Giving };

    ghost view = { λ s. record { left = drop s.at s.bytes.items; piece = s.piece } };

    ghost invariant = { λ s. (1 ≤ s.piece) × (s.at ≤ length s.bytes.items) };
}

impl MemSource {
    /// A source of these bytes. A read gives at most `piece` of them, which is at least 1.
    pub fn new(bytes: Vec<u8>, piece: usize) -> Self
        requires { 0 < piece }
        ensures { result ≡ record { left = bytes.items; piece = piece } }
    {
        MemSource {
            bytes,
            at: 0,
            piece,
        }
    }

    /// What is left.
    pub fn left(&self) -> &[u8]
        ensures { result.now ≡ self.now.left }
    {
        &self.bytes[self.at..]
    }
}

impl MemSource {
    // The same bytes, at most so many at a read.
    pub(crate) fn with_piece(self, piece: usize) -> Self
        requires { 0 < piece }
        ensures { result ≡ record { left = self.left; piece = piece } }
    {
        let MemSource { bytes, at, .. } = self;
        MemSource { bytes, at, piece }
    }
}

impl Source for MemSource {
    ghost told = { λ s. record { left = Some s.left; faults = 0 } };

    /// Reads as much as is left, as `piece` allows and as fits.
    fn read(&mut self, buf: &mut [u8]) -> Result<usize, Failed>
        requires { 0 < length buf.old }
        ensures fits { IfOk result (λ n. n ≤ length buf.old) }
        ensures given { IfOk result (λ n. Gives (Some self.old.left) (Some self.new.left) (take n buf.new)) }
        ensures end { IfOk result (λ n. n ≡ 0 → self.old.left ≡ []) }
        ensures err { OnErr result (self.new.left ≡ self.old.left) }
        ensures cause { HasFailed 0 0 result }
        ensures many { result ≡ Ok (min (min (length self.old.left) self.old.piece) (length buf.old)) }
        ensures piece { self.new.piece ≡ self.old.piece }
    {
        let rest = self.bytes.as_slice();
        let n = (rest.len() - self.at).min(self.piece).min(buf.len());
        let from = self.at;
        buf[..n].copy_from_slice(&rest[from..from + n]);
        self.at += n;
        Ok(n)
    }

    fn faults(&self) -> u64 {
        0
    }
}

/// A source in memory whose reads of given numbers fail.
#[derive(Drop)]
pub struct FaultSource {
    inner: MemSource,
    numbered: Numbered,
    faults: u64,
}

impl Model for FaultSource {
    ghost use Rattle.vault_ports.specs.Streams.{FaultyGiving};

    ghost Value = { FaultyGiving };

    ghost view = { λ s.
        record {
          left = s.inner.left;
          piece = s.inner.piece;
          fail = s.numbered.fail.items;
          calls = s.numbered.calls;
          faults = s.faults;
        } };
}

impl FaultSource {
    /// As `inner`, but the reads of these numbers fail, counted from 1.
    pub fn new(inner: MemSource, fail: Vec<u64>) -> Self
        ensures { result
            ≡ record { left = inner.left; piece = inner.piece; fail = fail.items; calls = 0; faults = 0 } }
    {
        FaultSource {
            inner,
            numbered: Numbered::new(fail),
            faults: 0,
        }
    }

    /// What is left.
    pub fn left(&self) -> &[u8]
        ensures { result.now ≡ self.now.left }
    {
        self.inner.left()
    }
}

impl Source for FaultSource {
    ghost told = { λ s. record { left = Some s.left; faults = s.faults } };

    /// A read whose number is among those fails; another one reads as much as is left, as `piece` allows and as fits.
    fn read(&mut self, buf: &mut [u8]) -> Result<usize, Failed>
        requires { 0 < length buf.old }
        ensures fits { IfOk result (λ n. n ≤ length buf.old) }
        ensures given { IfOk result (λ n. Gives (Some self.old.left) (Some self.new.left) (take n buf.new)) }
        ensures end { IfOk result (λ n. n ≡ 0 → self.old.left ≡ []) }
        ensures err { OnErr result (self.new.left ≡ self.old.left) }
        ensures cause { HasFailed self.old.faults self.new.faults result }
        ensures fails { IsErr result ↔ Contains self.old.fail (counted self.old.calls) }
        ensures many { IfOk result
            (λ n. n ≡ min (min (length self.old.left) self.old.piece) (length buf.old)) }
        ensures piece { self.new.piece ≡ self.old.piece }
        ensures fail { self.new.fail ≡ self.old.fail }
        ensures calls { self.new.calls ≡ counted self.old.calls }
        ensures faults { self.new.faults ≡ counted_if (is_err result) self.old.faults }
    {
        if self.numbered.fails() {
            self.faults = self.faults.saturating_add(1);
            return Err(Failed);
        }
        self.inner.read(buf)
    }

    fn faults(&self) -> u64 {
        self.faults
    }
}
