//! Cutting by asymmetric extremum (Zhang and others, INFOCOM 2015): a chunk ends a window behind a value that no later
//! one in the window passes.
#![tactic(auto)]

ghost use Rattle.std.specs.Prelude.{◌≡◌, ℕ, ◌<◌, ◌≤◌, List, [], ◌++◌, map, length, slice_index_or, OnOk, IfOk};
ghost use Rattle.std.specs.List.{concat};
ghost use Rattle.vault_types.specs.declared.Cutting.TheVariants as cutting;
ghost use Rattle.vault_types.specs.Cuts.{cuts, settled, unsettled, only_bytes, HasCut};
ghost use Rattle.vault_types.specs.Feeds.{held_bytes};

mod scan;
mod step;

use crate::scan::{Scan, Scanned, scan_piece};
use crate::step::Feeding;
use std::alloc::Global;
use std::marker::Model;
use vault_types::Memory;

/// A chunker by extremum. Contracts see it as the cutting and the bytes that it was fed and has not given out.
#[derive(Drop)]
pub struct Ae {
    window: usize,
    max: usize,
    held: Option<Vec<u8>>,
    scan: Scan,
}

impl Model for Ae {
    ghost use Rattle.vault_types.specs.Cuts.{Chunker};
    ghost use Rattle.vault_types.specs.declared.Cutting.TheVariants as cutting;
    ghost use Rattle.std.specs.Prelude.{◌<◌, ◌≤◌};

    ghost Value = { Chunker };

    ghost use Rattle.vault_types.specs.Feeds.{held_bytes};
    ghost use Rattle.chunk_ae.specs.Scans.{IsScan};

    ghost view = { λ a. record { cutting = cutting.Ae a.window a.max; held = held_bytes a.held } };

    ghost invariant = { λ a. (1 ≤ a.window) × (a.window < a.max) × (a.max ≤ 65536)
        × IsScan a.window a.max (held_bytes a.held) a.scan };
}

impl Ae {
    ghost use Rattle.chunk_ae.specs.Held.{IsFilled};

    /// A chunker with this window (1 to 65,535) and greatest length (above the window, at most 65,536), both in bytes,
    /// that was fed nothing.
    pub fn new(window: u32, max: u32) -> Self
        requires some { 1 ≤ window }
        requires less { window < max }
        requires most { max ≤ 65536 }
        ensures cutting { result.cutting ≡ cutting.Ae window max }
        ensures held { result.held ≡ [] }
        ensures cut { HasCut result [] [] }
    {
        Ae {
            window: window as usize,
            max: max as usize,
            held: None,
            scan: Scan::new(window as usize),
        }
    }

    /// Takes the next piece of the stream, and appends to `out` every chunk whose length is now fixed. Each byte is
    /// looked at once, and copied once into its chunk. After `Memory` the chunker is only dropped.
    pub fn feed(
        &mut self,
        alloc: Global,
        piece: &[u8],
        out: &mut Vec<Vec<u8>>,
    ) -> Result<(), Memory>
        ensures cutting { OnOk result (self.new.cutting ≡ self.old.cutting) }
        ensures chunks { OnOk result
            (map (λ c. c.items) out.new.items
            ≡ map (λ c. c.items) out.old.items ++ settled (self.old.held ++ piece.now) self.old.cutting) }
        ensures held { OnOk result (self.new.held ≡ unsettled (self.old.held ++ piece.now) self.old.cutting) }
        ensures stream { OnOk result ((gone : List (List ℕ)) (x : List ℕ) → HasCut self.old gone x
            → HasCut self.new (gone ++ settled (self.old.held ++ piece.now) self.old.cutting)
            (x ++ piece.now)) }
    {
        let mut rest = piece;
        loop {
            match self.fill(alloc, rest)? {
                Feeding::Whole { chunk, taken } => {
                    out.push(chunk)?;
                    rest = &rest[taken..];
                }
                Feeding::Held => return Ok(()),
            }
        }
    }

    /// Appends to `out` the bytes that are left, if there are any, as the last chunk of the stream.
    pub fn finish(self, out: &mut Vec<Vec<u8>>) -> Result<(), Memory>
        ensures chunks { OnOk result
            (map (λ c. c.items) out.new.items ≡ map (λ c. c.items) out.old.items ++ only_bytes self.held) }
        ensures stream { (gone : List (List ℕ)) (x : List ℕ) → HasCut self gone x
            → gone ++ only_bytes self.held ≡ cuts x self.cutting }
    {
        let Ae {
            window: _,
            max: _,
            held,
            scan: _,
        } = self;
        if let Some(chunk) = held {
            if !chunk.is_empty() {
                out.push(chunk)?;
            }
        }
        Ok(())
    }

    // Takes bytes from the front of a piece, until the chunk in hand is whole or the piece is used up. A chunk that goes
    // on behind the piece has room for the greatest length at once.
    fn fill(&mut self, alloc: Global, piece: &[u8]) -> Result<Feeding, Memory>
        ensures { IfOk result (IsFilled self.old self.new piece.now) }
    {
        if piece.is_empty() {
            let _ = &self.held;
            return Ok(Feeding::Held);
        }
        let start = self.scan;
        let held = self.held.take();
        self.scan = Scan::new(self.window);
        match scan_piece(self.window, self.max, &start, piece) {
            Scanned::End(taken) => {
                let chunk = extended(alloc, held, taken, &piece[..taken])?;
                Ok(Feeding::Whole { chunk, taken })
            }
            Scanned::Open(next) => {
                self.held = Some(extended(alloc, held, self.max, piece)?);
                self.scan = next;
                Ok(Feeding::Held)
            }
        }
    }
}

/// The length of the first chunk of these bytes, or 0 where there are none.
pub fn first_cut(bytes: &[u8], window: u32, max: u32) -> usize
    requires some { 1 ≤ window }
    requires less { window < max }
    requires most { max ≤ 65536 }
    ensures { result ≡ length (slice_index_or (cuts bytes.now (cutting.Ae window max)) 0 []) }
{
    let start = Scan::new(window as usize);
    match scan_piece(window as usize, max as usize, &start, bytes) {
        Scanned::End(taken) => taken,
        Scanned::Open(_) => bytes.len(),
    }
}

/// The pieces that a stream comes in do not matter: cutting x, and then what was left of x together with y, comes to
/// cutting x and y together. The chunks of a stream are its bytes.
pub fn pieces_do_not_matter()
    ensures chunks { (w m : ℕ) (x y : List ℕ) → 1 ≤ w → w < m
        → settled (x ++ y) (cutting.Ae w m)
        ≡ settled x (cutting.Ae w m) ++ settled (unsettled x (cutting.Ae w m) ++ y) (cutting.Ae w m) }
    ensures left { (w m : ℕ) (x y : List ℕ) → 1 ≤ w → w < m
        → unsettled (x ++ y) (cutting.Ae w m)
        ≡ unsettled (unsettled x (cutting.Ae w m) ++ y) (cutting.Ae w m) }
    ensures bytes { (w m : ℕ) (x : List ℕ) → concat (cuts x (cutting.Ae w m)) ≡ x }
{}

// The chunk in hand with more bytes; a new one has this room.
fn extended(
    alloc: Global,
    held: Option<Vec<u8>>,
    room: usize,
    bytes: &[u8],
) -> Result<Vec<u8>, Memory>
    ensures { IfOk result (λ v. v.items ≡ held_bytes held ++ bytes.now) }
{
    let mut chunk = match held {
        Some(chunk) => chunk,
        None => Vec::with_capacity(alloc, room)?,
    };
    chunk.extend_from_slice(bytes)?;
    Ok(chunk)
}
