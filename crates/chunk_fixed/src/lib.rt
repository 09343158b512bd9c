//! Fixed cutting: a stream is cut into chunks of one size, and the last may be shorter.
#![tactic(auto)]

ghost use Rattle.std.specs.Prelude.{◌≡◌, ℕ, ◌≤◌, List, [], ◌++◌, map, OnOk, IfOk};
ghost use Rattle.std.specs.List.{concat};
ghost use Rattle.vault_types.specs.declared.Cutting.TheVariants as cutting;
ghost use Rattle.vault_types.specs.Cuts.{cuts, settled, unsettled, only_bytes, HasCut};

mod step;

use crate::step::Feeding;
use std::alloc::Global;
use std::marker::Model;
use vault_types::Memory;

/// A chunker by size. Contracts see it as the cutting and the bytes that it was fed and has not given out.
#[derive(Drop)]
pub struct Fixed {
    size: usize,
    held: Option<Vec<u8>>,
}

impl Model for Fixed {
    ghost use Rattle.vault_types.specs.Cuts.{Chunker};
    ghost use Rattle.vault_types.specs.declared.Cutting.TheVariants as cutting;

    ghost Value = { Chunker };

    ghost use Rattle.vault_types.specs.Feeds.{held_bytes};
    ghost use Rattle.chunk_fixed.specs.Held.{IsHeld};

    ghost view = { λ f. record { cutting = cutting.Fixed f.size; held = held_bytes f.held } };

    ghost invariant = { λ f. IsHeld f.size (held_bytes f.held) };
}

impl Fixed {
    ghost use Rattle.chunk_fixed.specs.Held.{IsFilled};

    /// A chunker of chunks of `size` bytes, 1 to 65,536, that was fed nothing.
    pub fn new(size: u32) -> Self
        requires some { 1 ≤ size }
        requires most { size ≤ 65536 }
        ensures cutting { result.cutting ≡ cutting.Fixed size }
        ensures held { result.held ≡ [] }
        ensures cut { HasCut result [] [] }
    {
        Fixed {
            size: size as usize,
            held: None,
        }
    }

    /// Takes the next piece of the stream, and appends to `out` every chunk that is now whole. Each byte is copied
    /// once, into its chunk. After `Memory` the chunker is only dropped.
    pub fn feed(
        &mut self,
        alloc: Global,
        piece: &[u8],
        out: &mut Vec<Vec<u8>>,
    ) -> Result<(), Memory>
        ensures cutting { OnOk result (self.new.cutting ≡ self.old.cutting) }
        ensures chunks { OnOk result
            (map (λ c. c.items) out.new.items
            ≡ map (λ c. c.items) out.old.items ++ settled (self.old.held ++ piece.now) self.old.cutting) }
        ensures held { OnOk result (self.new.held ≡ unsettled (self.old.held ++ piece.now) self.old.cutting) }
        ensures stream { OnOk result ((gone : List (List ℕ)) (x : List ℕ) → HasCut self.old gone x
            → HasCut self.new (gone ++ settled (self.old.held ++ piece.now) self.old.cutting)
            (x ++ piece.now)) }
    {
        let mut rest = piece;
        loop {
            match self.fill(alloc, rest)? {
                Feeding::Whole { chunk, taken } => {
                    out.push(chunk)?;
                    rest = &rest[taken..];
                }
                Feeding::Held => return Ok(()),
            }
        }
    }

    /// Appends to `out` the bytes that are left, if there are any, as the last chunk of the stream.
    pub fn finish(self, out: &mut Vec<Vec<u8>>) -> Result<(), Memory>
        ensures chunks { OnOk result
            (map (λ c. c.items) out.new.items ≡ map (λ c. c.items) out.old.items ++ only_bytes self.held) }
        ensures stream { (gone : List (List ℕ)) (x : List ℕ) → HasCut self gone x
            → gone ++ only_bytes self.held ≡ cuts x self.cutting }
    {
        let Fixed { size: _, held } = self;
        if let Some(chunk) = held {
            if !chunk.is_empty() {
                out.push(chunk)?;
            }
        }
        Ok(())
    }

    // Takes bytes from the front of a piece, until the chunk in hand is whole or the piece is used up.
    fn fill(&mut self, alloc: Global, piece: &[u8]) -> Result<Feeding, Memory>
        ensures { IfOk result (IsFilled self.old self.new piece.now) }
    {
        if piece.is_empty() {
            let _ = &self.held;
            return Ok(Feeding::Held);
        }
        let mut chunk = match self.held.take() {
            Some(chunk) => chunk,
            None => Vec::with_capacity(alloc, self.size)?,
        };
        let taken = (self.size - chunk.len()).min(piece.len());
        chunk.extend_from_slice(&piece[..taken])?;
        if chunk.len() == self.size {
            return Ok(Feeding::Whole { chunk, taken });
        }
        self.held = Some(chunk);
        Ok(Feeding::Held)
    }
}

/// The pieces that a stream comes in do not matter: cutting x, and then what was left of x together with y, comes to
/// cutting x and y together. The chunks of a stream are its bytes.
pub fn pieces_do_not_matter()
    ensures chunks { (size : ℕ) (x y : List ℕ) → 1 ≤ size
        → settled (x ++ y) (cutting.Fixed size)
        ≡ settled x (cutting.Fixed size)
        ++ settled (unsettled x (cutting.Fixed size) ++ y) (cutting.Fixed size) }
    ensures left { (size : ℕ) (x y : List ℕ) → 1 ≤ size
        → unsettled (x ++ y) (cutting.Fixed size)
        ≡ unsettled (unsettled x (cutting.Fixed size) ++ y) (cutting.Fixed size) }
    ensures bytes { (size : ℕ) (x : List ℕ) → concat (cuts x (cutting.Fixed size)) ≡ x }
{}
