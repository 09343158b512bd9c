//! A chunker of either kind.
#![tactic(auto)]

ghost use Rattle.std.specs.Prelude.{◌≡◌, ℕ, List, [], ◌++◌, map, OnOk};
ghost use Rattle.vault_types.specs.Cuts.{cuts, settled, unsettled, only_bytes, HasCut};
ghost use Rattle.vault_types.specs.JobRanges.{IsCuttable};

use chunk_ae::Ae;
use chunk_fixed::Fixed;
use std::alloc::Global;
use std::marker::Model;
use vault_types::{Cutting, Memory};

/// A chunker as a cutting wants it. Contracts see it as the cutting and the bytes that it was fed and has not given out.
#[derive(Drop)]
pub struct Cutter {
    way: Way,
}

// The two ways to cut.
#[derive(Drop)]
enum Way {
    Fixed(Fixed),
    Ae(Ae),
}

impl Model for Cutter {
    ghost use Rattle.vault_types.specs.Cuts.{Chunker};

    ghost Value = { Chunker };

    ghost use Rattle.stream_cutter.specs.Cutters.{chunker_in};

    ghost view = { λ c. chunker_in c.way };
}

impl Cutter {
    /// A chunker that was fed nothing.
    pub fn new(cutting: Cutting) -> Cutter
        requires { IsCuttable cutting }
        ensures cutting { result.cutting ≡ cutting }
        ensures cut { HasCut result [] [] }
    {
        match cutting {
            Cutting::Fixed { size } => Cutter {
                way: Way::Fixed(Fixed::new(size)),
            },
            Cutting::Ae { window, max } => Cutter {
                way: Way::Ae(Ae::new(window, max)),
            },
        }
    }

    /// Takes the next piece of the stream, and appends to `out` every chunk whose length is now fixed. After `Memory` the
    /// chunker is only dropped.
    pub fn feed(
        &mut self,
        alloc: Global,
        piece: &[u8],
        out: &mut Vec<Vec<u8>>,
    ) -> Result<(), Memory>
        ensures cutting { OnOk result (self.new.cutting ≡ self.old.cutting) }
        ensures chunks { OnOk result
            (map (λ c. c.items) out.new.items
            ≡ map (λ c. c.items) out.old.items ++ settled (self.old.held ++ piece.now) self.old.cutting) }
        ensures held { OnOk result (self.new.held ≡ unsettled (self.old.held ++ piece.now) self.old.cutting) }
    {
        match &mut self.way {
            Way::Fixed(chunker) => chunker.feed(alloc, piece, out),
            Way::Ae(chunker) => chunker.feed(alloc, piece, out),
        }
    }

    /// Appends to `out` the bytes that are left, if there are any, as the last chunk of the stream.
    pub fn finish(self, out: &mut Vec<Vec<u8>>) -> Result<(), Memory>
        ensures chunks { OnOk result
            (map (λ c. c.items) out.new.items ≡ map (λ c. c.items) out.old.items ++ only_bytes self.held) }
        ensures stream { (gone : List (List ℕ)) (x : List ℕ) → HasCut self gone x
            → gone ++ only_bytes self.held ≡ cuts x self.cutting }
    {
        match self.way {
            Way::Fixed(chunker) => chunker.finish(out),
            Way::Ae(chunker) => chunker.finish(out),
        }
    }
}
