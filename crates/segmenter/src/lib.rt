//! Cuts the chunks of a backup into segments, from their lengths.
#![tactic(auto)]

ghost use Rattle.std.specs.Prelude.{◌≡◌, ◌≤◌, ℕ, List, [], ◌∷◌, ◌++◌};
ghost use Rattle.segmenter.specs.Segments.{HasPushed, segments_of, with_next};

use std::marker::Model;

/// Whether a chunk begins a new segment.
#[derive(Clone, Copy, Debug, PartialEq, Eq)]
pub enum Cut {
    Same,
    NewBefore,
}

/// Cuts chunks into segments: each is the longest run of chunks that has at most `size` bytes, and at least one chunk.
#[derive(Drop)]
pub struct Segmenter {
    size: u32,
    used: Option<u32>,
}

impl Model for Segmenter {
    ghost use Rattle.segmenter.specs.Segments.{Segmenting};

    ghost Value = { Segmenting };

    ghost view = { λ s. record { size = s.size; used = s.used } };
}

impl Segmenter {
    /// A segmenter to which no chunk was pushed, for segments of at most `size` bytes.
    pub fn new(size: u32) -> Segmenter
        ensures { HasPushed result size [] }
    {
        Segmenter { size, used: None }
    }

    /// Whether the next chunk, of `len` bytes (1 to 65,536), begins a new segment. The first one does not.
    pub fn push(&mut self, len: u32) -> Cut
        requires low { 1 ≤ len }
        requires high { len ≤ 65536 }
        ensures pushed { (size : ℕ) (lens : List ℕ) → HasPushed self.old size lens
            → HasPushed self.new size (lens ++ len ∷ []) }
        ensures cut { (size : ℕ) (lens : List ℕ) → HasPushed self.old size lens
            → segments_of size (lens ++ len ∷ []) ≡ with_next result (segments_of size lens) len }
        ensures first { (size : ℕ) → HasPushed self.old size [] → result ≡ Cut.Same }
    {
        match self.used {
            Some(used) if len > self.size.saturating_sub(used) => {
                self.used = Some(len);
                Cut::NewBefore
            }
            Some(used) => {
                self.used = Some(used + len);
                Cut::Same
            }
            None => {
                self.used = Some(len);
                Cut::Same
            }
        }
    }
}
