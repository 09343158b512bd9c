// Pieces of bytes that are given one after another.
ghost use Rattle.std.specs.Prelude.{◌≡◌, ◌<◌, ◌≤◌, [], length, map, All};
ghost use Rattle.vault_gates.specs.Streams.{first_piece, once_given};

use std::marker::Model;

// The pieces from `at` on, the first of them without the bytes that were given of it.
#[derive(Drop)]
pub struct Pieces {
    list: Vec<Vec<u8>>,
    at: usize,
    given: usize,
}

impl Model for Pieces {
    ghost use Rattle.std.specs.Prelude.{◌≤◌, ℕ, List, drop, length};
    ghost use Rattle.vault_gates.specs.Pieces.{pieces_left, AreStarted};

    ghost Value = { List (List ℕ) };

    ghost view = { λ p. pieces_left p.given (drop p.at p.list.items) };

    ghost invariant = { λ p. (p.at ≤ length p.list.items) × AreStarted p.given (drop p.at p.list.items) };
}

impl Pieces {
    pub fn new(list: Vec<Vec<u8>>) -> Self
        requires { All (λ p. 0 < length p.items) list.items }
        ensures { result ≡ map (λ p. p.items) list.items }
    {
        Pieces {
            list,
            at: 0,
            given: 0,
        }
    }

    // The next piece, and no bytes where none is left.
    pub fn next(&self) -> &[u8]
        ensures next { result.now ≡ first_piece self.now }
        ensures end { length result.now ≡ 0 → self.now ≡ [] }
    {
        if self.at < self.list.len() {
            let piece = self.list[self.at].as_slice();
            &piece[self.given..]
        } else {
            &[]
        }
    }

    // Goes on behind so many bytes of the next piece.
    pub fn advance(&mut self, n: usize)
        requires { n ≤ length (first_piece self.old) }
        ensures { self.new ≡ once_given n self.old }
    {
        if self.at < self.list.len() {
            self.given += n;
            if self.given == self.list[self.at].len() {
                self.at += 1;
                self.given = 0;
            }
        }
    }
}
