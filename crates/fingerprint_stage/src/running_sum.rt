ghost use Rattle.std.specs.Prelude.{◌≡◌, ℕ, List, [], ◌++◌};
ghost use Rattle.vault_types.specs.Names.{fp};
ghost use Rattle.fingerprint_stage.specs.Sums.{HasSummed};

use sha1::Sha1;
use vault_types::Fp;

/// The SHA-1 of a stream, as its pieces pass.
#[derive(Drop)]
pub struct RunningSum {
    hasher: Sha1,
}

impl RunningSum {
    /// The sum of no bytes.
    pub fn new() -> Self
        ensures { HasSummed result [] }
    {
        RunningSum {
            hasher: Sha1::new(),
        }
    }

    /// Takes the next piece of the stream.
    pub fn add(&mut self, piece: &[u8])
        ensures { (x : List ℕ) → HasSummed self.old x → HasSummed self.new (x ++ piece.now) }
    {
        self.hasher.update(piece);
    }

    /// The SHA-1 of the bytes that were added.
    pub fn finish(self) -> Fp
        ensures { (x : List ℕ) → HasSummed self x → result ≡ fp x }
    {
        Fp(self.hasher.finalize())
    }
}
