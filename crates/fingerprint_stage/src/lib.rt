//! Chunks and their names: a chunk is known by its SHA-1 (FIPS 180-4).
#![tactic(auto)]

ghost use Rattle.std.specs.Prelude.{◌≡◌, ◌≤◌, length};
ghost use Rattle.vault_types.specs.Names.{fp};

mod running_sum;

pub use running_sum::RunningSum;
use sha1::Sha1;
use std::marker::Model;
use vault_types::Fp;

/// A chunk of a stream: 1 to 65,536 bytes, with their fingerprint. Contracts see it as its bytes.
#[derive(Drop)]
pub struct Chunk {
    bytes: Vec<u8>,
    fp: Fp,
}

impl Model for Chunk {
    ghost use Rattle.std.specs.Prelude.{ℕ, List};

    ghost Value = { List ℕ };

    ghost use Rattle.fingerprint_stage.specs.Chunks.{IsNamed};

    ghost view = { λ c. c.bytes.items };

    ghost invariant = { λ c. IsNamed c.bytes.items c.fp };
}

impl Chunk {
    /// The bytes, 1 to 65,536.
    pub fn bytes(&self) -> &[u8]
        ensures bytes { result.now ≡ self.now }
        ensures some { 1 ≤ length self.now }
        ensures most { length self.now ≤ 65536 }
    {
        self.bytes.as_slice()
    }

    /// The SHA-1 of the bytes.
    pub fn fp(&self) -> Fp
        ensures { result ≡ fp self.now }
    {
        self.fp
    }

    /// How many bytes there are, 1 to 65,536.
    pub fn len(&self) -> u32
        ensures len { result ≡ length self.now }
        ensures some { 1 ≤ length self.now }
        ensures most { length self.now ≤ 65536 }
    {
        self.bytes.len() as u32
    }

    /// The bytes alone, without a copy.
    pub fn into_bytes(self) -> Vec<u8>
        ensures bytes { result.items ≡ self }
        ensures some { 1 ≤ length self }
        ensures most { length self ≤ 65536 }
    {
        let Chunk { bytes, fp: _ } = self;
        bytes
    }
}

/// The chunk of these 1 to 65,536 bytes.
pub fn name(bytes: Vec<u8>) -> Chunk
    requires some { 1 ≤ length bytes.items }
    requires most { length bytes.items ≤ 65536 }
    ensures { result ≡ bytes.items }
{
    let fp = sum(bytes.as_slice());
    Chunk { bytes, fp }
}

/// The SHA-1 of some bytes.
pub fn sum(bytes: &[u8]) -> Fp
    ensures { result ≡ fp bytes.now }
{
    Fp(Sha1::digest(bytes))
}
