//! A keeper as tests and measurements drive it: jobs of given chunks, a keeper between jobs, one with pins, and what is
//! seen of its shelf.
#![tactic(auto)]

ghost use Rattle.std.specs.Prelude.{◌≡◌};
ghost use Rattle.vault_types.specs.Names.{fp, IsFp};
ghost use Rattle.blob_parts.specs.Recipes.{FitsRow};

pub mod jobs;
pub mod pinning;
pub mod store;
pub mod views;

use sha1::Sha1;
use vault_types::{Fp, Id, Row};

/// The SHA-1 of some bytes.
pub fn sum(bytes: &[u8]) -> Fp
    ensures is { result ≡ fp bytes.now }
    ensures rules { IsFp result }
{
    Fp(Sha1::digest(bytes))
}

/// A row that says of the chunk of these bytes that it stands in a container with a length.
pub fn row(id: Id, chunk: &[u8], len: u32) -> Row
    ensures is { result ≡ record { fp = fp chunk.now; id = id; len = len } }
    ensures fits { FitsRow result }
{
    Row {
        fp: sum(chunk),
        id,
        len,
    }
}
