//! Which chunks of a backup are written, and which are referred to where they are.
#![tactic(auto)]

mod decider;

pub use decider::Decider;
use fingerprint_stage::Chunk;
use vault_types::How;

/// A chunk of a backup, and how it is stored.
#[derive(Drop)]
pub struct Decided {
    pub chunk: Chunk,
    pub how: How,
}
