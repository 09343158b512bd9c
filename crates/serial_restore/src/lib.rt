//! A restore on one thread. The version is pinned, its bytes are copied from the payloads of its containers to a sink, with
//! the fewest loads that the slots allow, and its pin is released.
#![tactic(auto)]

mod copying;
mod restoring;

pub use crate::restoring::restore_plain;
