//! A restore on its own, over a keeper or a store between two lines: the caller loads the payloads of
//! its plan, and a stage in a thread puts the bytes together and writes them to the sink. It answers
//! and leaves what the call on one thread does.
#![tactic(auto)]

mod restoring;
mod store;

pub use crate::restoring::restore_in_thread;
pub use crate::store::restore_piped;
