//! Scrubbing: each container that a version names has its payload read once and checked against its table, down to each
//! chunk. Damage doesn't stop it, and what is found is the same with any number of threads.
#![tactic(auto)]

mod beside;
mod check;
mod checking;
mod plain;
mod reading;

pub use crate::beside::{scrub, scrub_on};
pub use crate::check::{Check, Plain};
pub use crate::plain::scrub_plain;
