//! The command `scrub` over the store on a shelf: it opens the store, checks every payload, and prints the lines of those that
//! are damaged and the report.
#![tactic(auto)]

mod ending;
mod printing;
mod running;

pub use crate::running::{run_scrub, run_scrub_plain};
