//! A script's lines over a keeper with places, in order, with restores in threads beside later lines.
//! A restore goes on by turns between the lines that follow it, and ends between lines. Where threads
//! are refused its turns are all that it has, so this is the same run.
#![tactic(auto)]

mod run;
mod serving;

pub use crate::run::run_lines;
