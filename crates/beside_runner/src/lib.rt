//! Lines in order with restores beside them, over anything that does what a line and the steps of a
//! restore mean (`World`). A restore begins with its line and then goes on by turns, between the
//! lines that follow and between the parts of one that goes by parts; it ends between lines. Where
//! threads are refused its turns are all that it has, so this is the same run.
#![tactic(auto)]

mod run;
mod serving;
mod world;

pub use run::run_beside;
pub use world::{Begun, LineTurn, RunningRestore, World};
