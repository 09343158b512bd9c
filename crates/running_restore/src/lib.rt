//! A restore that runs beside later lines, over a keeper. `PlannedRestore::new` pins its version
//! and takes all memory that it needs; `ready` makes its stage, which the caller gives to a thread;
//! `RunningRestore::run` takes that thread; `feed` loads the next payload of its plan and sends it to
//! the stage; `end` takes the stage back, releases the pin and gives the answer. What it answers is
//! said of the keeper from before its pin.
#![tactic(auto)]

mod loading;
mod planned;
mod planning;
mod ready;
mod running;

pub use crate::planned::PlannedRestore;
pub use crate::ready::ReadyRestore;
pub use crate::running::RunningRestore;
