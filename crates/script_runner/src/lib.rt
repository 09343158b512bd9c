//! A run of a script's lines on one thread, over any store that does what a line means (`LineStore`).
#![tactic(auto)]

mod run;
mod store;

pub use run::{Done, close_backup, delete_line, open_backup, restore_line, script_plain};
pub use store::LineStore;
