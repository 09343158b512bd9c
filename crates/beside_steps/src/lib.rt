//! The steps of a run of lines with restores beside them, over a keeper with places, but for a backup. A deletion is done
//! as its line comes; a restore pins its version, its stage goes to a thread, and it goes on by turns. Each step is one of
//! such a run (`beside_laws`), and leaves what is known of the restores that run (`Holds`).
#![tactic(auto)]

mod beside;
mod lines;
mod restores;

pub use crate::beside::Beside;
pub use crate::lines::delete_line;
pub use crate::restores::{begin_restore, end_restore, feed_restore, take_reply};
