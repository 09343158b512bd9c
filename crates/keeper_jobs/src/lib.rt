//! The parts of a keeper's calls that change the shelf and what is in memory of it together.
#![tactic(auto)]

mod committing;
mod indexing;
mod mending;
mod noting;
mod putting;
mod room;

pub use committing::commit_recipe;
pub use indexing::forget_tables;
pub use mending::mend_for;
pub use putting::put_sealed;
pub use room::make_room;
