//! The keeper of a store: it owns the shelf, and each of its calls is one event of the store. A call says what becomes of
//! the versions, the containers, the pins, the strays and the open job, and what a crash at any moment of it leaves.
#![tactic(auto)]

mod containers;
mod copying;
mod deletion;
mod job;
mod keeper;
mod pinning;
mod replacing;
mod starting;
mod telling;

pub use copying::PinnedRecipe;
pub use keeper::{Begun, Keeper};
pub use pinning::Pinned;
