//! What a run prints: the report of its answers, the line of a fault that ended it, and its exit status. None of it takes
//! memory.
#![tactic(auto)]

mod printing;
mod status;

pub use printing::{print_all, tell, write_all};
pub use status::status_after;
