//! The parts of which blobs are made, and why a call over a shelf is refused.
#![tactic(auto)]

mod lists;
mod reading;
mod refusals;
mod rules;
mod sums;
mod unread;
mod writing;

pub use lists::{FieldReader, ids_at, list_at};
pub use reading::{fp_at, tag_at, u32_at, u64_at};
pub use refusals::fault_of;
pub use rules::has_rules;
pub use sums::{body_of, push_sum, sum_of};
pub use unread::Unread;
pub use writing::{push_sparse, push_u32, push_u64};
