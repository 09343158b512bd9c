//! The threads of a backup's job.
#![tactic(auto)]

mod ending;
mod job;
mod room;

pub use job::Job;
pub use pipe_threads::StackSizes;
pub use room::JobRoom;
