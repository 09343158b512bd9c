//! The job of a backup into a store, whoever cuts the stream and decides its chunks: the containers are put as they come,
//! and at the end the recipe.
#![tactic(auto)]

mod closing;
mod filling;
mod opening;
mod putting;
mod sparse;

pub use closing::{Rest, StreamEnd, close_job};
pub use filling::{finish_parts, take_part};
pub use opening::{Job, Opened, open_job};
pub use putting::{put_all, put_one};
pub use sparse::sparse_ids;
