//! The bytes that `fill` backs up: 64 versions of a stream of 8 MiB, made from a seed as they are read. Each version
//! changes a sixteenth of the blocks of the one before, and moves all of them by a byte. And the places of `fill`, whose
//! sources are these versions.
#![tactic(auto)]

mod blocks;
mod generated;
mod listing;
mod numbers;
mod place;
mod places;
mod sink;
mod sums;

pub use generated::Generated;
pub use places::FillPlaces;
pub use sink::FillSink;
