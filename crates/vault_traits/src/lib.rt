//! What a store is run over, as traits: a shelf of blobs, sources and sinks of bytes, and places that have them by
//! name; and what a crash may leave of a shelf.
//!
//! Each trait has one ghost member, `told`: what the device tells of its content, where it tells that (then it is
//! called honest), and its counts. Every count of faults never falls, and rises at each failure until it stands at the
//! last value of a `u64`. A call answers `Failed` only where the count rose in it, or stands at that last value. A
//! device that tells its content before a call tells it after, also where the call is refused; and one that tells
//! nothing goes on telling nothing.
#![tactic(auto)]

mod names;
mod places;
mod shelf;
mod streams;
mod writing;

pub use names::{Failed, Refused};
pub use places::Places;
pub use shelf::Shelf;
pub use streams::{Sink, Source};
pub use writing::write_all;
