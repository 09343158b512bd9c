//! Places in memory of which a read and a write meet: by a pair of gates (`vault_gates`) the first read of the first reader
//! that is opened goes on once the first writer has come to the write of a given number, and that write once the read has
//! begun. By them tests show that what is read and what is written go on at once. It is proved what a reader gives and what
//! a writer takes; that the two calls go on is tested.
#![tactic(auto)]

mod places;
mod readers;
mod writers;

pub use places::MeetingPlaces;
pub use readers::MeetingSource;
pub use writers::MeetingSink;
