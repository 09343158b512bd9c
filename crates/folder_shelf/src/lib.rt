//! The devices of the host: a shelf over a folder, places over the current folder, and the standard streams. They keep
//! to the traits, count each error of the host, and tell nothing of content.
#![tactic(auto)]

mod digits;
mod folder;
pub mod names;
mod places;
mod shelf;
mod streams;

pub use places::FolderPlaces;
pub use shelf::FolderShelf;
pub use streams::{ErrSink, InSource, OutSink, StreamSink, StreamSource};
