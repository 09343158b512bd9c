//! The devices that a store is run over, in memory: those that never fail, and those that fail at numbered calls.
#![tactic(auto)]

mod crash_shelf;
mod entries;
mod fault_places;
mod fault_shelf;
mod files;
mod floors;
mod mem_places;
mod mem_shelf;
mod numbered;
mod replaying;
mod sinks;
mod sources;

pub use crash_shelf::CrashShelf;
pub use fault_places::FaultPlaces;
pub use fault_shelf::FaultShelf;
pub use mem_places::MemPlaces;
pub use mem_shelf::MemShelf;
pub use sinks::{FaultSink, MemSink};
pub use sources::{FaultSource, MemSource};
pub use vault_traits::{Failed, Places, Refused, Shelf, Sink, Source};
