//! Devices in memory by which tests show that two threads run at once: of a pair of gates each lets its call go on only
//! once the other one's call has begun. The two flags of a pair are plain words that both threads read and write, and no
//! clause says what they hold: of each device it is proved what it gives, takes and holds, and that no other call than
//! the guarded one fails by the gate. That the guarded calls of two threads go on is tested.
#![tactic(auto)]

mod gate;
mod guard;
mod pieces;
mod places;
mod shelf;
mod sinks;
mod sources;

pub use gate::{Gate, LOOKS, gates, gates_that_look};
pub use places::GatePlaces;
pub use shelf::GateShelf;
pub use sinks::GateSink;
pub use sources::GateSource;
