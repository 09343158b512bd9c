//! What takes containers and versions out of a store whose keeper has them in memory: the deletion of versions, and the
//! release of a pin. Neither takes memory.
#![tactic(auto)]

mod deleting;
mod leaving;
mod releasing;

pub use deleting::delete_versions;
pub use releasing::release_pin;
