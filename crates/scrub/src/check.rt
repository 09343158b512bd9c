//! The check of one payload.
ghost use Rattle.std.specs.Prelude.{◌≡◌, option_map};
ghost use Rattle.vault_types.specs.Tables.{IsTable};
ghost use Rattle.payload_health.specs.Health.{health_of};

use payload_health::{Health, verdict};
use vault_types::Table;

/// A check of payloads that threads may share.
pub trait Check: Sync {
    /// How the payload of a container is, by its table; none stands for a payload that the shelf does not have. It takes no
    /// memory.
    fn check(&self, table: &Table, payload: Option<&[u8]>) -> Health
        requires { IsTable table.now }
        ensures { result ≡ health_of table.now (option_map (λ bytes. bytes.now) payload.entry) };
}

/// The verdict, and nothing else.
#[derive(Clone, Copy, Debug)]
pub struct Plain;

impl Check for Plain {
    fn check(&self, table: &Table, payload: Option<&[u8]>) -> Health {
        verdict(table, payload)
    }
}
