//! Containers that go from memory.
ghost use Rattle.std.specs.Prelude.{◌≡◌, ◌≤◌, ◌+◌, ◌*◌, List, length, vec_capacity, nat_eq};
ghost use Rattle.keeper_removals.specs.Removals.{Leaves};

use std::collections::BTreeMap;
use vault_types::{Id, Kind, Name, Table};

/// Lets the table at an id go from memory, and adds its two names to the strays, the table's behind. Takes no memory.
pub fn let_go(tables: &mut BTreeMap<Id, Table>, strays: &mut Vec<Name>, id: Id)
    requires { length strays.old.items + 2 * length tables.old.entries ≤ vec_capacity strays.old }
    ensures left { Leaves (λ k. nat_eq k id) tables.old.entries tables.new.entries strays.old.items
        strays.new.items }
    ensures room { length strays.new.items + 2 * length tables.new.entries
        ≤ length strays.old.items + 2 * length tables.old.entries }
    ensures capacity { vec_capacity strays.old ≤ vec_capacity strays.new }
{
    if tables.remove(&id).is_none() {
        return;
    }
    let _ = strays.push(Name {
        kind: Kind::Payload,
        number: id,
    });
    let _ = strays.push(Name {
        kind: Kind::Table,
        number: id,
    });
}
