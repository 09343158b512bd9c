//! The room that deletions and releases will need.
ghost use Rattle.std.specs.Prelude.{◌≡◌, ◌≤◌, ◌+◌, ◌*◌, OnOk, length, vec_capacity};
ghost use Rattle.keeper_catalog.specs.Catalog.{memo_of, versions_in};

use keeper_catalog::{Catalog, SetInfo};
use vault_types::Memory;

// How many versions are kept.
fn version_count(sets: &[SetInfo]) -> u64
    requires { length sets.now ≤ 256 }
    ensures { result ≡ versions_in sets.now }
{
    let mut count = 0;
    for info in sets {
        count += (u64::from(info.latest) + 1).saturating_sub(u64::from(info.floor));
    }
    count
}

/// Makes room for so many names beyond those that a deletion of all versions and containers would bring. The only error
/// is `Memory`; nothing else changes, also then.
pub fn make_room(catalog: &mut Catalog, more: usize) -> Result<(), Memory>
    requires { length catalog.old.sets.items ≤ 256 }
    ensures made { OnOk result
        (length catalog.new.strays.items
        + (2 * length catalog.new.tables.entries + versions_in catalog.new.sets.items) + more
        ≤ vec_capacity catalog.new.strays) }
    ensures same { memo_of catalog.new
        ≡ record (memo_of catalog.old) { room = vec_capacity catalog.new.strays } }
    ensures room { vec_capacity catalog.old.strays ≤ vec_capacity catalog.new.strays }
{
    let versions = usize::try_from(version_count(&catalog.sets)).map_err(|_| Memory)?;
    let tables = catalog.tables.len();
    let names = (2 * tables)
        .checked_add(versions)
        .ok_or(Memory)?
        .checked_add(more)
        .ok_or(Memory)?;
    catalog.strays.reserve(names)?;
    Ok(())
}
