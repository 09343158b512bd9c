// How long the payload of each container has to be.
ghost use Rattle.std.specs.Prelude.{◌≡◌, unwrap_or, nat_eq, IfOk};
ghost use Rattle.std.specs.HashMap.{get};
ghost use Rattle.restore_assembler.specs.Ends.{HasEnds, end_of};

use std::alloc::Global;
use std::collections::HashMap;
use vault_types::{Id, Memory, Spot};

// Where the last spot of each container ends.
pub fn ends_of(alloc: Global, spots: &[Spot]) -> Result<HashMap<Id, u64>, Memory>
    ensures { IfOk result (λ ends. HasEnds ends spots.now) }
{
    let mut ends = HashMap::new(alloc);
    for spot in spots {
        let end = spot.at as u64 + spot.len as u64;
        let last = end_at(&ends, spot.id);
        ends.insert(spot.id, last.max(end))?;
    }
    Ok(ends)
}

// Where the last spot of that container ends, or 0 where it has none.
pub fn end_at(ends: &HashMap<Id, u64>, id: Id) -> u64
    ensures { result ≡ unwrap_or (get nat_eq ends.now id) 0 }
{
    ends.get(&id).copied().unwrap_or(0)
}
