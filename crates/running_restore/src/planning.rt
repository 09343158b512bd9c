// The plan of a restore.
ghost use Rattle.std.specs.Prelude.{◌≡◌, ◌≤◌, IfOk};
ghost use Rattle.std.specs.Option.{option_map};
ghost use Rattle.restore_stage.specs.Assembling.{load_ids as load_ids_of};
ghost use Rattle.restore_turns.specs.Started.{IsPlanOf};
ghost use Rattle.serial_restore.specs.Restoring.{whole_of as whole_is};

use belady_cache::{plan, requests};
use restore_assembler::Copier;
use std::alloc::Global;
use vault_types::{Fp, Id, Memory, Name, Set, Spot, Step, Version, Whole};

/// The sum that a version should have, by the number of its recipe.
pub(crate) fn whole_of(set: Set, version: Version, sum: Option<Fp>) -> Option<Whole>
    ensures { result ≡ option_map (whole_is set version) sum }
{
    match sum {
        Some(want) => Some(Whole {
            number: Name::recipe(set, version).number,
            want,
        }),
        None => None,
    }
}

// The ids of the containers that a plan loads, in order.
fn load_ids(alloc: Global, steps: &[Step]) -> Result<Vec<Id>, Memory>
    ensures { IfOk result (λ ids. ids.items ≡ load_ids_of steps.now) }
{
    let mut ids = Vec::new(alloc);
    for step in steps {
        if let Step::Load(id) = step {
            ids.push(*id)?;
        }
    }
    Ok(ids)
}

/// A copier of the bytes at these spots, by a plan with so many slots, and the ids of its loads.
pub(crate) fn plan_loads(
    alloc: Global,
    spots: Vec<Spot>,
    whole: Option<Whole>,
    slots: u32,
) -> Result<(Vec<Id>, Copier), Memory>
    requires some { 1 ≤ slots }
    requires few { slots ≤ 64 }
    ensures { IfOk result (λ r. IsPlanOf spots.items whole slots r.0.items r.1) }
{
    let reqs = requests(alloc, spots.as_slice())?;
    let planned = plan(alloc, reqs.as_slice(), slots)?;
    let ids = load_ids(alloc, planned.steps.as_slice())?;
    let copier = Copier::new(alloc, spots, planned, slots, whole)?;
    Ok((ids, copier))
}
