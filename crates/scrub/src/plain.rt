//! One container after the other.
ghost use Rattle.scrub.specs.Scrubbing.{Scrubs};

use crate::check::Check;
use crate::reading::read_next;
use keeper_core::Keeper;
use payload_health::Findings;
use std::alloc::Global;
use vault_traits::Shelf;
use vault_types::Fault;

/// Reads the payload of each container that a version names, ids ascending, by one get of it, and checks it against its
/// table. Damage of a payload is no refusal: it is what is found. `StoreFault`, where the shelf failed; `Damaged` of a table,
/// where it is no longer there or spelled; `Memory`. In each case the store is as before.
pub fn scrub_plain<S: Shelf, C: Check>(
    alloc: Global,
    keeper: &mut Keeper<S>,
    check: &C,
) -> Result<Findings, Fault>
    ensures { Scrubs keeper.old keeper.new result }
{
    let mut findings = Findings::new(alloc);
    let mut passed = 0;
    while let Some(read) = read_next(alloc, keeper, passed)? {
        passed = read.id();
        findings.add(passed, read.health(check))?;
    }
    Ok(findings)
}
