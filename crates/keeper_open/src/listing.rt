// The names that a shelf lists.
ghost use Rattle.std.specs.Prelude.{◌≡◌, ◌≤◌, ◌<◌, ◌+◌, ℕ, IfSome, IfNone};
ghost use Rattle.std.specs.FinMap as map;
ghost use Rattle.vault_types.specs.Blobs.{IsVersion};
ghost use Rattle.vault_types.specs.Shelf.{Blobs, recipe_name, floor_name};
ghost use Rattle.vault_traits.specs.Shelf.{IsListing};
ghost use Rattle.keeper_open.specs.Reading.{IsLastListed, IsLastDue};

use vault_types::{Kind, Name, Set, Version};

/// Whether a name is listed.
pub fn is_listed(names: &[Name], name: Name) -> bool
    ensures { (m : Blobs) → IsListing m names.now → result ≡ map.contains_key m name }
{
    names.binary_search(&name).is_ok()
}

/// The greatest version of a set, at most 4,294,967,294, whose recipe is listed.
pub fn last_listed(names: &[Name], set: Set) -> Option<Version>
    ensures last { (m : Blobs) → IsListing m names.now → IsLastListed m set result }
    ensures high { IfSome result (λ v. v ≤ 4294967294) }
{
    match names.binary_search(&Name::recipe(set, 4_294_967_294)) {
        Ok(_) => Some(4_294_967_294),
        Err(0) => None,
        Err(at) => version_in(set, names[at - 1]),
    }
}

/// The version whose recipe of the set has this name.
fn version_in(set: Set, name: Name) -> Option<Version>
    ensures found { IfSome result (λ v. (name ≡ recipe_name set v) × (v ≤ 4294967294)) }
    ensures none { IfNone result ((v : ℕ) → v ≤ 4294967294 → name ≡ recipe_name set v → ⊥) }
{
    if name.kind != Kind::Recipe || name.number / 4_294_967_296 != u64::from(set) {
        return None;
    }
    let version = (name.number % 4_294_967_296) as u32;
    if version > 4_294_967_294 {
        return None;
    }
    Some(version)
}

/// The last version of a set that is to be read, where its floor is this: the greatest that is listed from the floor on;
/// else the floor itself where it is above 1, and none, which is 0, where it is 1.
pub fn last_due(names: &[Name], set: Set, floor: Version) -> Version
    requires { IsVersion floor }
    ensures last { (m : Blobs) → IsListing m names.now → IsLastDue m set floor result }
    ensures low { 1 < floor → floor ≤ result }
    ensures high { result ≤ 4294967294 }
    ensures next { floor ≤ result + 1 }
{
    match last_listed(names, set) {
        Some(version) if version >= floor => version,
        _ if floor > 1 => floor,
        _ => 0,
    }
}
