//! Recipes and floors on a shelf: a recipe says of which chunks a version is, and a floor from which version on a set
//! keeps its versions.
#![tactic(auto)]

mod plain;

ghost use Rattle.std.specs.Prelude.{◌≡◌, ◌++◌, [], ◌↔◌, IsTrue, slice_index, List, ℕ, Option, Some, None, IfOk, OnOk, IfSome, IfNone, Ok, IsErrOf};
ghost use Rattle.vault_types.specs.declared.Fault.TheVariants as fault;
ghost use Rattle.vault_types.specs.declared.Recipe.{Recipe as Recipes};
ghost use Rattle.vault_types.specs.Blobs.{recipe_bytes, floor_bytes, IsRecipe, IsVersion, SpellsRecipe, SpellsFloor};
ghost use Rattle.vault_types.specs.Shelf.{recipe_name, floor_name, Has};
ghost use Rattle.vault_traits.specs.Counts.{HasFailed};
ghost use Rattle.vault_traits.specs.Shelf.{IsAsBefore, IsWritten, MayBeWritten, IsListing};
ghost use Rattle.vault_traits.specs.Causes.{HasCauses, HasStoreFault, IsUndamaged};
ghost use Rattle.vault_types.specs.BlobDamage.{IsNoRecipe, IsNoFloor, IsRecipeDamage, IsFloorDamage, IsFloorIn};

use crate::plain::{encode_plain, read_plain};
use blob_parts::{Unread, fault_of, sum_of};
use recipe_form2::{decode2, encode2};
use std::alloc::Global;
use vault_traits::{Failed, Refused, Shelf};
use vault_types::{Fault, Memory, Name, Recipe, Set, Version, Why};

/// The blob of a recipe: of format 2 where it has the sum of its version, and else of format 1.
pub fn encode_recipe(alloc: Global, recipe: &Recipe) -> Result<Vec<u8>, Memory>
    requires { IsRecipe recipe.now }
    ensures { IfOk result (λ bytes. bytes.items ≡ recipe_bytes recipe.now) }
{
    match recipe.whole {
        None => encode_plain(alloc, recipe),
        Some(_) => encode2(alloc, recipe),
    }
}

/// The recipe of a version of a set that the bytes spell, or none exactly where they spell none.
pub fn decode_recipe(
    alloc: Global,
    bytes: &[u8],
    set: Set,
    version: Version,
) -> Result<Option<Recipe>, Memory>
    ensures found { (r : _) → result ≡ Ok (Some r) → SpellsRecipe set version bytes.now r }
    ensures none { result ≡ Ok None → IsNoRecipe set version bytes.now }
{
    if is_second(bytes) {
        return decode2(alloc, bytes, set, version);
    }
    match read_plain(alloc, bytes, set, version) {
        Ok(recipe) => Ok(Some(recipe)),
        Err(Unread::Spelling) => Ok(None),
        Err(Unread::Memory) => Err(Memory),
    }
}

// Whether the bytes begin as a recipe of format 2 does, or are no recipe.
fn is_second(bytes: &[u8]) -> bool
    ensures { IsTrue result ↔ slice_index bytes.now 3 ≡ 50 }
{
    matches!(bytes, [_, _, _, b'2', ..])
}

/// The blob of a floor, which is from 1 to 4,294,967,294. Takes no memory.
pub fn encode_floor(set: Set, floor: Version) -> [u8; 28]
    requires { IsVersion floor }
    ensures { result ≡ floor_bytes set floor }
{
    let [a, b, c, d] = floor.to_be_bytes();
    let body = [b'D', b'F', b'L', b'1', a, b, c, d];
    let sum = sum_of(&body, set);
    let mut blob = [0; 28];
    blob[..8].copy_from_slice(&body);
    blob[8..].copy_from_slice(&sum);
    blob
}

/// The floor of a set that the bytes spell, or none exactly where they spell none. Takes no memory.
pub fn decode_floor(bytes: &[u8], set: Set) -> Option<Version>
    ensures found { IfSome result (SpellsFloor set bytes.now) }
    ensures none { IfNone result (IsNoFloor set bytes.now) }
{
    let [_, _, _, _, a, b, c, d, ..] = bytes else {
        return None;
    };
    let floor = u32::from_be_bytes([*a, *b, *c, *d]);
    if floor < 1 || floor > 4_294_967_294 || encode_floor(set, floor).as_slice() != bytes {
        return None;
    }
    Some(floor)
}

/// Puts a recipe. `StoreFault`, `Memory`.
pub fn put_recipe<S: Shelf>(alloc: Global, shelf: &mut S, recipe: &Recipe) -> Result<(), Fault>
    requires { IsRecipe recipe.now }
    ensures ok { OnOk result
        (IsWritten (S.told shelf.old).blobs (S.told shelf.new).blobs (S.told shelf.old).history
        (S.told shelf.new).history
        (recipe_name recipe.now.set recipe.now.version) (Some (recipe_bytes recipe.now))) }
    ensures at_most { MayBeWritten (S.told shelf.old).blobs (S.told shelf.new).blobs
        (S.told shelf.old).history (S.told shelf.new).history
        (recipe_name recipe.now.set recipe.now.version) (Some (recipe_bytes recipe.now)) }
    ensures memory { IsErrOf result fault.Memory → IsAsBefore (S.told shelf.old) (S.told shelf.new) }
    ensures gets { (S.told shelf.new).gets ≡ (S.told shelf.old).gets }
    ensures causes { HasCauses (S.told shelf.old).faults (S.told shelf.new).faults IsUndamaged result }
{
    let blob = encode_recipe(alloc, recipe)?;
    match shelf.put(
        alloc,
        Name::recipe(recipe.set, recipe.version),
        blob.as_slice(),
    ) {
        Ok(()) => Ok(()),
        Err(refused) => Err(fault_of(shelf, refused)),
    }
}

/// The recipe of a version of a set, as the shelf has it. `StoreFault`, `Damaged`, `Memory`.
pub fn get_recipe<S: Shelf>(
    alloc: Global,
    shelf: &mut S,
    set: Set,
    version: Version,
) -> Result<Recipe, Fault>
    ensures found { IfOk result (λ r. (bytes : List ℕ)
        × Has (S.told shelf.old).blobs (recipe_name set version) (Some bytes)
        × SpellsRecipe set version bytes r) }
    ensures kept { IsAsBefore (S.told shelf.old) (S.told shelf.new) }
    ensures gets { (S.told shelf.new).gets ≡ (S.told shelf.old).gets }
    ensures causes { HasCauses (S.told shelf.old).faults (S.told shelf.new).faults
        (IsRecipeDamage (S.told shelf.old).blobs set version) result }
{
    let name = Name::recipe(set, version);
    let bytes = match shelf.get(alloc, name) {
        Ok(Some(bytes)) => bytes,
        Ok(None) => return Err(damaged(name, Why::Absent)),
        Err(refused) => return Err(fault_of(shelf, refused)),
    };
    match decode_recipe(alloc, bytes.as_slice(), set, version)? {
        Some(recipe) => Ok(recipe),
        None => Err(damaged(name, Why::Spelling)),
    }
}

/// The floor of a set, as the shelf has it: 1 where there is none. `StoreFault`, `Damaged`, `Memory`.
pub fn get_floor<S: Shelf>(alloc: Global, shelf: &mut S, set: Set) -> Result<Version, Fault>
    ensures found { IfOk result (λ floor. IsFloorIn (S.told shelf.old).blobs set floor) }
    ensures kept { IsAsBefore (S.told shelf.old) (S.told shelf.new) }
    ensures gets { (S.told shelf.new).gets ≡ (S.told shelf.old).gets }
    ensures causes { HasCauses (S.told shelf.old).faults (S.told shelf.new).faults
        (IsFloorDamage (S.told shelf.old).blobs set) result }
{
    let name = Name::floor(set);
    let bytes = match shelf.get(alloc, name) {
        Ok(Some(bytes)) => bytes,
        Ok(None) => return Ok(1),
        Err(refused) => return Err(fault_of(shelf, refused)),
    };
    match decode_floor(bytes.as_slice(), set) {
        Some(floor) => Ok(floor),
        None => Err(damaged(name, Why::Spelling)),
    }
}

/// Sets the floor of a set. `StoreFault`. Takes no memory.
pub fn put_floor<S: Shelf>(shelf: &mut S, set: Set, floor: Version) -> Result<(), Fault>
    requires { IsVersion floor }
    ensures ok { OnOk result
        (IsWritten (S.told shelf.old).blobs (S.told shelf.new).blobs (S.told shelf.old).history
        (S.told shelf.new).history
        (floor_name set) (Some (floor_bytes set floor))) }
    ensures at_most { MayBeWritten (S.told shelf.old).blobs (S.told shelf.new).blobs
        (S.told shelf.old).history (S.told shelf.new).history
        (floor_name set) (Some (floor_bytes set floor)) }
    ensures gets { (S.told shelf.new).gets ≡ (S.told shelf.old).gets }
    ensures causes { HasStoreFault (S.told shelf.old).faults (S.told shelf.new).faults result }
{
    let blob = encode_floor(set, floor);
    match shelf.put_floor(set, &blob) {
        Ok(()) => Ok(()),
        Err(_) => Err(Fault::StoreFault(shelf.faults())),
    }
}

/// Takes the recipe of a version of a set out. Takes no memory.
pub fn remove_recipe<S: Shelf>(shelf: &mut S, set: Set, version: Version) -> Result<(), Failed>
    ensures ok { OnOk result
        (IsWritten (S.told shelf.old).blobs (S.told shelf.new).blobs (S.told shelf.old).history
        (S.told shelf.new).history
        (recipe_name set version) None) }
    ensures at_most { MayBeWritten (S.told shelf.old).blobs (S.told shelf.new).blobs
        (S.told shelf.old).history (S.told shelf.new).history
        (recipe_name set version) None }
    ensures gets { (S.told shelf.new).gets ≡ (S.told shelf.old).gets }
    ensures cause { HasFailed (S.told shelf.old).faults (S.told shelf.new).faults result }
{
    shelf.remove(Name::recipe(set, version))
}

/// Every name on the shelf, by kind and then by number. `StoreFault`, `Memory`.
pub fn survey<S: Shelf>(alloc: Global, shelf: &mut S) -> Result<Vec<Name>, Fault>
    ensures names { IfOk result (λ names. IfSome (S.told shelf.old).blobs (λ m. IsListing m names.items)) }
    ensures kept { IsAsBefore (S.told shelf.old) (S.told shelf.new) }
    ensures gets { (S.told shelf.new).gets ≡ (S.told shelf.old).gets }
    ensures causes { HasCauses (S.told shelf.old).faults (S.told shelf.new).faults IsUndamaged result }
{
    match shelf.list(alloc) {
        Ok(names) => Ok(names),
        Err(refused) => Err(fault_of(shelf, refused)),
    }
}

fn damaged(name: Name, why: Why) -> Fault
    ensures { result ≡ fault.Damaged name.kind name.number why }
{
    Fault::Damaged {
        kind: name.kind,
        number: name.number,
        why,
    }
}

/// Each recipe has one spelling, and no spelling of a recipe, in either format, begins another of the same version.
pub fn recipes_are_told_apart()
    ensures one { (s v : ℕ) (r : Recipes) (a b : List ℕ) → SpellsRecipe s v a r → SpellsRecipe s v b r
        → a ≡ b }
    ensures apart { (s v : ℕ) (r q : Recipes) (a b more : List ℕ) → SpellsRecipe s v a r
        → SpellsRecipe s v b q → a ++ more ≡ b → (r ≡ q) × (more ≡ []) }
{}

/// Each floor has one spelling, and no spelling of a floor begins another of the same set.
pub fn floors_are_told_apart()
    ensures one { (s f : ℕ) (a b : List ℕ) → SpellsFloor s a f → SpellsFloor s b f → a ≡ b }
    ensures apart { (s f g : ℕ) (a b more : List ℕ) → SpellsFloor s a f → SpellsFloor s b g → a ++ more ≡ b
        → (f ≡ g) × (more ≡ []) }
{}
