// The file names of blobs.
ghost use Rattle.std.specs.Prelude.{◌≡◌, ◌≢◌, ℕ, ◌<◌, ◌^◌, ◌/◌, ◌%◌, ◌++◌, ◌↔◌, Some, IsTrue, IfSome, OnOk, length, string_bytes};
ghost use Rattle.std.specs.Option.{option_map};
ghost use Rattle.vault_types.specs.declared.Kind.TheVariants as kind;
ghost use Rattle.vault_types.specs.declared.Name.{Name};
ghost use Rattle.folder_shelf.specs.FileNames.{file_name, text_of, recipe_tail, floor_tail, hex, HasFile};

use crate::digits::{push_hex, read_hex};
use std::alloc::AllocError;
use vault_types::{Kind, Name};

// How many numbers of versions a set has.
const VERSIONS: u64 = 1 << 32;

/// Whether the name has a file name: sets are 0 to 255.
pub fn has_file(name: Name) -> bool
    ensures { IsTrue result ↔ HasFile name }
{
    match name.kind {
        Kind::Table | Kind::Payload => true,
        Kind::Recipe => name.number < 1 << 40,
        Kind::Floor => name.number < 1 << 8,
    }
}

/// Adds the file name of a blob to the text.
pub fn push_file_name(text: &mut String, name: Name) -> Result<(), AllocError>
    requires { HasFile name }
    ensures { OnOk result (string_bytes text.new ≡ string_bytes text.old ++ file_name name) }
{
    match name.kind {
        Kind::Table => push_part(text, "table-", 16, name.number),
        Kind::Payload => push_part(text, "payload-", 16, name.number),
        Kind::Recipe => push_recipe(text, name.number),
        Kind::Floor => push_floor(text, name.number),
    }
}

// Adds a text, and behind it the last digits of a number, so many of them.
fn push_part(text: &mut String, before: &str, count: usize, number: u64) -> Result<(), AllocError>
    ensures { OnOk result (string_bytes text.new ≡ string_bytes text.old ++ before.now ++ hex count number) }
{
    text.push_str(before)?;
    push_hex(text, count, number)
}

fn push_recipe(text: &mut String, number: u64) -> Result<(), AllocError>
    ensures { OnOk result (string_bytes text.new ≡ string_bytes text.old ++ text_of kind.Recipe number) }
{
    text.push_str("recipe-")?;
    let set = number / VERSIONS;
    if set > 0 {
        push_hex(text, 2, set)?;
        text.push('-')?;
    }
    push_hex(text, 8, number % VERSIONS)
}

fn push_floor(text: &mut String, set: u64) -> Result<(), AllocError>
    ensures { OnOk result (string_bytes text.new ≡ string_bytes text.old ++ text_of kind.Floor set) }
{
    text.push_str("floor")?;
    if set > 0 {
        text.push('-')?;
        push_hex(text, 2, set)?;
    }
    Ok(())
}

/// The name of the blob that lies under this file name. Any other file name is `None`.
pub fn read_file_name(text: &[u8]) -> Option<Name>
    ensures reach { IfSome result HasFile }
    ensures found { (name : Name) → HasFile name → (result ≡ Some name ↔ file_name name ≡ text.now) }
{
    if let Some(tail) = text.strip_prefix(b"table-") {
        return named(Kind::Table, read_id(tail));
    }
    if let Some(tail) = text.strip_prefix(b"payload-") {
        return named(Kind::Payload, read_id(tail));
    }
    if let Some(tail) = text.strip_prefix(b"recipe-") {
        return named(Kind::Recipe, read_recipe(tail));
    }
    if let Some(tail) = text.strip_prefix(b"floor") {
        return named(Kind::Floor, read_floor(tail));
    }
    None
}

fn named(kind: Kind, number: Option<u64>) -> Option<Name>
    ensures { result ≡ option_map (λ n. record { kind = kind; number = n }) number }
{
    Some(Name {
        kind,
        number: number?,
    })
}

fn read_id(tail: &[u8]) -> Option<u64>
    ensures { (n : ℕ) → n < 2 ^ 64 → (result ≡ Some n ↔ hex 16 n ≡ tail.now) }
{
    if tail.len() != 16 {
        return None;
    }
    read_hex(tail)
}

fn read_recipe(tail: &[u8]) -> Option<u64>
    ensures small { IfSome result (λ n. n < 2 ^ 40) }
    ensures found { (n : ℕ) → n < 2 ^ 40
        → (result ≡ Some n ↔ recipe_tail (n / 2 ^ 32) (n % 2 ^ 32) ≡ tail.now) }
{
    if tail.len() == 8 {
        return read_hex(tail);
    }
    if tail.len() != 11 || tail[2] != b'-' {
        return None;
    }
    let Some(set) = read_set(&tail[..2]) else {
        return None;
    };
    let Some(version) = read_hex(&tail[3..]) else {
        return None;
    };
    Some(set * VERSIONS + version)
}

fn read_floor(tail: &[u8]) -> Option<u64>
    ensures small { IfSome result (λ n. n < 2 ^ 8) }
    ensures found { (n : ℕ) → n < 2 ^ 8 → (result ≡ Some n ↔ floor_tail n ≡ tail.now) }
{
    if tail.is_empty() {
        return Some(0);
    }
    if tail.len() != 3 || tail[0] != b'-' {
        return None;
    }
    read_set(&tail[1..])
}

// A set above 0, in two digits.
fn read_set(text: &[u8]) -> Option<u64>
    requires { length text.now ≡ 2 }
    ensures some { IfSome result (λ s. (0 < s) × (s < 2 ^ 8)) }
    ensures found { (s : ℕ) → s < 2 ^ 8 → (result ≡ Some s ↔ ((s ≢ 0) × (hex 2 s ≡ text.now))) }
{
    let Some(set) = read_hex(text) else {
        return None;
    };
    if set == 0 { None } else { Some(set) }
}
