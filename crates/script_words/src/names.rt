//! The names that a script uses.
ghost use Rattle.std.specs.Prelude.{◌≡◌, ◌++◌, ◌∷◌, [], List, ℕ, true, false, OnOk, MatchOption};
ghost use Rattle.std.specs.List.{list_all};
ghost use Rattle.vault_types.specs.Words as spec;
ghost use Rattle.script_words.specs.Names.{HasNames, HasThese};

use std::alloc::Global;
use std::collections::BTreeSet;
use vault_types::{Line, Memory};

/// A set of names.
#[derive(Drop)]
pub(crate) struct NameSet {
    names: BTreeSet<String>,
}

impl NameSet {
    fn new(alloc: Global) -> Self
        ensures { HasThese result [] }
    {
        NameSet {
            names: BTreeSet::new(alloc),
        }
    }

    fn has(&self, name: &str) -> bool
        ensures { (known : List (List ℕ)) → HasThese self.now known → result ≡ spec.is_one_of known name.now }
    {
        self.names.contains(name)
    }

    fn add(&mut self, alloc: Global, name: &str) -> Result<(), Memory>
        ensures { (known : List (List ℕ)) → HasThese self.old known
            → OnOk result (HasThese self.new (known ++ name.now ∷ [])) }
    {
        let name = String::from_str(alloc, name)?;
        self.names.insert(name)?;
        Ok(())
    }
}

/// The sources and the outputs that the lines of a script name.
#[derive(Drop)]
pub(crate) struct Names {
    sources: NameSet,
    outputs: NameSet,
}

impl Names {
    /// No names.
    pub(crate) fn new(alloc: Global) -> Self
        ensures { HasNames result [] [] }
    {
        Names {
            sources: NameSet::new(alloc),
            outputs: NameSet::new(alloc),
        }
    }

    /// Whether a line may follow lines with these names: no output is named twice, and none is a source.
    pub(crate) fn may_follow(&self, line: &Line) -> bool
        ensures { (ins outs : List (List ℕ)) → HasNames self.now ins outs
            → result ≡ spec.may_follow ins outs line.now }
    {
        match line {
            Line::Backup { name, .. } => !self.outputs.has(name.as_str()),
            Line::Restore { name, .. } => {
                let taken = self.outputs.has(name.as_str()) || self.sources.has(name.as_str());
                !taken
            }
            Line::Delete { .. } => true,
        }
    }

    /// Adds the names of a line.
    pub(crate) fn add(&mut self, alloc: Global, line: &Line) -> Result<(), Memory>
        ensures { (ins outs : List (List ℕ)) → HasNames self.old ins outs
            → OnOk result
            (HasNames self.new (ins ++ spec.sources_of line.now) (outs ++ spec.outputs_of line.now)) }
    {
        match line {
            Line::Backup { name, .. } => self.sources.add(alloc, name.as_str()),
            Line::Restore { name, .. } => self.outputs.add(alloc, name.as_str()),
            Line::Delete { .. } => Ok(()),
        }
    }
}

/// A text as the name of a place, if it is one.
pub(crate) fn name_of(text: &[u8]) -> Option<&str>
    ensures { MatchOption result (spec.is_name text.now ≡ false) (λ name. (spec.is_name text.now ≡ true)
        × (name.now ≡ text.now)) }
{
    if !is_name(text) {
        return None;
    }
    match std::str::from_utf8(text) {
        Ok(name) => Some(name),
        Err(_) => None,
    }
}

fn is_name(text: &[u8]) -> bool
    ensures { result ≡ spec.is_name text.now }
{
    begins_well(text) && text.len() <= 64 && has_name_bytes(text)
}

fn begins_well(text: &[u8]) -> bool
    ensures { result ≡ spec.begins_well text.now }
{
    match text.first() {
        Some(first) => *first != b'.' && *first != b'-',
        None => false,
    }
}

fn has_name_bytes(text: &[u8]) -> bool
    ensures { result ≡ list_all spec.is_name_byte text.now }
{
    text.iter().all(|b| is_name_byte(*b))
}

fn is_name_byte(b: u8) -> bool
    ensures { result ≡ spec.is_name_byte b }
{
    b.is_ascii_digit()
        || b.is_ascii_lowercase()
        || b.is_ascii_uppercase()
        || b == b'.'
        || b == b'_'
        || b == b'-'
}
