//! A sampled index: duplicates are found by hooks, which are a part of all fingerprints, and by the
//! tables of the containers that were used last. After Destor's and Lillibridge's sampled indexes,
//! with a rule of our own (docs/RULES.md).
#![tactic(auto)]

ghost use Rattle.std.specs.Prelude.{◌≡◌, ◌≢◌, ◌≤◌, ◌∷◌, [], true, map, List, Some, None, Option, IfOk, IfErr, OnOk, OnErr, IfSome, MatchResult, ℕ};
ghost use Rattle.std.specs.Option.{option_map_or};
ghost use Rattle.vault_types.specs.declared.Fp.{Fp as Key};
ghost use Rattle.vault_types.specs.declared.Table.{Table as Container};
ghost use Rattle.vault_types.specs.Tables.{has_fp};
ghost use Rattle.sampled_index.specs.Looks.{has_at, first_with, used_after};
ghost use Rattle.sampled_index.specs.declared.Look.TheVariants as look;
ghost use Rattle.sampled_index.specs.Sampling.{hook_of, HasUsed};

mod tables;

use crate::tables::{fps_of, holder, hook_at};
use lru::LruCache;
use std::alloc::Global;
use std::collections::{HashMap, HashSet};
use std::marker::Model;
use std::num::NonZeroUsize;
use vault_types::{Fp, Id, Memory, Table};

/// What a look answers: the container, whose table was used among the last; or none; or the container that a hook names,
/// whose table is wanted.
#[derive(Clone, Copy, PartialEq, Eq)]
pub enum Look {
    Known(Id),
    Unknown,
    Want(Id),
}

// The answer where no table that was used last has the fingerprint.
fn hooked(hook: Option<Id>) -> Look
    ensures { result ≡ option_map_or (λ id. look.Want id) hook look.Unknown }
{
    match hook {
        Some(id) => Look::Want(id),
        None => Look::Unknown,
    }
}

/// A sampled index, with the tables that were used last.
#[derive(Drop)]
pub struct Sampler {
    hooks: HashMap<Fp, Id>,
    tables: LruCache<Id, HashSet<Fp>>,
}

impl Model for Sampler {
    ghost use Rattle.std.specs.Prelude.{map};
    ghost use Rattle.sampled_index.specs.Sampling.{Sampling};

    ghost Value = { Sampling };

    ghost view = { λ s. record {
      hooks = s.hooks.entries;
      used = map (λ e. (e.0, e.1.keys)) s.tables.entries;
      room = s.tables.cap;
    } };
}

impl Sampler {
    /// An index of these hooks, each with its container, which keeps the tables of the `prefetch` containers that were
    /// used last, 1 to 16. The only error is `Memory`.
    pub fn new(alloc: Global, hooks: HashMap<Fp, Id>, prefetch: u32) -> Result<Sampler, Memory>
        requires some { 1 ≤ prefetch }
        ensures hooks { IfOk result (λ s. s.hooks ≡ hooks.entries) }
        ensures used { IfOk result (λ s. s.used ≡ []) }
        ensures room { IfOk result (λ s. s.room ≡ prefetch) }
    {
        let room = match NonZeroUsize::new(prefetch as usize) {
            Some(room) => room,
            None => unreachable!(),
        };
        let tables = LruCache::new(alloc, room)?;
        Ok(Sampler { hooks, tables })
    }

    /// Looks a fingerprint up. `Known`: the table of this container has it, the first of those used last, and is now the
    /// one used last. `Want`: none of those has it, and it is a hook of this container. `Unknown`: neither. No memory.
    pub fn look(&mut self, fp: &Fp) -> Look
        ensures hooks { self.new.hooks ≡ self.old.hooks }
        ensures known { (tables : List Container) (used : List ℕ) (id : ℕ) → HasUsed tables self.old used
            → result ≡ look.Known id
            → (first_with tables fp.now used ≡ Some id)
            × HasUsed tables self.new (used_after self.old.room used (Some id)) }
        ensures want { (tables : List Container) (used : List ℕ) (id : ℕ) → HasUsed tables self.old used
            → result ≡ look.Want id
            → (first_with tables fp.now used ≡ None) × (hook_of self.old fp.now ≡ Some id)
            × (self.new ≡ self.old) }
        ensures unknown { (tables : List Container) (used : List ℕ) → HasUsed tables self.old used
            → result ≡ look.Unknown
            → (first_with tables fp.now used ≡ None) × (hook_of self.old fp.now ≡ None)
            × (self.new ≡ self.old) }
    {
        match holder(&self.tables, fp) {
            Some(id) => {
                self.tables.promote(&id);
                Look::Known(id)
            }
            None => hooked(hook_at(&self.hooks, fp)),
        }
    }

    /// Gives a table, which is now the one used last; where there are too many, the one used longest ago goes. After
    /// `Memory` the index is as before.
    pub fn give(&mut self, alloc: Global, table: &Table) -> Result<(), Memory>
        ensures used { (tables : List Container) (used : List ℕ) → HasUsed tables self.old used
            → ((f : Key) → has_fp f table.now ≡ has_at tables f table.now.id)
            → OnOk result (HasUsed tables self.new (used_after self.old.room used (Some table.now.id))) }
        ensures hooks { self.new.hooks ≡ self.old.hooks }
        ensures memory { OnErr result (self.new ≡ self.old) }
    {
        let fps = fps_of(alloc, table)?;
        self.tables.put(table.id, fps)?;
        Ok(())
    }
}
