//! Which containers are still named where several datasets share them: the container-marker algorithm of Fu and others
//! (USENIX ATC 2014; Destor, FAST 2015), with a marker for each dataset.
//!
//! A container that two datasets name has two markers, and goes only when both are below the floors of their sets. The
//! markers of all sets stand in one map, by set and container, so that room serves a commit of any set; beside it stands
//! in how many sets each container is named. A commit takes time in proportion to the ids that it is given, a deletion
//! in proportion to the containers that are named, with one look-up for each. In memory a container costs an entry, and
//! one more for each set that names it.
#![tactic(auto)]

ghost use Rattle.std.specs.Prelude.{◌≡◌, ◌≤◌, ◌+◌, ◌++◌, ◌∷◌, ◌&&◌, not, [], List, ℕ, length, vec_len, vec_capacity, OnOk};
ghost use Rattle.vault_types.specs.Lists.{has};
ghost use Rattle.vault_types.specs.Marks.{Mark, marks_of, marked_ids, marks_above, freed_ids};
ghost use Rattle.set_markers.specs.SetMarkers.{AreMarkersOfSets};
ghost use Rattle.set_markers.specs.Steps.{MarkerStep, marks_after, floor_after, stands_above, stands_since, FloorsRise};
ghost use Rattle.set_markers.specs.Steps.MarkerStep.{Taken};

mod maps;

use crate::maps::{forget_from, mark_all, push_below};
use marker_gc::order::sort_from;
use std::alloc::Global;
use std::collections::HashMap;
use std::marker::Model;
use vault_types::{Id, Memory, Set, Version};

/// The containers that versions of all datasets name, each with its marker in each set that names it.
#[derive(Drop)]
pub struct SetMarkers {
    markers: HashMap<(Set, Id), Version>,
    counts: HashMap<Id, usize>,
}

impl Model for SetMarkers {
    ghost use Rattle.std.specs.Prelude.{map, min};
    ghost use Rattle.std.specs.HashMap.{spare};
    ghost use Rattle.set_markers.specs.SetMarkers.{Marked, AreCounts};

    ghost Value = { Marked };

    ghost view = { λ m.
        record {
          markers = m.markers.entries;
          ids = map (λ e. e.0) m.counts.entries;
          room = min (spare m.markers) (spare m.counts);
        } };

    ghost invariant = { λ m. AreCounts m.counts.entries m.markers.entries };
}

impl SetMarkers {
    /// The markers where no set has a version. Takes no memory.
    pub fn new(alloc: Global) -> SetMarkers
        ensures { AreMarkersOfSets result [] }
    {
        SetMarkers {
            markers: HashMap::new(alloc),
            counts: HashMap::new(alloc),
        }
    }

    /// Makes room for `more` ids beyond those that are named, in commits of any sets. Nothing else changes, also after
    /// `Memory`.
    pub fn reserve(&mut self, more: usize) -> Result<(), Memory>
        ensures made { OnOk result (more ≤ self.new.room) }
        ensures room { self.old.room ≤ self.new.room }
        ensures count { length self.new.ids ≡ length self.old.ids }
        ensures same { (marks : List Mark) → AreMarkersOfSets self.old marks
            → AreMarkersOfSets self.new marks }
    {
        self.markers.reserve(more)?;
        self.counts.reserve(more)?;
        Ok(())
    }

    /// Marks the containers that a version of a set names. There is room for as many ids as are given, and no more is
    /// used. A version that is not the greatest so far of its set changes no marker of a greater one. Takes no memory.
    pub fn commit(&mut self, set: Set, version: Version, ids: &[Id])
        requires { length ids.now ≤ self.old.room }
        ensures room { self.old.room ≤ self.new.room + length ids.now }
        ensures marks { (marks : List Mark) → AreMarkersOfSets self.old marks
            → AreMarkersOfSets self.new (marks ++ marks_of set version ids.now) }
    {
        mark_all(&mut self.markers, &mut self.counts, set, version, ids);
    }

    /// Whether a version of some set names the container. Takes no memory.
    pub fn named(&self, id: Id) -> bool
        ensures { (marks : List Mark) → AreMarkersOfSets self.now marks → result ≡ has id (marked_ids marks) }
    {
        self.counts.contains_key(&id)
    }

    /// How many containers are named, whatever the number of sets that name them. Takes no memory.
    pub fn count(&self) -> usize
        ensures count { result ≡ length self.now.ids }
        ensures ids { (marks : List Mark) → AreMarkersOfSets self.now marks
            → result ≡ length (marked_ids marks) }
    {
        self.counts.len()
    }

    /// Forgets the versions of a set below a floor, and appends the ids that lose their last name by it, ascending: those
    /// that no other set names. `out` has room for as many ids as are named. Takes no memory.
    pub fn take_below(&mut self, set: Set, floor: Version, out: &mut Vec<Id>)
        requires { vec_len out.old + length self.old.ids ≤ vec_capacity out.old }
        ensures freed { (marks : List Mark) → AreMarkersOfSets self.old marks
            → out.new.items ≡ out.old.items ++ freed_ids set floor marks }
        ensures left { (marks : List Mark) → AreMarkersOfSets self.old marks
            → AreMarkersOfSets self.new (marks_above set floor marks) }
        ensures room { self.old.room ≤ self.new.room }
        ensures capacity { vec_capacity out.old ≤ vec_capacity out.new }
    {
        let start = out.len();
        push_below(&self.markers, &self.counts, set, floor, out);
        forget_from(&mut self.markers, &mut self.counts, set, out, start);
        sort_from(out, start);
    }
}

/// However the markers came about, with no version and no floor below a floor that was handed in before for its set: what
/// is named stands in some commit since it was last taken, and what a floor takes of it stands in no commit whose version
/// is at or above the last floor of its set.
pub fn taken_ids_are_in_no_kept_version()
    ensures named { (c : ℕ) (steps : List MarkerStep) → FloorsRise steps
        → has c (marked_ids (marks_after steps)) ≡ stands_since steps c }
    ensures taken { (s floor c : ℕ) (steps : List MarkerStep) → FloorsRise (Taken s floor ∷ steps)
        → has c (freed_ids s floor (marks_after steps))
        ≡ (stands_since steps c && not (stands_above (floor_after (Taken s floor ∷ steps)) steps c)) }
{}
