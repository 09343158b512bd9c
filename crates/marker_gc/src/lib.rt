//! Which containers of a dataset are still named: the container-marker algorithm of Fu and others (USENIX ATC 2014;
//! Destor, FAST 2015).
//!
//! The marker of a container is the greatest version that names it. Where versions are deleted from the oldest on,
//! a container loses its last name exactly where its marker falls below the floor. So no recipe is read again: a commit
//! takes time in proportion to the ids that it is given, and a deletion in proportion to the containers that are named.
#![tactic(auto)]

ghost use Rattle.std.specs.Prelude.{◌≡◌, ◌≤◌, ◌+◌, ◌++◌, ◌&&◌, not, [], List, ℕ, length, vec_len, vec_capacity, OnOk};
ghost use Rattle.vault_types.specs.Lists.{has};
ghost use Rattle.vault_types.specs.Marks.{Mark, marks_of, marked_ids, marks_above, freed_ids};
ghost use Rattle.marker_gc.specs.Markers.{AreMarkers};
ghost use Rattle.marker_gc.specs.Steps.{MarkerStep, marks_after, stands_above, stands_since, VersionsRise};

mod map;
pub mod order;

use crate::map::{drop_below, mark_all, push_below};
use crate::order::sort_from;
use std::alloc::Global;
use std::collections::HashMap;
use std::marker::Model;
use vault_types::{Id, Memory, Version};

/// The containers that versions of one dataset name, each with its marker.
#[derive(Drop)]
pub struct Markers {
    markers: HashMap<Id, Version>,
}

impl Model for Markers {
    ghost use Rattle.std.specs.HashMap.{spare};
    ghost use Rattle.marker_gc.specs.Markers.{Marked};

    ghost Value = { Marked };

    ghost view = { λ m. record { markers = m.markers.entries; room = spare m.markers } };
}

impl Markers {
    /// The markers of a dataset without versions. Takes no memory.
    pub fn new(alloc: Global) -> Markers
        ensures { (s : ℕ) → AreMarkers result.markers s [] }
    {
        Markers {
            markers: HashMap::new(alloc),
        }
    }

    /// Makes room for `more` ids beyond those that are named. Nothing else changes, also after `Memory`.
    pub fn reserve(&mut self, more: usize) -> Result<(), Memory>
        ensures made { OnOk result (more ≤ self.new.room) }
        ensures room { self.old.room ≤ self.new.room }
        ensures count { length self.new.markers ≡ length self.old.markers }
        ensures same { (s : ℕ) (marks : List Mark) → AreMarkers self.old.markers s marks
            → AreMarkers self.new.markers s marks }
    {
        self.markers.reserve(more)?;
        Ok(())
    }

    /// Marks the containers that a version names. There is room for as many ids as are given, and no more is used.
    /// A version that is not the greatest so far changes no marker of a greater one. Takes no memory.
    pub fn commit(&mut self, version: Version, ids: &[Id])
        requires { length ids.now ≤ self.old.room }
        ensures room { self.old.room ≤ self.new.room + length ids.now }
        ensures marks { (s : ℕ) (marks : List Mark) → AreMarkers self.old.markers s marks
            → AreMarkers self.new.markers s (marks ++ marks_of s version ids.now) }
    {
        mark_all(&mut self.markers, version, ids);
    }

    /// Whether a version names the container. Takes no memory.
    pub fn named(&self, id: Id) -> bool
        ensures { (s : ℕ) (marks : List Mark) → AreMarkers self.now.markers s marks
            → result ≡ has id (marked_ids marks) }
    {
        self.markers.contains_key(&id)
    }

    /// How many containers are named. Takes no memory.
    pub fn count(&self) -> usize
        ensures count { result ≡ length self.now.markers }
        ensures ids { (s : ℕ) (marks : List Mark) → AreMarkers self.now.markers s marks
            → result ≡ length (marked_ids marks) }
    {
        self.markers.len()
    }

    /// Forgets the versions below a floor, and appends the ids that lose their last name by it, ascending. `out` has room
    /// for as many ids as are named. Takes no memory.
    pub fn take_below(&mut self, floor: Version, out: &mut Vec<Id>)
        requires { vec_len out.old + length self.old.markers ≤ vec_capacity out.old }
        ensures freed { (s : ℕ) (marks : List Mark) → AreMarkers self.old.markers s marks
            → out.new.items ≡ out.old.items ++ freed_ids s floor marks }
        ensures left { (s : ℕ) (marks : List Mark) → AreMarkers self.old.markers s marks
            → AreMarkers self.new.markers s (marks_above s floor marks) }
        ensures room { self.old.room ≤ self.new.room }
        ensures capacity { vec_capacity out.old ≤ vec_capacity out.new }
    {
        let start = out.len();
        push_below(&self.markers, floor, out);
        sort_from(out, start);
        drop_below(&mut self.markers, floor);
    }
}

/// However the markers came about, with versions that rise: what is named stands in some list that was committed since it
/// was last taken, and what a floor takes of it stands in no list for a version at or above the floor.
pub fn taken_ids_are_in_no_newer_list()
    ensures named { (s c : ℕ) (steps : List MarkerStep) → VersionsRise steps
        → has c (marked_ids (marks_after s steps)) ≡ stands_since steps c }
    ensures taken { (s floor c : ℕ) (steps : List MarkerStep) → VersionsRise steps
        → has c (freed_ids s floor (marks_after s steps))
        ≡ (stands_since steps c && not (stands_above floor steps c)) }
{}
