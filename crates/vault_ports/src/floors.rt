// The floors of 256 sets, in place: setting one takes no memory.
ghost use Rattle.std.specs.Prelude.{◌≡◌, ◌<◌, ◌++◌, ℕ, Some, None, MatchOption, IfOk, OnOk, ◌||◌};
ghost use Rattle.std.specs.Option.{option_map};
ghost use Rattle.std.specs.FinMap as map;
ghost use Rattle.std.specs.Set.{is_member};
ghost use Rattle.std.specs.Ordering.{eq_by_cmp};
ghost use Rattle.vault_types.specs.Shelf.{floor_name, name_cmp, with_blob};

use std::marker::Model;
use vault_types::{Kind, Memory, Name, Set};

#[derive(Drop)]
pub struct Floors {
    slots: [Option<[u8; 28]>; 256],
}

impl Model for Floors {
    ghost use Rattle.vault_types.specs.Shelf.{Blobs};
    ghost use Rattle.vault_traits.specs.Codes.{coded_blobs};
    ghost use Rattle.vault_ports.specs.Mem.{floors_from};

    ghost Value = { Blobs };

    ghost coded = { coded_blobs };

    ghost use Rattle.std.specs.Prelude.{◌≡◌, length};

    ghost view = { λ f. floors_from 0 f.slots };

    ghost invariant = { λ f. length f.slots ≡ 256 };
}

impl Floors {
    // Which slot is that name's.
    fn slot_of(&self, name: Name) -> Option<usize>
        ensures { MatchOption result (map.get self.now name ≡ None) (λ i. (i < 256) × (name ≡ floor_name i)) }
    {
        let slots = &self.slots;
        match name.kind {
            Kind::Floor => {
                if name.number < slots.len() as u64 {
                    return Some(name.number as usize);
                }
                None
            }
            _ => None,
        }
    }

    // No floors.
    pub fn new() -> Self
        ensures { result ≡ map.empty }
    {
        Floors { slots: [None; 256] }
    }

    // The same floors.
    pub fn copy(&self) -> Self
        ensures { result ≡ self.now }
    {
        Floors { slots: self.slots }
    }

    // Sets a floor.
    pub fn put(&mut self, set: Set, bytes: &[u8; 28])
        ensures { self.new ≡ with_blob self.old (floor_name set) (Some bytes.now) }
    {
        self.slots[set as usize] = Some(*bytes);
    }

    // Takes a name out, where it is there.
    pub fn remove(&mut self, name: Name)
        ensures { self.new ≡ with_blob self.old name None }
    {
        let Some(at) = self.slot_of(name) else {
            return;
        };
        self.slots[at] = None;
    }

    // What is under a name.
    pub fn blob(&self, name: Name) -> Option<&[u8]>
        ensures { option_map (λ b. b.now) result ≡ map.get self.now name }
    {
        let Some(at) = self.slot_of(name) else {
            return None;
        };
        match &self.slots[at] {
            Some(bytes) => Some(bytes),
            None => None,
        }
    }

    // Puts the names of the floors behind others.
    pub fn push_names(&self, names: &mut Vec<Name>) -> Result<(), Memory>
        ensures { OnOk result ((q : Name)
            → is_member (eq_by_cmp name_cmp) names.new.items q
            ≡ (is_member (eq_by_cmp name_cmp) names.old.items q || map.contains_key self.now q)) }
    {
        for (i, slot) in self.slots.iter().enumerate() {
            if slot.is_some() {
                names.push(Name {
                    kind: Kind::Floor,
                    number: i as u64,
                })?;
            }
        }
        Ok(())
    }
}
