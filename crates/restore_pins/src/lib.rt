//! Which containers restores still need: a pinned version keeps those that it lists until its pin is released, also where
//! no version names them any more.
#![tactic(auto)]

ghost use Rattle.std.specs.Prelude.{◌≡◌, ◌++◌, ◌∷◌, [], List, map, IfOk, OnErr, IsTrue, false};
ghost use Rattle.vault_types.specs.Lists.{has};
ghost use Rattle.vault_types.specs.Tables.{id_of};
ghost use Rattle.vault_types.specs.Events.{Pin as PinOf, pinned_containers, pins_without};
ghost use Rattle.restore_pins.specs.Pins.{numbers, listed_ids, ids_at, without_pin, IsListOf, AreListsOf};

mod pin;

use crate::pin::{Pin, any_lists, place};
use std::alloc::Global;
use std::marker::Model;
use vault_types::{Id, Memory, Version};

/// The number of a pin. It is made by [`Pins::pin`] alone and is never copied, so a pin is released once, by the one who
/// has it. A number that is dropped leaves its pin.
#[derive(Drop)]
pub struct PinNo {
    number: u64,
}

impl Model for PinNo {
    ghost use Rattle.std.specs.Prelude.{ℕ};

    ghost Value = { ℕ };

    ghost view = { λ p. p.number };
}

/// The versions that are pinned, each with the containers that it lists.
#[derive(Drop)]
pub struct Pins {
    next: u64,
    pins: Vec<Pin>,
}

impl Model for Pins {
    ghost use Rattle.std.specs.Prelude.{List};
    ghost use Rattle.restore_pins.specs.Pins.{Listed};

    ghost Value = { List Listed };

    ghost use Rattle.restore_pins.specs.Numbers.{ArePinNumbers};

    ghost view = { λ p. p.pins.items };

    ghost invariant = { λ p. ArePinNumbers p.next p.pins.items };
}

impl Pins {
    /// Where nothing is pinned. Takes no memory.
    pub fn new(alloc: Global) -> Pins
        ensures { result ≡ [] }
    {
        Pins {
            next: 0,
            pins: Vec::new(alloc),
        }
    }

    /// Pins a version with the containers of these ids, in any order. After `Memory` the pins are as before, and the ids
    /// are gone; that is the answer too where all 2^64 - 1 numbers were given.
    pub fn pin(&mut self, alloc: Global, version: Version, ids: Vec<Id>) -> Result<PinNo, Memory>
        ensures pinned { IfOk result
            (λ no. self.new ≡ self.old ++ record { number = no; version = version; ids = ids.items } ∷ []) }
        ensures fresh { IfOk result (λ no. has no (numbers self.old) ≡ false) }
        ensures pins { (pins : List PinOf) (q : PinOf) → AreListsOf self.old pins
            → IfOk result (λ no. IsListOf (record { number = no; version = version; ids = ids.items }) q
            → AreListsOf self.new (pins ++ q ∷ [])) }
        ensures unchanged { OnErr result (self.new ≡ self.old) }
    {
        let next = self.next.checked_add(1).ok_or(Memory)?;
        let pin = Pin::new(alloc, self.next, version, ids)?;
        self.pins.push(pin)?;
        let number = self.next;
        self.next = next;
        Ok(PinNo { number })
    }

    /// Whether a pin lists the container, by one look-up for each pin. Takes no memory.
    pub fn holds(&self, id: Id) -> bool
        ensures listed { result ≡ has id (listed_ids self.now) }
        ensures pins { (pins : List PinOf) → AreListsOf self.now pins
            → result ≡ has id (map id_of (pinned_containers pins)) }
    {
        any_lists(self.pins.as_slice(), id)
    }

    /// Whether the pin of this number, which these pins gave, lists the container. Takes no memory.
    pub fn lists(&self, no: &PinNo, id: Id) -> bool
        ensures { result ≡ has id (ids_at self.now no.now) }
    {
        match place(self.pins.as_slice(), no.number) {
            Some(at) => self.pins[at].lists(id),
            None => false,
        }
    }

    /// Ends the pin of this number, which these pins gave, and returns its list as it was pinned. Takes no memory.
    pub fn release(&mut self, no: PinNo) -> Vec<Id>
        requires { IsTrue (has no (numbers self.old)) }
        ensures ids { result.items ≡ ids_at self.old no }
        ensures left { self.new ≡ without_pin no self.old }
        ensures pins { (pins : List PinOf) → AreListsOf self.old pins
            → AreListsOf self.new (pins_without no pins) }
    {
        match place(self.pins.as_slice(), no.number) {
            Some(at) => self.pins.remove(at).into_ids(),
            None => unreachable!(),
        }
    }
}
