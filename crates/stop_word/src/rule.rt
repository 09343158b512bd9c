//! The rule of a stop word, and what each of its steps tells.
ghost use Rattle.std.specs.Prelude.{◌≡◌, ◌+◌, ◌-◌, true, false, ◌||◌, ◌==◌};
ghost use Rattle.stop_word.specs.Word.{IsConsistent, seen_as};

use atomic_table::{Join, Play, Split, Table, TableRule};
use std::alloc::Global;

// What a holder knows: whether it has raised the word and saw it raised. It exists in proofs alone: no value of it is made.
// A view with no part is spent.
pub struct View {
    pub parts: u64,
    pub raised: bool,
    pub saw: bool,
}

pub struct Rule;

impl TableRule<(), View, u32> for Rule {
    ghost holds = { λ count s. IsConsistent count s };

    ghost first = { λ count. seen_as count false false };
}

// Makes a seat, or takes another in.
pub struct Seats;

impl Split<View> for Seats {
    ghost left = { λ v. seen_as (v.parts - 1) v.raised v.saw };

    ghost right = { λ v. seen_as 1 false false };
}

impl Join<View> for Seats {
    ghost both = { λ v w. seen_as (v.parts + w.parts) (v.raised || w.raised) (v.saw || w.saw) };

    ghost spent = { seen_as 0 false false };
}

pub struct Raises;

impl Play<(), View> for Raises {
    ghost then = { λ step me n after. after ≡ (seen_as me.0.parts true me.0.saw, me.1) };
}

pub struct Looks;

impl Play<(), View> for Looks {
    ghost then = { λ step me n after. (after ≡ (seen_as me.0.parts me.0.raised (me.0.saw || (n == 1)), me.1))
        × (me.0.raised || me.0.saw ≡ true → n ≡ 1) };
}

// A look by one that has every part.
pub struct Knows;

impl Play<(), View> for Knows {
    ghost then = { λ step me n after. (after.0 ≡ me.0) × ((n == 1) ≡ me.0.raised)
        × (me.0.saw ≡ true → n ≡ 1) };
}

pub type Board = Table<(), View, u32, Rule, Global>;
