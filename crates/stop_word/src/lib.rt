//! A word by which one of several holders, each in a thread of its own, tells the others to stop. It is raised once and
//! stays raised. No step waits: each is one access of the word.
#![tactic(auto)]

ghost use Rattle.std.specs.Prelude.{◌≡◌, ◌≤◌, ◌+◌, ◌||◌, true, false, IfOk};
ghost use Rattle.std.specs.List.{list_any};
ghost use Rattle.stop_word.specs.Holders.{Family, fresh, AreAllHolders};

mod rule;

use crate::rule::{Board, Knows, Looks, Raises, Seats, View};
use atomic_table::Seat;
use std::alloc::Global;
use std::marker::Model;
use std::sync::Arc;
use vault_types::{Fault, Memory};

/// One of the holders of a stop word. Contracts see its family (the holders that one call made), its number, whether it
/// has raised the word, and whether it saw it raised.
#[derive(Drop)]
pub struct Holder {
    board: Arc<Board, Global>,
    seat: Seat<(), View>,
    number: u32,
    raised: bool,
}

impl Model for Holder {
    ghost use Rattle.std.specs.Prelude.{◌≡◌, []};
    ghost use Rattle.std.specs.Arc.{arc_value};
    ghost use Rattle.stop_word.specs.Holders.{HolderState};

    ghost Value = { HolderState };

    ghost view = { λ h.
        record {
          family = record { word = h.seat.table_id; count = (arc_value h.board).shared.key };
          number = h.number;
          raised = h.seat.me.0.raised;
          saw = h.seat.me.0.saw;
        } };

    ghost invariant = { λ h. (h.seat.table_id ≡ (arc_value h.board).shared.table_id)
        × ((arc_value h.board).shared.table_id.words ≡ 1) × (h.seat.me.1 ≡ []) × (h.seat.me.0.parts ≡ 1)
        × (h.seat.me.0.raised ≡ h.raised) };
}

impl Holder {
    /// Raises the word. The caller shows the fault for which it does so, which is not kept. No memory.
    pub fn raise(&mut self, _fault: &Fault)
        ensures { self.new ≡ record self.old { raised = true } }
    {
        self.board.shared.swap::<Raises>(&mut self.seat, 0, 1);
        self.raised = true;
    }

    /// Whether the word was raised, at the one step of this call. A holder that has raised it, or saw it raised, sees it
    /// raised again. No memory.
    pub fn look(&mut self) -> bool
        ensures seen { result ≡ true → self.new ≡ record self.old { saw = true } }
        ensures unseen { result ≡ false → self.new ≡ self.old }
        ensures stays { self.old.raised || self.old.saw ≡ true → result ≡ true }
    {
        self.board.shared.load::<Looks>(&mut self.seat, 0) == 1
    }

    /// Its number, from 0 on, among the holders that one call made. No memory.
    pub fn number(&self) -> u32
        ensures { result ≡ self.now.number }
    {
        self.number
    }

    /// Whether this holder has raised the word. No memory.
    pub fn raised(&self) -> bool
        ensures { result ≡ self.now.raised }
    {
        self.raised
    }
}

/// The holders of a new word, which is not raised: `n` of them, with the numbers 0 to `n - 1` in this order. None has
/// raised the word or saw it raised. The only error is `Memory`, after which there is no word.
pub fn holders(alloc: Global, n: u32) -> Result<Vec<Holder>, Memory>
    requires { 1 ≤ n }
    ensures { IfOk result (λ all. (family : Family) × (family.count ≡ n) × (all.items ≡ fresh family n)) }
{
    let (table, mut seat) = Board::of_words(alloc, &[0], &n)?;
    let board = Arc::new(alloc, table)?;
    let mut all = Vec::new(alloc);
    for number in 0..n - 1 {
        let shared = Arc::try_clone(&board)?;
        let other = board.shared.split_seat::<Seats>(&mut seat);
        all.push(Holder {
            board: shared,
            seat: other,
            number,
            raised: false,
        })?;
    }
    all.push(Holder {
        board,
        seat,
        number: n - 1,
        raised: false,
    })?;
    Ok(all)
}

// Some holders taken together.
#[derive(Drop)]
struct Pile {
    board: Arc<Board, Global>,
    seat: Seat<(), View>,
}

impl Model for Pile {
    ghost use Rattle.std.specs.Prelude.{◌≡◌, ◌<◌, []};
    ghost use Rattle.std.specs.Arc.{arc_value};
    ghost use Rattle.stop_word.specs.Holders.{Gathered};

    ghost Value = { Gathered };

    ghost view = { λ h.
        record {
          family = record { word = h.seat.table_id; count = (arc_value h.board).shared.key };
          parts = h.seat.me.0.parts;
          raised = h.seat.me.0.raised;
          saw = h.seat.me.0.saw;
        } };

    ghost invariant = { λ h. (h.seat.table_id ≡ (arc_value h.board).shared.table_id)
        × ((arc_value h.board).shared.table_id.words ≡ 1) × (h.seat.me.1 ≡ []) × (0 < h.seat.me.0.parts) };
}

impl Pile {
    fn of(holder: Holder) -> Pile
        ensures { result
            ≡ record { family = holder.family; parts = 1; raised = holder.raised; saw = holder.saw } }
    {
        let Holder { board, seat, .. } = holder;
        Pile { board, seat }
    }

    fn add(&mut self, holder: Holder)
        requires { holder.family ≡ self.old.family }
        ensures { self.new
            ≡ record {
              family = self.old.family;
              parts = self.old.parts + 1;
              raised = self.old.raised || holder.raised;
              saw = self.old.saw || holder.saw;
            } }
    {
        let Holder { seat, .. } = holder;
        self.board.shared.join_seat::<Seats>(&mut self.seat, seat);
    }

    fn is_raised(mut self) -> bool
        requires { self.parts ≡ self.family.count }
        ensures raised { result ≡ self.raised }
        ensures seen { self.saw ≡ true → result ≡ true }
    {
        self.board.shared.load::<Knows>(&mut self.seat, 0) == 1
    }
}

/// Whether the word was raised, by one of its holders, who are all back, in any order. A holder that ever saw the word
/// raised shows that one has raised it. No memory: keep the list that `holders` gave, and its room, for the way back.
pub fn gather(mut all: Vec<Holder>) -> bool
    requires { AreAllHolders all.items }
    ensures raised { result ≡ list_any (λ h. h.raised) all.items }
    ensures seen { list_any (λ h. h.saw) all.items ≡ true → result ≡ true }
{
    let Some(last) = all.pop() else {
        unreachable!()
    };
    let mut pile = Pile::of(last);
    while let Some(holder) = all.pop() {
        pile.add(holder);
    }
    pile.is_raised()
}
