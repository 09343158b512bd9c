// What a run of lines with restores beside them needs: a keeper with places, and restores that run.
ghost use Rattle.std.specs.Prelude.{◌≡◌, ◌++◌, ◌∷◌, [], List, Option, None, Some, IfSome};
ghost use Rattle.vault_types.specs.declared.Line.{Line};
ghost use Rattle.vault_types.specs.declared.Name.{Name};
ghost use Rattle.vault_types.specs.Events.{Change};
ghost use Rattle.vault_types.specs.State.{State};
ghost use Rattle.vault_traits.specs.Files.{IsThere};
ghost use Rattle.store_model.specs.Ranges.{AreLimits, IsLineInRange};
ghost use Rattle.store_model.specs.Steps.{Moment};
ghost use Rattle.store_model.specs.Strays.{StraysOf};
ghost use Rattle.beside_laws.specs.Running.{Past, with_answer};
ghost use Rattle.beside_laws.specs.Steps.{EndsRestore};
ghost use Rattle.beside_runner.specs.Turns.{GoesOn, HasBegun, HasGoneOn, begun_line, line_left, with_begun};

use beside_laws::PinnedKeeper;
use std::alloc::Global;
use std::sync::Wait;
use vault_types::{Answer, Limits, Line, Turn};

/// A restore that runs.
pub trait RunningRestore<K: PinnedKeeper>: Drop {
    /// What has been of it.
    ghost past: { Self → Past K };

    /// The place of its line among the lines.
    fn place(&self) -> usize
        ensures { result ≡ (Self.past self.now).place };
}

/// What comes of a line as it begins.
#[derive(Drop)]
pub enum Begun<E: Drop> {
    /// It is done or refused.
    Answered(Answer),
    /// It is a restore, which runs from now on.
    Running(E),
    /// It goes on by parts.
    InParts,
}

/// What comes of a part of a line.
#[derive(Drop)]
pub enum LineTurn {
    /// It got on.
    Moved,
    /// It waits for something.
    Idle,
    /// It is done or refused.
    Answered(Answer),
}

/// A keeper with places, and with restores that run beside the line that it is in. `E` is a restore
/// that runs, and `Y` its reply, with which it ends.
pub trait World<K: PinnedKeeper, E: RunningRestore<K>, Y: Drop> {
    /// The keeper, and what the places tell.
    ghost now: { Self → Moment K };

    /// These restores run.
    ghost holds: { Self → List E → Type 0 };

    /// The line that goes on by parts, if it is in one.
    ghost in_line: { Self → Option Line };

    /// This is the restore's reply.
    ghost replied: { E → Y → Type 0 };

    /// Begins the line at this place: it answers, it runs from now on, or it goes on by parts.
    fn begin(&mut self, alloc: Global, line: &Line, limits: &Limits, at: usize) -> Begun<E>
        requires between { Self.in_line self.old ≡ None }
        requires range { IsLineInRange line.now }
        requires limits { AreLimits limits.now }
        ensures begun { HasBegun K.shelf K.keeps K.strays E.past limits.now (Self.now self.old) line.now at
            (Self.now self.new) result }
        ensures holds { (xs : List E) → Self.holds self.old xs
            → Self.holds self.new (with_begun xs result) }
        ensures line { Self.in_line self.new ≡ begun_line line.now result };

    /// Does a part of the line that it is in, or waits for nothing where there is nothing to do.
    fn go_on<R: Wait>(&mut self, rt: &R, alloc: Global, line: &Line, limits: &Limits) -> LineTurn
        requires within { Self.in_line self.old ≡ Some line.now }
        requires range { IsLineInRange line.now }
        requires limits { AreLimits limits.now }
        ensures on { HasGoneOn K.shelf K.keeps K.strays limits.now (Self.now self.old) line.now
            (Self.now self.new) result }
        ensures holds { (xs : List E) → Self.holds self.old xs → Self.holds self.new xs }
        ensures line { Self.in_line self.new ≡ line_left line.now result };

    /// Gives the restore what it waits for, as a payload, also within a line.
    fn feed<R: Wait>(&mut self, rt: &R, entry: &mut E) -> Turn
        requires held { (first : List E) × (later : List E)
            × Self.holds self.old (first ++ entry.old ∷ later) }
        ensures on { GoesOn K.shelf K.keeps K.strays (Self.now self.old) (E.past entry.old)
            (E.past entry.new) (Self.now self.new) }
        ensures holds { (first later : List E) → Self.holds self.old (first ++ entry.old ∷ later)
            → Self.holds self.new (first ++ entry.new ∷ later) }
        ensures line { Self.in_line self.new ≡ Self.in_line self.old };

    /// The restore's reply, where it has come.
    fn reply<R: Wait>(&self, rt: &R, entry: &mut E) -> Option<Y>
        requires held { (first : List E) × (later : List E)
            × Self.holds self.now (first ++ entry.old ∷ later) }
        ensures past { E.past entry.new ≡ E.past entry.old }
        ensures reply { IfSome result (λ y. Self.replied entry.new y) }
        ensures holds { (first later : List E) → Self.holds self.now (first ++ entry.old ∷ later)
            → Self.holds self.now (first ++ entry.new ∷ later) };

    /// Ends the restore with its reply: its answer.
    fn end<R: Wait>(&mut self, rt: &R, limits: &Limits, entry: E, reply: Y) -> Answer
        requires between { Self.in_line self.old ≡ None }
        requires held { (first : List E) × (later : List E) × Self.holds self.old (first ++ entry ∷ later) }
        requires reply { Self.replied entry reply }
        requires there { IsThere (Self.now self.old).places.files (E.past entry).name }
        ensures ends { EndsRestore K.shelf K.keeps K.strays limits.now (Self.now self.old)
            (with_answer result (E.past entry)) (Self.now self.new) }
        ensures holds { (first later : List E) → Self.holds self.old (first ++ entry ∷ later)
            → Self.holds self.new (first ++ later) }
        ensures line { Self.in_line self.new ≡ None };

    /// Where no restore runs and no line goes on, each stray is known.
    ghost strays_known: { (w : Self) → holds w [] → in_line w ≡ None → (S : State) (other : Option Change)
        → K.keeps (now w).keeper S other → (n : Name) → StraysOf (K.shelf (now w).keeper) S n
        → K.strays (now w).keeper n };
}
