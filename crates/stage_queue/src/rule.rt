//! The rule of a line, and what each of its steps tells.
ghost use Rattle.std.specs.Prelude.{◌≡◌, true, false, [], ◌∷◌, ◌++◌, List};
ghost use Rattle.vault_types.specs.Stages.{IsLine};
ghost use Rattle.stage_queue.specs.Line.{log, Relayed};

use crossbeam_queue::protocol::{Join, Lesson, Outcome, Protocol, Split};
use crossbeam_queue::{Pass, RuledArrayQueue};
use std::collections::LinkedList;

// What a pass may do, what it has sent and what it has taken. It exists in proofs alone: no value of it is made.
pub struct Log<T> {
    pub sends: bool,
    pub takes: bool,
    pub sent: LinkedList<T>,
    pub taken: LinkedList<T>,
}

pub struct InOrder;

impl<T> Protocol<T, Log<T>> for InOrder {
    ghost holds = { Relayed };

    ghost first = { log true true [] [] };
}

// Makes the two ends, and gives them back.
pub struct Roles;

impl<T> Split<Log<T>> for Roles {
    ghost left = { λ v. log true false v.sent [] };

    ghost right = { λ v. log false true [] v.taken };
}

impl<T> Join<Log<T>> for Roles {
    ghost both = { λ v w. log true true v.sent w.taken };

    ghost spent = { log false false [] [] };
}

// A push, and what the sender learns where the line is full.
pub struct Sends;

impl<T> Outcome<T, Log<T>> for Sends {
    ghost then = { λ v x w. w ≡ log v.sends v.takes (v.sent ++ x ∷ []) v.taken };
}

impl<T> Lesson<T, Log<T>> for Sends {
    ghost fact = { λ v items. v.sends ≡ true → (taken : List T) × IsLine v.sent taken items };
}

// A pop, and what one learns who has both ends.
pub struct Takes;

impl<T> Outcome<T, Log<T>> for Takes {
    ghost then = { λ v x w. w ≡ log v.sends v.takes v.sent (v.taken ++ x ∷ []) };
}

impl<T> Lesson<T, Log<T>> for Takes {
    ghost fact = { λ v items. v.sends ≡ true → v.takes ≡ true → IsLine v.sent v.taken items };
}

pub type Line<T> = RuledArrayQueue<T, Log<T>, InOrder>;

pub type LinePass<T> = Pass<T, Log<T>>;
