//! A stage of a pipeline in a thread of its own, or kept by the caller where the thread was refused.
//!
//! A stage is a machine that is driven by turns (`Stage`). `StageThread::start` gives it to a thread, which gives it turns
//! until it is done and then gives it back, under one promise: its lines and settings are those of the stage that was handed
//! in. Where the host refuses the thread, the stage comes back at once under the same promise, is kept, and has its turns from
//! the caller. No clause says that a thread gets on.
#![tactic(auto)]

ghost use Rattle.std.specs.Prelude.{◌≡◌, ◌↔◌, ◌⊎◌};
ghost use Rattle.vault_types.specs.declared.Turn.{Turn};
ghost use Rattle.vault_types.specs.declared.Turn.TheVariants.{Moved, Done};

mod back_off;
mod stage_thread;

pub use crate::back_off::{BackOff, Pause};
pub use crate::stage_thread::{StageRoom, StageThread};
use std::sync::Wait;
use vault_types::Turn;

/// A machine that is driven by turns. A turn takes or sends at most a few items and does not wait for a line: where it finds
/// nothing to do it answers `Idle`, and from `Done` on it has no more to do.
pub trait Stage: Drop {
    // the second has the lines and settings of the first, and has come at least as far
    ghost same: { Self → Self → Type 0 };

    // what a turn tells: the stage before it, its answer, and the stage after it
    ghost turned: { Self → Turn → Self → Type 0 };

    fn turn<R: Wait>(&mut self, rt: &R) -> Turn
        ensures same { same self.old self.new }
        ensures turned { turned self.old result self.new };

    ghost same_refl: { (s : Self) → same s s };

    ghost same_trans: { (a b c : Self) → same a b → same b c → same a c };
}

/// What turns of two machines come to: `Done` where both are done, `Moved` where one moved, and else `Idle`.
pub fn together(first: Turn, second: Turn) -> Turn
    ensures done { (result ≡ Done) ↔ ((first ≡ Done) × (second ≡ Done)) }
    ensures moved { (result ≡ Moved) ↔ ((first ≡ Moved) ⊎ (second ≡ Moved)) }
{
    match (first, second) {
        (Turn::Done, Turn::Done) => Turn::Done,
        (Turn::Moved, _) | (_, Turn::Moved) => Turn::Moved,
        _ => Turn::Idle,
    }
}
