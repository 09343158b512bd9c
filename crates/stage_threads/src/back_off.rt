//! How long one waits who found nothing to do, so that waiting is short where work comes soon and costs next to nothing where
//! it does not.
ghost use Rattle.std.specs.Prelude.{◌≡◌, ◌+◌, min};
ghost use Rattle.stage_threads.specs.Pauses.{pause_after};

use std::marker::Model;
use std::time::{Clock, Duration};
use std::{hint, thread};

/// What one does in a pause.
#[derive(Clone, Copy, Debug, PartialEq, Eq)]
pub enum Pause {
    /// So many hints to the processor.
    Spin(u32),
    /// Leaves the processor to another thread that wants it.
    Yield,
    /// Sleeps for so many microseconds.
    Sleep(u32),
}

/// How many pauses there were since something moved. Contracts see that number.
#[derive(Drop)]
pub struct BackOff {
    pauses: u32,
}

impl Model for BackOff {
    ghost use Rattle.std.specs.Prelude.{ℕ, ◌≤◌};
    ghost use Rattle.stage_threads.specs.declared.back_off.TheConstants.BackOff.{LONGEST};

    ghost Value = { ℕ };

    ghost view = { λ b. b.pauses };

    ghost invariant = { λ b. b.pauses ≤ LONGEST };
}

impl BackOff {
    /// From so many pauses in a row on, all are alike: sleeps of 2,048 microseconds.
    pub const LONGEST: u32 = 151;

    pub fn new() -> BackOff
        ensures { result ≡ 0 }
    {
        BackOff { pauses: 0 }
    }

    /// Something moved: the next pause is the shortest again.
    pub fn reset(&mut self)
        ensures { self.new ≡ 0 }
    {
        self.pauses = 0;
    }

    /// The pause that is due.
    pub fn next_pause(&mut self) -> Pause
        ensures pause { result ≡ pause_after self.old }
        ensures count { self.new ≡ min (self.old + 1) BackOff.LONGEST }
    {
        let after = self.pauses;
        self.pauses = (after + 1).min(BackOff::LONGEST);
        match after {
            0..=6 => Pause::Spin(1 << after),
            7..=38 => Pause::Yield,
            39..=102 => Pause::Sleep(32),
            103..=134 => Pause::Sleep(128),
            135..=150 => Pause::Sleep(512),
            _ => Pause::Sleep(2048),
        }
    }

    /// Makes the pause that is due.
    pub fn wait<C: Clock>(&mut self, clock: &C)
        ensures { self.new ≡ min (self.old + 1) BackOff.LONGEST }
    {
        match self.next_pause() {
            Pause::Spin(times) => {
                for _ in 0..times {
                    hint::spin_loop();
                }
            }
            Pause::Yield => thread::yield_now(),
            Pause::Sleep(micros) => thread::sleep(clock, Duration::from_micros(u64::from(micros))),
        }
    }
}
