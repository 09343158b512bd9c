// Gates, in pairs.
ghost use Rattle.std.specs.Prelude.{◌≡◌, IfOk};

use std::alloc::Global;
use std::marker::Model;
use std::sync::Arc;
use std::sync::atomic::{AtomicBool, Ordering};
use std::{hint, thread};
use vault_types::Memory;

/// How often a gate looks at the other one's flag at most.
pub const LOOKS: u64 = 1_000_000_000;

// After so many looks the thread lets another one run.
const LOOKS_BEFORE_A_YIELD: u64 = 1_024;

/// One of two gates. The call that it guards sets its flag, looks at the other one's flag, and goes on once it has seen
/// that set; it fails where so many looks have not seen it. Contracts see a gate as that number.
#[derive(Drop)]
pub struct Gate {
    mine: Arc<AtomicBool, Global>,
    other: Arc<AtomicBool, Global>,
    looks: u64,
}

impl Model for Gate {
    ghost use Rattle.std.specs.Prelude.{ℕ};

    ghost Value = { ℕ };

    ghost view = { λ g. g.looks };
}

impl Gate {
    // Sets the flag, and tells whether the other one was seen set.
    pub fn opens(&self) -> bool {
        self.mine.store(true, Ordering::SeqCst);
        for look in 0..self.looks {
            if self.other.load(Ordering::SeqCst) {
                return true;
            }
            if look % LOOKS_BEFORE_A_YIELD == 0 {
                thread::yield_now();
            } else {
                hint::spin_loop();
            }
        }
        false
    }
}

/// Two gates, each the other one of the other, that look `LOOKS` times at most. Both flags are unset.
pub fn gates(alloc: Global) -> Result<(Gate, Gate), Memory>
    ensures first { IfOk result (λ pair. pair.0 ≡ 1000000000) }
    ensures second { IfOk result (λ pair. pair.1 ≡ 1000000000) }
{
    gates_that_look(alloc, LOOKS)
}

// Two gates that look so many times at most.
pub fn gates_that_look(alloc: Global, looks: u64) -> Result<(Gate, Gate), Memory>
    ensures first { IfOk result (λ pair. pair.0 ≡ looks) }
    ensures second { IfOk result (λ pair. pair.1 ≡ looks) }
{
    let one = Arc::new(alloc, AtomicBool::new(false))?;
    let two = Arc::new(alloc, AtomicBool::new(false))?;
    let first = Gate {
        mine: Arc::try_clone(&one)?,
        other: Arc::try_clone(&two)?,
        looks,
    };
    let second = Gate {
        mine: two,
        other: one,
        looks,
    };
    Ok((first, second))
}
