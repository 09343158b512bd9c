//! A check of payloads whose first two calls wait for each other, for tests with threads.
#![tactic(auto)]

use payload_health::{Health, verdict};
use scrub::Check;
use std::alloc::Global;
use std::sync::atomic::{AtomicBool, AtomicU64, Ordering};
use vault_gates::{Gate, gates};
use vault_types::{Memory, Table};

/// Gives the verdict. Each of its first two calls sets a flag of its own first, and looks for that of the other, 1,000,000,000
/// times at most.
#[derive(Drop)]
pub struct GateCheck {
    first: Gate,
    second: Gate,
    calls: AtomicU64,
    first_met: AtomicBool,
    second_met: AtomicBool,
}

impl GateCheck {
    /// Neither flag is set. The only error is `Memory`.
    pub fn new(alloc: Global) -> Result<GateCheck, Memory> {
        let (first, second) = gates(alloc)?;
        Ok(GateCheck {
            first,
            second,
            calls: AtomicU64::new(0),
            first_met: AtomicBool::new(false),
            second_met: AtomicBool::new(false),
        })
    }

    /// Whether each of the first two calls has seen the other's flag. It takes no memory.
    pub fn met(&self) -> [bool; 2] {
        [
            self.first_met.load(Ordering::SeqCst),
            self.second_met.load(Ordering::SeqCst),
        ]
    }
}

impl Check for GateCheck {
    fn check(&self, table: &Table, payload: Option<&[u8]>) -> Health {
        match self.calls.fetch_add(1, Ordering::SeqCst) {
            0 => self.first_met.store(self.first.opens(), Ordering::SeqCst),
            1 => self.second_met.store(self.second.opens(), Ordering::SeqCst),
            _ => {}
        }
        verdict(table, payload)
    }
}
