// Which call of a device a gate guards.
ghost use Rattle.std.specs.Prelude.{◌≡◌, false};
ghost use Rattle.vault_traits.specs.Counts.{counted};

use crate::gate::Gate;

// A gate, the number of the call that it guards, counted from 1, and how many calls there were.
#[derive(Drop)]
pub struct Guard {
    gate: Gate,
    nth: u64,
    calls: u64,
}

impl Guard {
    pub fn new(gate: Gate, nth: u64) -> Self
        ensures nth { result.nth ≡ nth }
        ensures calls { result.calls ≡ 0 }
    {
        Guard {
            gate,
            nth,
            calls: 0,
        }
    }

    // Counts a call, and tells whether it goes on.
    pub fn lets_go_on(&mut self) -> bool
        ensures refused { result ≡ false → counted self.old.calls ≡ self.old.nth }
        ensures calls { self.new.calls ≡ counted self.old.calls }
        ensures nth { self.new.nth ≡ self.old.nth }
    {
        self.calls = self.calls.saturating_add(1);
        self.calls != self.nth || self.gate.opens()
    }
}
