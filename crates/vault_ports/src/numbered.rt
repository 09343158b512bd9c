// Which calls of a device fail.
ghost use Rattle.std.specs.Prelude.{◌≡◌, ◌↔◌, IsTrue, Contains};
ghost use Rattle.vault_traits.specs.Counts.{counted};

// The numbers of the calls that fail, counted from 1, and how many calls there were.
#[derive(Drop)]
pub struct Numbered {
    fail: Vec<u64>,
    calls: u64,
}

impl Numbered {
    pub fn new(fail: Vec<u64>) -> Self
        ensures fail { result.fail ≡ fail }
        ensures calls { result.calls ≡ 0 }
    {
        Numbered { fail, calls: 0 }
    }

    // Counts a call, and tells whether it fails.
    pub fn fails(&mut self) -> bool
        ensures numbered { IsTrue result ↔ Contains self.old.fail.items (counted self.old.calls) }
        ensures calls { self.new.calls ≡ counted self.old.calls }
        ensures fail { self.new.fail ≡ self.old.fail }
    {
        self.calls = self.calls.saturating_add(1);
        let number = self.calls;
        self.fail.iter().any(|n| *n == number)
    }
}
