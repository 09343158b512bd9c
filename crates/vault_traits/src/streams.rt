// Sources and sinks of bytes.
ghost use Rattle.std.specs.Prelude.{◌≡◌, ◌<◌, ◌≤◌, ℕ, [], length, take, IfOk, OnErr, IfSome};
ghost use Rattle.vault_traits.specs.Counts.{HasFailed};
ghost use Rattle.vault_traits.specs.Told.{SourceTold, SinkTold, Gives, Takes};

use crate::Failed;

/// A stream of bytes that is read from its front to its end. What it tells is what is left.
pub trait Source {
    /// What is left, where the source tells that, and how often it has failed.
    ghost told: { Self → SourceTold };

    /// Reads the next bytes to the front of the buffer, and says how many. No bytes are the end, and come only where
    /// nothing is left. After an `Err` what is left is as before. It takes no memory.
    fn read(&mut self, buf: &mut [u8]) -> Result<usize, Failed>
        requires { 0 < length buf.old }
        ensures fits { IfOk result (λ n. n ≤ length buf.old) }
        ensures given { IfOk result (λ n. Gives (told self.old).left (told self.new).left (take n buf.new)) }
        ensures end { IfOk result (λ n. n ≡ 0 → IfSome (told self.old).left (λ x. x ≡ [])) }
        ensures err { OnErr result ((told self.new).left ≡ (told self.old).left) }
        ensures cause { HasFailed (told self.old).faults (told self.new).faults result };

    /// How often it has failed.
    fn faults(&self) -> u64
        ensures { result ≡ (told self.now).faults };
}

/// A stream of bytes that is written at its end. What it tells is what it has taken.
pub trait Sink {
    /// What the sink has taken, where it tells that, and how often it has failed.
    ghost told: { Self → SinkTold };

    /// Takes some bytes from the front of the piece, at least one, and says how many: a device that takes nothing has
    /// failed. After an `Err` nothing of the piece was taken. It takes no memory.
    fn write(&mut self, piece: &[u8]) -> Result<usize, Failed>
        requires { 0 < length piece.now }
        ensures some { IfOk result (λ n. (0 < n) × (n ≤ length piece.now)) }
        ensures taken { IfOk result
            (λ n. Takes (told self.old).taken (told self.new).taken (take n piece.now)) }
        ensures err { OnErr result ((told self.new).taken ≡ (told self.old).taken) }
        ensures cause { HasFailed (told self.old).faults (told self.new).faults result };

    /// How often it has failed.
    fn faults(&self) -> u64
        ensures { result ≡ (told self.now).faults };
}
