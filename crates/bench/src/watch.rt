// A stopwatch, and why a measurement stops.
use std::alloc::{AllocError, AllocFailed};
use std::io;
use std::time::Instant;
use vault_traits::Failed;
use vault_types::{Fault, Memory};

/// There was no memory, the host refused something, or a call was refused.
#[derive(Clone, Copy)]
pub enum Stop {
    Memory,
    Host,
    Refused,
}

impl From<Memory> for Stop {
    fn from(_: Memory) -> Self {
        Stop::Memory
    }
}

impl From<AllocError> for Stop {
    fn from(_: AllocError) -> Self {
        Stop::Memory
    }
}

impl<T: Drop> From<AllocFailed<T>> for Stop {
    fn from(_: AllocFailed<T>) -> Self {
        Stop::Memory
    }
}

impl From<io::Error> for Stop {
    fn from(_: io::Error) -> Self {
        Stop::Host
    }
}

impl From<Failed> for Stop {
    fn from(_: Failed) -> Self {
        Stop::Host
    }
}

impl From<Fault> for Stop {
    fn from(_: Fault) -> Self {
        Stop::Refused
    }
}

/// A stopwatch. It tells at its end whether the clock failed.
#[derive(Clone, Copy)]
pub struct Watch {
    since: Instant,
    has_failed: bool,
}

impl Watch {
    pub fn start(rt: HostRuntime) -> Result<Watch, Stop> {
        Ok(Watch {
            since: Instant::now(&rt)?,
            has_failed: false,
        })
    }

    /// The nanoseconds since the start or the last lap, at most the last value of a `u64`, and 0 where the clock fails.
    pub fn lap(&mut self, rt: HostRuntime) -> u64 {
        match Instant::now(&rt) {
            Ok(now) => {
                let took = now.duration_since(self.since).as_nanos();
                self.since = now;
                u64::try_from(took).unwrap_or(u64::MAX)
            }
            Err(_) => {
                self.has_failed = true;
                0
            }
        }
    }

    pub fn end(self) -> Result<(), Stop> {
        if self.has_failed {
            return Err(Stop::Host);
        }
        Ok(())
    }
}

/// Megabytes a second: bytes for each microsecond.
pub fn rate(bytes: u64, nanos: u64) -> u64 {
    bytes / (nanos / 1000).max(1)
}
