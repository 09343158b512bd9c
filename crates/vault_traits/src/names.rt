// What a device answers where it doesn't do what was asked.
ghost use Rattle.std.specs.Prelude.{◌≡◌};
ghost use Rattle.vault_traits.specs.declared.names.Refused.TheVariants as refused;

use std::alloc::{AllocError, AllocFailed};

/// The device failed. Its count of faults has risen.
#[derive(Clone, Copy, Debug, PartialEq, Eq)]
pub struct Failed;

/// The device failed, and its count of faults has risen; or there was no memory.
#[derive(Clone, Copy, Debug, PartialEq, Eq)]
pub enum Refused {
    Failed,
    Memory,
}

impl From<AllocError> for Refused {
    ghost from_gives = { λ _ e. e ≡ refused.Memory };

    fn from(_: AllocError) -> Self {
        Refused::Memory
    }
}

impl<T: Drop> From<AllocFailed<T>> for Refused {
    ghost from_gives = { λ _ e. e ≡ refused.Memory };

    fn from(_: AllocFailed<T>) -> Self {
        Refused::Memory
    }
}

impl From<Failed> for Refused {
    ghost from_gives = { λ _ e. e ≡ refused.Failed };

    fn from(_: Failed) -> Self {
        Refused::Failed
    }
}
