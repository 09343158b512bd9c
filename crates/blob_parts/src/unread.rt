// Why bytes were not read.
ghost use Rattle.std.specs.Prelude.{◌≡◌};
ghost use Rattle.blob_parts.specs.declared.unread.Unread.TheVariants as unread;

use std::alloc::{AllocError, AllocFailed};
use vault_types::Memory;

/// Why bytes were not read: there was no memory, or they spell something else.
#[derive(Clone, Copy, Debug, PartialEq, Eq)]
pub enum Unread {
    Memory,
    Spelling,
}

impl From<AllocError> for Unread {
    ghost from_gives = { λ _ e. e ≡ unread.Memory };

    fn from(_: AllocError) -> Self {
        Unread::Memory
    }
}

impl<T: Drop> From<AllocFailed<T>> for Unread {
    ghost from_gives = { λ _ e. e ≡ unread.Memory };

    fn from(_: AllocFailed<T>) -> Self {
        Unread::Memory
    }
}

impl From<Memory> for Unread {
    ghost from_gives = { λ _ e. e ≡ unread.Memory };

    fn from(_: Memory) -> Self {
        Unread::Memory
    }
}
