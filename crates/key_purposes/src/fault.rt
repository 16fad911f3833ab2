//! Why words are no purposes.

ghost use Rattle.std.specs.Prelude.{◌≡◌};
ghost use Rattle.key_purposes.specs.declared.fault.PurposeFault.TheVariants.{Memory};

use std::alloc::{AllocError, AllocFailed};

/// Why words are no purposes: the first fault from left to right.
#[derive(Clone, Copy, Debug, PartialEq, Eq)]
pub enum PurposeFault {
    /// There are no words.
    Missing = 1,
    /// There are more than 64 words. Found before the 65th is looked at.
    Many = 2,
    /// A word has more than 255 bytes.
    Long = 3,
    /// A word names no purpose.
    Unknown = 4,
    /// A word comes again.
    Twice = 5,
    /// Memory ran out. Says nothing of the words.
    Memory = 6,
}

impl From<AllocError> for PurposeFault {
    ghost from_gives = { λ _ fault. fault ≡ Memory };

    fn from(_error: AllocError) -> PurposeFault {
        PurposeFault::Memory
    }
}

impl<T: Drop> From<AllocFailed<T>> for PurposeFault {
    ghost from_gives = { λ _ fault. fault ≡ Memory };

    fn from(_error: AllocFailed<T>) -> PurposeFault {
        PurposeFault::Memory
    }
}
