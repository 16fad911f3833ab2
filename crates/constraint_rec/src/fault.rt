//! Why the constraints of a key are refused, from fields that are too short to want of memory.

ghost use Rattle.std.specs.Prelude.{◌≡◌};
ghost use Rattle.constraint_rec.specs.declared.fault.TermFault.TheVariants.{Short as TooShort, Memory};
ghost use Rattle.constraint_rec.specs.PurposeReading.{term_fault};

use key_purposes::PurposeFault;
use std::alloc::{AllocError, AllocFailed};
use wire_core::Short;

/// Why constraints were refused: the first fault in the order of the bytes.
#[derive(Clone, Copy, Debug, PartialEq, Eq)]
pub enum TermFault {
    /// Too few bytes for a field, or bytes behind a destination constraint's reserved string.
    Short = 1,
    /// A byte that begins no constraint, or an extension of another name.
    Unknown = 2,
    /// A constraint of one kind comes again. Found before its contents are read.
    Twice = 3,
    /// A reserved string is not empty.
    Reserved = 4,
    /// The hop that is left names a user.
    FromUser = 5,
    /// The hop that is left has a hostname and no keys, or keys and no hostname.
    FromHalf = 6,
    /// The hop that is entered has no hostname or no keys.
    ToHalf = 7,
    /// The list of destination constraints is empty.
    NoRules = 8,
    /// A blob is no key that is read.
    Key = 9,
    /// Memory ran out. Says nothing of the bytes.
    Memory = 10,
    /// The number of uses is 0.
    NoUses = 11,
    /// The list of purposes is empty.
    NoPurposes = 12,
    /// A purpose is longer than 255 bytes, or none that is known, or comes again, or follows 64 others.
    BadPurpose = 13,
}

impl From<Short> for TermFault {
    ghost from_gives = { λ _ fault. fault ≡ TooShort };

    fn from(_short: Short) -> TermFault {
        TermFault::Short
    }
}

impl From<PurposeFault> for TermFault {
    ghost from_gives = { λ of_word fault. fault ≡ term_fault of_word };

    fn from(fault: PurposeFault) -> TermFault {
        match fault {
            PurposeFault::Missing => TermFault::NoPurposes,
            PurposeFault::Memory => TermFault::Memory,
            _ => TermFault::BadPurpose,
        }
    }
}

impl From<AllocError> for TermFault {
    ghost from_gives = { λ _ fault. fault ≡ Memory };

    fn from(_error: AllocError) -> TermFault {
        TermFault::Memory
    }
}

impl<T: Drop> From<AllocFailed<T>> for TermFault {
    ghost from_gives = { λ _ fault. fault ≡ Memory };

    fn from(_error: AllocFailed<T>) -> TermFault {
        TermFault::Memory
    }
}
