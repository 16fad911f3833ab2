//! Why a body isn't told.

ghost use Rattle.std.specs.Prelude.{◌≡◌};
ghost use Rattle.redact_core.specs.declared.fault.RedactFault.TheVariants.{Memory};

use std::alloc::AllocError;

/// Why a body isn't told.
#[derive(Clone, Copy, Debug, PartialEq, Eq)]
pub enum RedactFault {
    /// Memory ran out. Says nothing of the body.
    Memory,
    /// The passphrases that came take more room than they may.
    Full,
}

impl From<AllocError> for RedactFault {
    ghost from_gives = { λ _ fault. fault ≡ Memory };

    fn from(_: AllocError) -> RedactFault {
        RedactFault::Memory
    }
}
