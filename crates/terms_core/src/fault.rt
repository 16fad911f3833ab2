//! Why a request is not passed on, and why no whole frame came.

ghost use Rattle.std.specs.Prelude.{◌≡◌};
ghost use Rattle.terms_core.specs.declared.fault.BodyFault.TheVariants.{Memory};

use std::alloc::AllocError;

/// Why a request is not passed on.
#[derive(Clone, Copy, Debug, PartialEq, Eq)]
pub enum BodyFault {
    /// With the terms it is longer than an agent takes.
    TooLong,
    /// A constraint of the kind of one of the terms stands there already.
    Twice,
    /// Memory ran out. Says nothing of the request.
    Memory,
}

impl From<AllocError> for BodyFault {
    ghost from_gives = { λ _ fault. fault ≡ Memory };

    fn from(_: AllocError) -> BodyFault {
        BodyFault::Memory
    }
}

/// Why no whole frame came.
#[derive(Clone, Copy, Debug, PartialEq, Eq)]
pub enum HearStop {
    /// A length that no frame has.
    Bad,
    /// The end, between two frames.
    End,
    /// The end within a frame.
    Torn,
    /// The connection failed, which counted that.
    Failed,
    /// Memory ran out, before anything was read.
    Memory,
}
