//! Why an ask is refused, and why the helper's stream is faulty.

ghost use Rattle.std.specs.Prelude.{◌≡◌};
ghost use Rattle.helper_link.specs.declared.fault.AskFault.TheVariants.{Memory};

use std::alloc::{AllocError, AllocFailed};

/// Why an ask was refused. The first that holds, in this order.
#[derive(Clone, Copy, Debug, PartialEq, Eq)]
pub enum AskFault {
    /// 256 asks are unanswered, or their bodies have 8388608 bytes (8 MiB) or more together.
    Full,
    /// The number 2^64 - 1 was used.
    NumbersSpent,
    /// Memory ran out. Says nothing of the link.
    Memory,
}

impl From<AllocError> for AskFault {
    ghost from_gives = { λ _ fault. fault ≡ Memory };

    fn from(_error: AllocError) -> AskFault {
        AskFault::Memory
    }
}

/// Why the helper's stream is faulty: the fault of its first faulty frame.
#[derive(Clone, Copy, Debug, PartialEq, Eq)]
pub enum LinkFault {
    /// The frame announces 0 or more than 262144 bytes, or its body is none of SIGNED, REFUSED,
    /// TRUE and FALSE.
    BadFrame,
    /// No ask of this number is unanswered.
    NotPending { ask: u64 },
    /// SIGNED or REFUSED answers a verification, or TRUE or FALSE answers a signing.
    WrongKind { ask: u64 },
}
