//! An agent's replies as values, and why a body is none (draft-miller-ssh-agent).

ghost use Rattle.std.specs.Prelude.{◌≡◌};
ghost use Rattle.agent_msg.specs.declared.agent_reply.ReplyFault.TheVariants.{Short as TooShort, Memory};

use std::alloc::{AllocError, AllocFailed};
use wire_core::Short;

/// What an agent answers.
#[derive(Debug, Drop)]
pub enum Reply<'a> {
    /// It refused the request.
    Failure,
    /// It did what was asked.
    Success,
    /// The public key blobs that it holds, each with its comment.
    Identities(Vec<(&'a [u8], &'a [u8])>),
    /// The signature that was asked for.
    Signature(&'a [u8]),
}

/// Why a body is no reply: the first fault in the order of its fields.
#[derive(Clone, Copy, Debug, PartialEq, Eq)]
pub enum ReplyFault {
    /// The body has no bytes.
    Empty,
    /// A field passes the end of the body.
    Short,
    /// Bytes stand after the last field.
    Trailing,
    /// It has another number than FAILURE, SUCCESS, IDENTITIES_ANSWER and SIGN_RESPONSE.
    Number,
    /// Memory ran out. Says nothing of the body.
    Memory,
}

impl From<Short> for ReplyFault {
    ghost from_gives = { λ _ fault. fault ≡ TooShort };

    fn from(_short: Short) -> ReplyFault {
        ReplyFault::Short
    }
}

impl<T: Drop> From<AllocFailed<T>> for ReplyFault {
    ghost from_gives = { λ _ fault. fault ≡ Memory };

    fn from(_failed: AllocFailed<T>) -> ReplyFault {
        ReplyFault::Memory
    }
}
