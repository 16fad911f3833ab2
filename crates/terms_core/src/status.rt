//! The ways in which a relay ends, each with its words and its exit status.

ghost use Rattle.std.specs.Prelude.{◌≡◌};
ghost use Rattle.terms_core.specs.Codes.{code_of};

use add_words::PurposeFault;
use thiserror::Error;

/// How a relay ended, in words for the user.
#[derive(Clone, Copy, Debug, PartialEq, Eq, Error)]
pub enum TermsStatus {
    /// The client ended between two requests, and each was passed on and replied to.
    #[error("done")]
    Done,
    /// The client announced a length that no request has.
    #[error("a request of no bytes, or of more than an agent takes")]
    BadRequest,
    /// The words are none of the program's.
    #[error("usage: terms_relay [-u COUNT] [-p PURPOSE] ... SOCKET AGENT")]
    Usage,
    /// An addition is with the terms longer than an agent takes. Nothing of it was sent.
    #[error("with its terms the key is longer than an agent takes")]
    TooLong,
    /// An addition has a constraint of the kind of one of the terms already. Nothing of it was sent.
    #[error("a constraint was given twice")]
    Twice,
    /// Memory ran out.
    #[error("out of memory")]
    Memory,
    /// A read failed.
    #[error("the client or the agent could not be read from")]
    ReadFault,
    /// A write failed.
    #[error("the client or the agent could not be written to")]
    WriteFault,
    /// The client ended within a request.
    #[error("the client ended within a request")]
    TornEnd,
    /// The agent announced a length that no reply has.
    #[error("the agent sent no reply")]
    BadReply,
    /// The agent ended before a whole reply.
    #[error("the agent ended before a whole reply")]
    LostAgent,
    /// A word behind `-p` names no purpose, or they are too many.
    #[error("the purposes are refused: {}", why(.fault))]
    BadPurpose { fault: PurposeFault },
}

// Why words name no purposes.
fn why(fault: &PurposeFault) -> &'static str {
    match fault {
        PurposeFault::Missing => "there are none",
        PurposeFault::Many => "there are more than 64",
        PurposeFault::Long => "one has more than 255 bytes",
        PurposeFault::Unknown => "each is login, sshsig:NAMESPACE, sshsig or other",
        PurposeFault::Twice => "one is named twice",
        PurposeFault::Memory => "out of memory",
    }
}

impl TermsStatus {
    /// The exit status: that of the other programs with the same meaning, where they have it.
    pub fn code(self) -> u8
        ensures { result ≡ code_of self }
    {
        match self {
            TermsStatus::Done => 0,
            TermsStatus::BadRequest => 1,
            TermsStatus::Usage => 2,
            TermsStatus::TooLong => 3,
            TermsStatus::Twice => 4,
            TermsStatus::Memory => 5,
            TermsStatus::ReadFault => 6,
            TermsStatus::WriteFault => 7,
            TermsStatus::TornEnd => 8,
            TermsStatus::BadReply => 9,
            TermsStatus::LostAgent => 10,
            TermsStatus::BadPurpose { .. } => 11,
        }
    }
}
