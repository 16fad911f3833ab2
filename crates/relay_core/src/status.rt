//! The ways in which the relay ends, each with its words and its exit status.

ghost use Rattle.std.specs.Prelude.{◌≡◌};
ghost use Rattle.relay_core.specs.Codes.{code_of};

use thiserror::Error;

/// How the program ended, in words for whoever reads the agent's standard error.
#[derive(Clone, Copy, Debug, PartialEq, Eq, Error)]
pub enum RelayStatus {
    /// The agent was told what the user said.
    #[error("done")]
    Done,
    /// The agent sent a bad length, or a body that doesn't ask for this job by a plain prompt.
    #[error("the agent sent no plain request for this job")]
    BadFrame,
    /// The words are none of a relay's.
    #[error("usage: confirm_relay SOCKET JOB TICKET ASKPASS")]
    Usage,
    /// Memory ran out. Says nothing of what was read.
    #[error("out of memory")]
    Memory,
    /// A read from the agent failed.
    #[error("the agent could not be read from")]
    ReadFault,
    /// A write to the agent failed.
    #[error("the agent could not be reached or written to")]
    WriteFault,
    /// The agent ended before a whole frame.
    #[error("the agent ended before a whole request")]
    TornEnd,
}

impl RelayStatus {
    /// The exit status: that of the stand-in helper with the same meaning.
    pub fn code(self) -> u8
        ensures { result ≡ code_of self }
    {
        match self {
            RelayStatus::Done => 0,
            RelayStatus::BadFrame => 1,
            RelayStatus::Usage => 2,
            RelayStatus::Memory => 5,
            RelayStatus::ReadFault => 6,
            RelayStatus::WriteFault => 7,
            RelayStatus::TornEnd => 8,
        }
    }
}
