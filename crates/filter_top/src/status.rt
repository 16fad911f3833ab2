//! The ends of a run of the filter, each with its words and its exit status.

ghost use Rattle.std.specs.Prelude.{◌≡◌};
ghost use Rattle.filter_top.specs.Codes.{code_of};

use key_file::PubFault;
use key_purposes::PurposeFault;
use thiserror::Error;

/// How a run of the filter ended, in words for whoever started it. The exit statuses are 0 to 7 in this order; the two
/// faults of the list's file have one.
#[derive(Clone, Copy, Debug, PartialEq, Eq, Error)]
pub enum FilterStatus {
    /// Nothing will become ready any more.
    #[error("done")]
    Done,
    /// This line of the list, counted from 1, is no public key's.
    #[error("line {line} of the list is refused: {}", told(.fault))]
    BadList { line: u64, fault: PubFault },
    /// The words are none that the program takes.
    #[error("usage: filter_proxy LIST UPSTREAM PATH [PURPOSE ...]")]
    Usage,
    /// The socket could not be bound.
    #[error("the socket could not be bound")]
    BindFault,
    /// Waiting for the sockets failed.
    #[error("waiting for the sockets failed")]
    PollFault,
    /// Memory ran out. Says nothing of the outside.
    #[error("out of memory")]
    Memory,
    /// The list could not be read. The files counted that.
    #[error("the list could not be read")]
    FileFault,
    /// The list is too long.
    #[error("the list has more than 1048576 bytes")]
    FileTooLong,
    /// The words behind PATH name no purposes.
    #[error("the purposes are refused: {}", why(.fault))]
    BadPurpose { fault: PurposeFault },
}

// What a line's fault is.
fn told(fault: &PubFault) -> &'static str {
    match fault {
        PubFault::Words => "no public key: a line has a type, the key in base64, and a comment",
        PubFault::Base64 => "the public key isn't base64",
        PubFault::Key(_) => "no public key of a type that is known",
        PubFault::OtherType => "the key is of another type than its first word",
        PubFault::Memory => "out of memory",
    }
}

// Why words name no purposes.
fn why(fault: &PurposeFault) -> &'static str {
    match fault {
        PurposeFault::Missing => "there are none",
        PurposeFault::Many => "there are more than 64",
        PurposeFault::Long => "one has more than 255 bytes",
        PurposeFault::Unknown => "each is login, sshsig:NAMESPACE, sshsig or other",
        PurposeFault::Twice => "one is named twice",
        PurposeFault::Memory => "out of memory",
    }
}

impl FilterStatus {
    /// The exit status.
    pub fn code(self) -> u8
        ensures { result ≡ code_of self }
    {
        match self {
            FilterStatus::Done => 0,
            FilterStatus::BadList { .. } => 1,
            FilterStatus::Usage => 2,
            FilterStatus::BindFault => 3,
            FilterStatus::PollFault => 4,
            FilterStatus::Memory => 5,
            FilterStatus::FileFault | FilterStatus::FileTooLong => 6,
            FilterStatus::BadPurpose { .. } => 7,
        }
    }
}
