//! How an audit ends, and the exit status that says so.

ghost use Rattle.std.specs.Prelude.{◌≡◌};
ghost use Rattle.audit_core.specs.Program.{code_of, status_by};

use crate::comparison::Finding;
use crate::writing::Stop;
use thiserror::Error;

/// How an audit ended, in words for whoever started it. The exit statuses are 0 to 6 in this order; the two
/// faults of a file have one.
#[derive(Clone, Copy, Debug, PartialEq, Eq, Error)]
pub enum AuditStatus {
    /// The deeds are what the record prints, and all signatures that were asked for in it are listed.
    #[error("yes")]
    Yes,
    /// They differ, first at this line, counted from 1.
    #[error("the deeds aren't what an agent does for the record: they differ at line {line}")]
    Differs { line: u64 },
    /// The words are none that the program takes.
    #[error("usage: audit_prog RECORD DEEDS [LIFE] [--confirm-limit SECONDS]")]
    Usage,
    /// A file could not be read. The files counted that.
    #[error("a file could not be read")]
    FileFault,
    /// A file is too long.
    #[error("a file has more than 268435456 bytes")]
    FileTooLong,
    /// This line of the record, counted from 1, is refused.
    #[error("line {line} of the record is refused")]
    BadRecord { line: u64 },
    /// Memory ran out. Says nothing of the files.
    #[error("out of memory")]
    Memory,
    /// The output could not be written.
    #[error("the output could not be written")]
    WriteFault,
}

impl AuditStatus {
    /// The exit status.
    pub fn code(self) -> u8
        ensures { result ≡ code_of self }
    {
        match self {
            AuditStatus::Yes => 0,
            AuditStatus::Differs { .. } => 1,
            AuditStatus::Usage => 2,
            AuditStatus::FileFault | AuditStatus::FileTooLong => 3,
            AuditStatus::BadRecord { .. } => 4,
            AuditStatus::Memory => 5,
            AuditStatus::WriteFault => 6,
        }
    }
}

// By what was found, and whether it was written.
pub fn status_for(finding: Finding, written: Result<(), Stop>) -> AuditStatus
    ensures { result ≡ status_by finding written }
{
    match written {
        Ok(()) => match finding {
            Finding::Agrees => AuditStatus::Yes,
            Finding::Differs { line } => AuditStatus::Differs { line },
            Finding::IsBad { line } => AuditStatus::BadRecord { line },
        },
        Err(Stop::Memory) => AuditStatus::Memory,
        Err(Stop::Write) => AuditStatus::WriteFault,
    }
}
