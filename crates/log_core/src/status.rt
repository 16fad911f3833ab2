//! How a log ends, and the exit status that says so.

ghost use Rattle.std.specs.Prelude.{◌≡◌};
ghost use Rattle.log_core.specs.Program.{code_of, status_by};

use audit_core::Stop;
use thiserror::Error;

/// How a log ended, in words for whoever started it.
#[derive(Clone, Copy, Debug, PartialEq, Eq, Error)]
pub enum LogStatus {
    /// The record was run to its end, and its log is written.
    #[error("all of the record")]
    Whole,
    /// The same of its whole lines: what stands behind the last LF was left out.
    #[error("the record's last line is not whole: it is left out")]
    Waits,
    /// The words are none that the program takes.
    #[error("usage: log_prog [LIFE] [--confirm-limit SECONDS]")]
    Usage,
    /// The record could not be read.
    #[error("the record could not be read")]
    ReadFault,
    /// This line of the record, counted from 1, is refused. The log of the lines before it is written.
    #[error("line {line} of the record is refused")]
    BadRecord { line: u64 },
    /// Memory ran out. Says nothing of the record.
    #[error("out of memory")]
    Memory,
    /// The output could not be written.
    #[error("the output could not be written")]
    WriteFault,
}

impl LogStatus {
    /// The exit status.
    pub fn code(self) -> u8
        ensures { result ≡ code_of self }
    {
        match self {
            LogStatus::Whole | LogStatus::Waits => 0,
            LogStatus::Usage => 2,
            LogStatus::ReadFault => 3,
            LogStatus::BadRecord { .. } => 4,
            LogStatus::Memory => 5,
            LogStatus::WriteFault => 6,
        }
    }
}

// By what is said of a record, and whether its log was written.
pub fn status_for(ended: LogStatus, written: Result<(), Stop>) -> LogStatus
    ensures { result ≡ status_by ended written }
{
    match written {
        Ok(()) => ended,
        Err(Stop::Memory) => LogStatus::Memory,
        Err(Stop::Write) => LogStatus::WriteFault,
    }
}
