//! The ends of a run of the helper, each with its exit status.

ghost use Rattle.std.specs.Prelude.{◌≡◌};
ghost use Rattle.standin_core.specs.Codes.{code_of};

/// How the program ended. `code` is the exit status.
#[derive(Clone, Copy, Debug, PartialEq, Eq)]
pub enum HelperStatus {
    /// The agent ended between two frames.
    Done,
    /// The agent sent a bad length, or a body that is no request to a helper.
    BadFrame,
    /// The words are none of a helper's.
    Usage,
    /// The data file could not be read. The files counted that.
    FileFault,
    /// The data file has more than 1048576 bytes.
    FileTooLong,
    /// The data file has a line that is none of a host's.
    BadFile,
    /// Memory ran out. Says nothing of what was read.
    Memory,
    /// A read from the agent failed.
    ReadFault,
    /// A write to the agent failed.
    WriteFault,
    /// The agent ended within a frame.
    TornEnd,
}

impl HelperStatus {
    /// The exit status.
    pub fn code(self) -> u8
        ensures { result ≡ code_of self }
    {
        match self {
            HelperStatus::Done => 0,
            HelperStatus::BadFrame => 1,
            HelperStatus::Usage => 2,
            HelperStatus::FileFault | HelperStatus::FileTooLong => 3,
            HelperStatus::BadFile => 4,
            HelperStatus::Memory => 5,
            HelperStatus::ReadFault => 6,
            HelperStatus::WriteFault => 7,
            HelperStatus::TornEnd => 8,
        }
    }
}
