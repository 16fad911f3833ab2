//! How a helper ends, and the exit status that says so.

ghost use Rattle.std.specs.Prelude.{◌≡◌};
ghost use Rattle.helper_core.specs.Codes.{code_of};

/// How the program ended. Its number is the exit status.
#[derive(Clone, Copy, Debug, PartialEq, Eq)]
pub enum HelperStatus {
    /// The agent ended between two frames.
    Done,
    /// The agent sent a bad length, or a body that is no request to a helper.
    BadFrame,
    /// The words are none of a helper's.
    Usage,
    /// Memory ran out. Says nothing of what was read.
    Memory,
    /// A read from the agent failed.
    ReadFault,
    /// A write to the agent failed.
    WriteFault,
    /// The agent ended within a frame.
    TornEnd,
}

impl HelperStatus {
    /// The exit status.
    pub fn code(self) -> u8
        ensures { result ≡ code_of self }
    {
        match self {
            HelperStatus::Done => 0,
            HelperStatus::BadFrame => 1,
            HelperStatus::Usage => 2,
            HelperStatus::Memory => 5,
            HelperStatus::ReadFault => 6,
            HelperStatus::WriteFault => 7,
            HelperStatus::TornEnd => 8,
        }
    }
}
