//! How the run of a schedule ends.

use schedule_text::LineFault;

/// How the run of a schedule ended.
#[derive(Clone, Copy, Debug, PartialEq, Eq)]
pub enum RunEnd {
    /// The schedule was run to its end.
    Done,
    /// This line, counted from 1, is refused.
    Refused { line: u64, fault: LineFault },
    /// Memory ran out. Says nothing of the schedule.
    Memory,
    /// The source failed.
    ReadFault,
    /// The sink failed.
    WriteFault,
}
