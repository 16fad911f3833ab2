//! Why a line of a schedule is refused.

/// The first fault of a line. The length is tried first, then the words and the number of fields,
/// then each field from the left, and last what the run of the schedule says of the line.
#[derive(Clone, Copy, Debug, PartialEq, Eq)]
pub enum LineFault {
    /// The first word, the number of fields, or the word after `join`.
    Word,
    /// A field that should be a number is none.
    Number,
    /// A field that should be hexadecimal is none.
    Hex,
    /// The port isn't open. Found by the run.
    UnknownPort,
    /// The line comes at the wrong time. Found by the run.
    Order,
    /// The line is too long.
    TooLong,
    /// Memory ran out. Says nothing of the line.
    Memory,
}
