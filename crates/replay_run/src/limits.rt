//! The limits of a schedule (ours).

/// The most bytes of a line, without its LF.
pub const LONGEST_LINE: usize = 65_536;

/// The most bytes of a schedule: more than any stream brings, and few enough for each count of a run.
pub const LONGEST_SCHEDULE: u64 = 1 << 60;

/// How many bytes are read at once at the most, and printed before they are written.
pub const ROOM: usize = 65_536;

/// For how many seconds an ask may be unanswered.
pub const ASK_LIMIT: u32 = 60;

/// For how many seconds a question to the user may stay open, where nothing else is chosen.
pub const CONFIRM_LIMIT: u32 = 300;
