//! Lines of a record.

ghost use Rattle.std.specs.Prelude.{MatchOption};
ghost use Rattle.replay_run.specs.GoesOn.{HasNoLf, IsLineEnd};

/// The most bytes of a line, without its LF.
pub const LONGEST_LINE: usize = 65_536;

// The place of the first LF.
pub fn line_end(bytes: &[u8]) -> Option<usize>
    ensures { MatchOption result (HasNoLf bytes.now) (IsLineEnd bytes.now) }
{
    bytes.iter().position(|byte| *byte == b'\n')
}
