//! A record that is run a line at a time, up to its end or to a line that is refused.

ghost use Rattle.std.specs.Prelude.{◌≡◌, ◌++◌, IfOk, MatchOption, OnOk, true};
ghost use Rattle.std.specs.List.{flat_map};
ghost use Rattle.audit_core.specs.Passes.{Notes};
ghost use Rattle.replay_run.specs.Counts.{IsCounted};
ghost use Rattle.replay_run.specs.GoesOn.{HasNoLf, IsLineEnd};
ghost use Rattle.replay_run.specs.Replay.{ending, last_turned};

use replay_run::{Replay, Watch};
use schedule_text::{Deed, put_deed};
use std::alloc::AllocError;

// The place of the first LF.
pub fn line_end(bytes: &[u8]) -> Option<usize>
    ensures { MatchOption result (HasNoLf bytes.now) (IsLineEnd bytes.now) }
{
    bytes.iter().position(|byte| *byte == b'\n')
}

/// Runs the next line of what is left of a record. Gives how many bytes it takes, and `None` for the last one, and for
/// one that is refused.
pub fn run_next<W: Watch>(
    run: &mut Replay,
    left: &[u8],
    watch: &mut W,
) -> Result<Option<usize>, AllocError>
    requires { IsCounted run.old }
    ensures { IfOk result (λ size. Notes W.Note W.notes_of size run.old left.now run.new
        (W.notes watch.old) (W.notes watch.new)) }
{
    let Some(place) = line_end(left) else {
        run_last(run, left, watch)?;
        return Ok(None);
    };
    run.turn(&left[..place], place as u64 + 1, watch)?;
    if run.refused().is_some() {
        return Ok(None);
    }
    Ok(Some(place + 1))
}

// Runs what stands behind the last LF, where it isn't empty.
fn run_last<W: Watch>(run: &mut Replay, part: &[u8], watch: &mut W) -> Result<(), AllocError>
    requires { IsCounted run.old }
    ensures run { OnOk result (run.new ≡ (last_turned part.now run.old).run) }
    ensures notes { OnOk result (W.notes watch.new ≡ W.notes watch.old
        ++ flat_map W.notes_of (last_turned part.now run.old).told) }
{
    if part.is_empty() {
        return Ok(());
    }
    run.turn(part, part.len() as u64, watch)
}

/// Prints that the record ended, unless a line of it was refused.
pub fn put_end(run: &Replay, out: &mut Vec<u8>) -> Result<(), AllocError>
    ensures { OnOk result (out.new.items ≡ out.old.items ++ ending true run.now.refused) }
{
    if run.refused().is_none() {
        put_deed(out, &Deed::End)?;
    }
    Ok(())
}
