//! Words with numbers.

ghost use Rattle.std.specs.Prelude.{◌≡◌, ◌++◌, OnOk};
ghost use Rattle.replay_run.specs.Drill.{told};

use schedule_text::put_number;
use std::alloc::AllocError;

/// Appends a word, and a number behind it.
pub fn put_told(out: &mut Vec<u8>, word: &[u8], number: u64) -> Result<(), AllocError>
    ensures { OnOk result (out.new.items ≡ out.old.items ++ told word.now number) }
{
    out.extend_from_slice(word)?;
    put_number(out, number)
}
