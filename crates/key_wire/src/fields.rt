//! Fields of a known length or text, and the end.

ghost use Rattle.std.specs.Prelude.{◌≡◌, ◌≢◌, [], ◌==◌, length, Ok, Err, IfOk, MatchResult};
ghost use Rattle.key_wire.specs.Fields.{known_at, sized_at};

use crate::fault::KeyFault;
use wire_core::Cursor;

/// Nothing follows.
pub fn end(cursor: &Cursor<'_>) -> Result<(), KeyFault>
    ensures { MatchResult result (λ _. cursor.now ≡ [])
        (λ fault. (fault ≡ KeyFault.Unfit) × (cursor.now ≢ [])) }
{
    if cursor.at_end() {
        Ok(())
    } else {
        Err(KeyFault::Unfit)
    }
}

/// Takes a string of `len` bytes. A refused call may have moved the cursor.
#[tactic(auto, unfolding(crate::specs::Fields::sized_at))]
pub fn take_sized<'a>(cursor: &mut Cursor<'a>, len: usize) -> Result<&'a [u8], KeyFault>
    ensures exact { MatchResult result (λ text. sized_at len cursor.old ≡ Ok (text.now, cursor.new))
        (λ fault. sized_at len cursor.old ≡ Err fault) }
    ensures sized { IfOk result (λ text. length text.now ≡ len) }
{
    let text = cursor.take_string()?;
    if text.len() != len {
        return Err(KeyFault::Unfit);
    }
    Ok(text)
}

/// Takes a string that is `known`. A refused call may have moved the cursor.
#[tactic(auto, unfolding(crate::specs::Fields::known_at))]
pub fn take_known(cursor: &mut Cursor<'_>, known: &[u8]) -> Result<(), KeyFault>
    ensures { MatchResult result (λ _. known_at known.now cursor.old ≡ Ok cursor.new)
        (λ fault. known_at known.now cursor.old ≡ Err fault) }
{
    if cursor.take_string()? == known {
        Ok(())
    } else {
        Err(KeyFault::Unfit)
    }
}
