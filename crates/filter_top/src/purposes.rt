//! Reads the purposes that the command line names, of which there may be none.

ghost use Rattle.std.specs.Prelude.{◌≡◌, Ok, MatchResult};
ghost use Rattle.key_purposes.specs.Purposes.{purposes_in};
ghost use Rattle.filter_core.specs.Slots.{purposes_of};
ghost use Rattle.filter_top.specs.Program.{texts_of};
ghost use Rattle.filter_top.specs.Purposes.{IsBadWord, IsPurposeEnd, purposes_named};

use crate::status::FilterStatus;
use key_purposes::{Purpose, PurposeFault, read_purposes};
use std::alloc::Global;

// The purposes that these words name, or how the program ends without them.
fn read_words(alloc: Global, words: &[String]) -> Result<Vec<Purpose>, FilterStatus>
    ensures { MatchResult result
        (λ purposes. purposes_in (texts_of words.now) ≡ Ok purposes.items)
        (λ status. IsBadWord status (purposes_in (texts_of words.now))) }
{
    match read_purposes(alloc, words) {
        Ok(purposes) => Ok(purposes),
        Err(PurposeFault::Memory) => Err(FilterStatus::Memory),
        Err(fault) => Err(FilterStatus::BadPurpose { fault }),
    }
}

// The same where there are words, and `None` where there are none.
pub fn read_given(alloc: Global, words: &[String]) -> Result<Option<Vec<Purpose>>, FilterStatus>
    ensures { MatchResult result
        (λ purposes. purposes_named (texts_of words.now) ≡ Ok (purposes_of purposes))
        (λ status. IsPurposeEnd status (texts_of words.now)) }
{
    if words.is_empty() {
        return Ok(None);
    }
    let purposes = read_words(alloc, words)?;
    Ok(Some(purposes))
}
