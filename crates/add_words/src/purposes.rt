//! What the words behind `-p` name.

ghost use Rattle.std.specs.Prelude.{◌≡◌, ◌≢◌, ◌⊎◌, [], IfOk, MatchResult, Ok, Err, map};
ghost use Rattle.add_words.specs.Purposes.{purposes_named};
ghost use Rattle.key_purposes.specs.Purposes.{ArePurposes, word_of};
ghost use Rattle.key_purposes.specs.declared.fault.PurposeFault.TheVariants.{Memory};

use key_purposes::{Purpose, PurposeFault, add_purpose};
use plain_lists::PlainList;
use std::alloc::Global;

/// The purposes that the words name, in their order. Without words there are none.
pub fn named_purposes(alloc: Global, words: &[&str]) -> Result<PlainList<Purpose>, PurposeFault>
    ensures value { MatchResult result
        (λ purposes. purposes_named (map (λ word. word.now) words.now) ≡ Ok purposes)
        (λ fault. (fault ≡ Memory)
        ⊎ (purposes_named (map (λ word. word.now) words.now) ≡ Err fault)) }

    // Where there are some, they are 1 to 64 of words of at most 255 bytes, and none comes twice.
    ensures named { IfOk result (λ purposes. purposes ≢ []
        → ArePurposes (map word_of purposes) purposes) }
{
    let mut purposes = Vec::new(alloc);
    'words: for word in words {
        add_purpose(alloc, &mut purposes, word.as_bytes())?;
    }
    Ok(PlainList::from_vec(purposes))
}
