//! One pattern against one text.

ghost use Rattle.std.specs.Prelude.{◌≡◌, ◌↔◌, IsTrue};
ghost use Rattle.pattern_core.specs.Letters.{read_text};
ghost use Rattle.pattern_core.specs.Patterns.{Matches, is_match, some_end_is_match};

use crate::case::Case;
use crate::piece::{begins_with, behind, find_piece, piece_len};

/// Whether the pattern takes in the whole text, letters in the case in which they stand.
///
/// Takes a step for 64 bytes of the text and a byte of the pattern, at most.
pub fn matches(text: &[u8], pattern: &[u8]) -> bool
    ensures exact { IsTrue result ↔ Matches text.now pattern.now }
    ensures value { result ≡ is_match text.now pattern.now }
{
    matches_in(Case::Kept, text, pattern)
}

/// The same, with the letters of both sides read in `case`.
pub fn matches_in(case: Case, text: &[u8], pattern: &[u8]) -> bool
    ensures { result ≡ is_match (read_text case text.now) (read_text case pattern.now) }
{
    let len = piece_len(pattern);
    if len == pattern.len() {
        return text.len() == len && begins_with(case, text, pattern);
    }
    len <= text.len()
        && begins_with(case, text, &pattern[..len])
        && some_end_matches(case, behind(text, len), behind(pattern, len + 1))
}

// Whether the pattern takes in some end of the text, as it does where `*` stands before it.
//
// Each piece is taken where it fits first: a later place leaves less text to the rest, and no other.
// The last has to fit at the text's end.
fn some_end_matches(case: Case, mut text: &[u8], mut pattern: &[u8]) -> bool
    ensures { result ≡ some_end_is_match (read_text case text.now) (read_text case pattern.now) }
{
    'pieces: loop {
        let len = piece_len(pattern);
        if len == pattern.len() {
            return text.len() >= len && begins_with(case, behind(text, text.len() - len), pattern);
        }
        let Some(place) = find_piece(case, text, &pattern[..len]) else {
            return false;
        };
        let found = behind(text, place);
        text = behind(found, len);
        let rest = behind(pattern, len);
        pattern = behind(rest, 1);
    }
}
