//! Pieces of a pattern: what stands between one `*` and the next.

ghost use Rattle.std.specs.Prelude.{◌≡◌, ◌≢◌, ◌+◌, ◌<◌, ◌≤◌, ℕ, true, length, drop, slice_index, MatchOption};
ghost use Rattle.pattern_core.specs.Letters.{read_text};
ghost use Rattle.pattern_core.specs.Patterns.{star};
ghost use Rattle.pattern_core.specs.Pieces.{fits, has_place, IsFirst, IsNowhere};

use crate::case::Case;
use crate::places::{PLACES, lowest, places_of, places_of_both, places_to};

const STAR: u8 = b'*';

const QUESTION: u8 = b'?';

/// What follows the first `count` bytes.
pub fn behind(bytes: &[u8], count: usize) -> &[u8]
    requires { count ≤ length bytes.now }
    ensures rest { result.now ≡ drop count bytes.now }
    ensures shorter { length result.now + count ≡ length bytes.now }
{
    &bytes[count..]
}

/// How long the pattern's first piece is: up to the first `*`, or the end.
pub fn piece_len(pattern: &[u8]) -> usize
    ensures within { result ≤ length pattern.now }
    ensures plain { (k : ℕ) → k < result → slice_index pattern.now k ≢ star }
    ensures ends { result < length pattern.now → slice_index pattern.now result ≡ star }
{
    for (i, byte) in pattern.iter().enumerate() {
        if *byte == STAR {
            return i;
        }
    }
    pattern.len()
}

/// Whether the text begins with bytes that those of the piece take in.
pub fn begins_with(case: Case, text: &[u8], piece: &[u8]) -> bool
    ensures { result ≡ fits (read_text case text.now) (read_text case piece.now) }
{
    if text.len() < piece.len() {
        return false;
    }
    for (i, wanted) in piece.iter().enumerate() {
        if *wanted != QUESTION && case.byte(*wanted) != case.byte(text[i]) {
            return false;
        }
    }
    true
}

/// The first place of the text at which the piece fits.
///
/// Takes a step for 64 places and a byte of the piece, at most.
pub fn find_piece(case: Case, text: &[u8], piece: &[u8]) -> Option<usize>
    ensures { MatchOption result
        (IsNowhere (read_text case text.now) (read_text case piece.now))
        (λ place. IsFirst (read_text case text.now) (read_text case piece.now) place) }
{
    let mut start = 0;
    'blocks: while piece.len() <= text.len() - start {
        let rest = behind(text, start);
        let places = fitting_places(case, rest, piece);
        if places != 0 {
            return Some(start + lowest(places));
        }
        if text.len() - start < PLACES {
            return None;
        }
        start += PLACES;
    }
    None
}

// The places, of the text's first 64, at which the piece fits.
fn fitting_places(case: Case, text: &[u8], piece: &[u8]) -> u64
    requires { length piece.now ≤ length text.now }
    ensures exact { (k : ℕ) → k < 64 → k + length piece.now ≤ length text.now
        → has_place result k ≡ fits (drop k (read_text case text.now)) (read_text case piece.now) }
    ensures within { (k : ℕ) → k < 64 → has_place result k ≡ true
        → k + length piece.now ≤ length text.now }
{
    let mut places = places_to(text.len() - piece.len());
    for (i, wanted) in piece.iter().enumerate() {
        if places == 0 {
            return 0;
        }
        if *wanted != QUESTION {
            let rest = behind(text, i);
            let there = places_of(case, rest, case.byte(*wanted));
            places = places_of_both(places, there);
        }
    }
    places
}
