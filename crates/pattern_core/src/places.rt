//! Sets of the first 64 places of a text, as the bits of a word.

ghost use Rattle.std.specs.Prelude.{◌≡◌, ◌≢◌, ◌<◌, ◌==◌, ◌&&◌, ℕ, true, false, leb, length, slice_index};
ghost use Rattle.pattern_core.specs.Letters.{read_byte};
ghost use Rattle.pattern_core.specs.Pieces.{has_place};

use crate::case::Case;
use std::simd::prelude::*;

/// How many places a word has.
pub const PLACES: usize = 64;

/// The places from 0 to `last`, as far as a word has them.
#[inline(always)]
pub fn places_to(last: usize) -> u64
    ensures { (k : ℕ) → k < 64 → has_place result k ≡ leb k last }
{
    u64::MAX >> (63 - last.min(63))
}

/// The lowest of the places.
#[inline(always)]
pub fn lowest(places: u64) -> usize
    requires { places ≢ 0 }
    ensures within { result < 64 }
    ensures there { has_place places result ≡ true }
    ensures below { (k : ℕ) → k < result → has_place places k ≡ false }
{
    places.trailing_zeros() as usize
}

/// The places of both words.
#[inline(always)]
pub fn places_of_both(a: u64, b: u64) -> u64
    ensures { (k : ℕ) → has_place result k ≡ (has_place a k && has_place b k) }
{
    a & b
}

/// The places at which the text has the byte that is wanted, which is as it is read in `case`.
///
/// Behind the text's end any may come out.
#[inline(always)]
pub fn places_of(case: Case, text: &[u8], wanted: u8) -> u64
    requires { read_byte case wanted ≡ wanted }
    ensures { (k : ℕ) → k < 64 → k < length text.now
        → has_place result k ≡ (wanted == read_byte case (slice_index text.now k)) }
{
    let bytes = first_bytes(text);
    match case {
        Case::Kept => places_of_byte(bytes, wanted),
        Case::Lowered => {
            places_of_byte(bytes, wanted) | places_of_byte(bytes, wanted.to_ascii_uppercase())
        }
    }
}

// The text's first 64 bytes, and zeros where it has fewer.
#[inline(always)]
fn first_bytes(text: &[u8]) -> u8x64
    ensures long { length result ≡ 64 }
    ensures each { (k : ℕ) → k < 64 → k < length text.now
        → slice_index result k ≡ slice_index text.now k }
{
    if text.len() < PLACES {
        let mut bytes = [0; PLACES];
        bytes[..text.len()].copy_from_slice(text);
        return u8x64::from_array(bytes);
    }
    u8x64::from_slice(text)
}

// The places at which the byte stands.
#[inline(always)]
fn places_of_byte(bytes: u8x64, wanted: u8) -> u64
    requires { length bytes ≡ 64 }
    ensures { (k : ℕ) → k < 64 → has_place result k ≡ (slice_index bytes k == wanted) }
{
    bytes.simd_eq(u8x64::splat(wanted)).to_bitmask()
}
