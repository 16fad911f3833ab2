//! Positive numbers: the bytes of mpints.

ghost use Rattle.std.specs.Prelude.{◌≡◌, Ok, Err, MatchResult, position};
ghost use Rattle.std.specs.Str.{bytes_eq};
ghost use Rattle.key_wire.specs.Fields.{known_at};
ghost use Rattle.key_wire.specs.Numbers.{behind_zero, behind_zeros, isnt_zero, magnitude, secret_magnitude, signed};
ghost use Rattle.wire_core.specs.Readings.{IsAnswer};

use crate::fault::KeyFault;
use wire_core::Cursor;

/// The bytes of a public number, the highest first and not 0, from those of an mpint: it is above 0, and has no byte
/// more than it takes (RFC 4251, section 5).
#[tactic(auto, unfolding(crate::specs::Numbers::magnitude))]
pub fn read_number(text: &[u8]) -> Result<&[u8], KeyFault>
    ensures { IsAnswer (λ bytes. bytes.now) result (magnitude text.now) }
{
    match text.first() {
        Some(0) => number_behind_zero(&text[1..]),
        Some(first) if *first < 128 => Ok(text),
        _ => Err(KeyFault::Unfit),
    }
}

// What stands behind a zero in front: a byte with the highest bit.
fn number_behind_zero(text: &[u8]) -> Result<&[u8], KeyFault>
    ensures { IsAnswer (λ bytes. bytes.now) result (behind_zero text.now) }
{
    match text.first() {
        Some(high) if *high >= 128 => Ok(text),
        _ => Err(KeyFault::Unfit),
    }
}

/// The bytes of a private number, the highest first and not 0: it is above 0, and may have zeros in front. How many
/// there are shows in the time that this takes.
#[tactic(auto, unfolding(crate::specs::Numbers::secret_magnitude))]
pub fn read_secret_number(text: &[u8]) -> Result<&[u8], KeyFault>
    ensures { IsAnswer (λ bytes. bytes.now) result (secret_magnitude text.now) }
{
    match text.first() {
        Some(first) if *first < 128 => bytes_behind_zeros(text),
        _ => Err(KeyFault::Unfit),
    }
}

// What follows the zeros in front, which are not all.
#[tactic(auto, unfolding(crate::specs::Numbers::behind_zeros))]
fn bytes_behind_zeros(text: &[u8]) -> Result<&[u8], KeyFault>
    ensures { IsAnswer (λ bytes. bytes.now) result (behind_zeros text.now) }
{
    match first_byte(text) {
        Some(zeros) => Ok(&text[zeros..]),
        None => Err(KeyFault::Unfit),
    }
}

// The place of the first byte that isn't zero.
fn first_byte(text: &[u8]) -> Option<usize>
    ensures { result ≡ position isnt_zero text.now }
{
    text.iter().position(|byte| *byte != 0)
}

/// Takes the mpint of a public number, of which these are the bytes. A refused call may have moved the cursor.
#[tactic(auto, unfolding(crate::specs::Fields::known_at))]
pub fn take_known_number(cursor: &mut Cursor<'_>, number: &[u8]) -> Result<(), KeyFault>
    ensures { MatchResult result (λ _. known_at (signed number.now) cursor.old ≡ Ok cursor.new)
        (λ fault. known_at (signed number.now) cursor.old ≡ Err fault) }
{
    if is_mpint(cursor.take_string()?, number) {
        Ok(())
    } else {
        Err(KeyFault::Unfit)
    }
}

// Whether these are the bytes of a number's mpint.
fn is_mpint(text: &[u8], number: &[u8]) -> bool
    ensures { result ≡ bytes_eq text.now (signed number.now) }
{
    match number.first() {
        Some(high) if *high >= 128 => text.first() == Some(&0) && &text[1..] == number,
        _ => text == number,
    }
}
