//! Signatures.

ghost use Rattle.std.specs.Prelude.{◌≡◌, Ok, Err};
ghost use Rattle.ecdsa_wire.specs.Reading.{numbers_at, numbers_of, signature_in};
ghost use Rattle.wire_core.specs.Readings.{IsAnswer};

use crate::names::Curve;
use key_wire::{KeyFault, end, read_number, take_known};
use wire_core::Cursor;

/// The bytes of a signature's two numbers, the highest first and not 0.
#[derive(Clone, Copy)]
pub struct Numbers<'a> {
    pub r: &'a [u8],
    pub s: &'a [u8],
}

/// The numbers of a signature by a key on this curve (RFC 5656, section 3.1.2): both are above 0. That they are below
/// the order isn't looked at.
#[tactic(auto, unfolding(crate::specs::Reading::signature_in))]
pub fn read_signature(text: &[u8], curve: Curve) -> Result<Numbers<'_>, KeyFault>
    ensures { IsAnswer numbers_of result (signature_in curve text.now) }
{
    let mut cursor = Cursor::new(text);
    take_known(&mut cursor, curve.plain_name())?;
    let blob = cursor.take_string()?;
    end(&cursor)?;
    read_numbers(blob)
}

#[tactic(auto, unfolding(crate::specs::Reading::numbers_at))]
fn read_numbers(blob: &[u8]) -> Result<Numbers<'_>, KeyFault>
    ensures { IsAnswer numbers_of result (numbers_at blob.now) }
{
    let mut cursor = Cursor::new(blob);
    let r = read_number(cursor.take_string()?)?;
    let s = read_number(cursor.take_string()?)?;
    end(&cursor)?;
    Ok(Numbers { r, s })
}
