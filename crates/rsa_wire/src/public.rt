//! Public keys: the blobs of plain keys, and the keys in certificates.

ghost use Rattle.std.specs.Prelude.{◌≡◌, Ok, Err, MatchResult};
ghost use Rattle.rsa_wire.specs.Reading.{certified_public_at, plain_public_at, public_at, public_in, public_of};
ghost use Rattle.wire_core.specs.Readings.{IsAnswer};

use crate::names::KeyType;
use crate::numbers::take_number;
use key_wire::{KeyFault, end, take_known};
use wire_core::Cursor;

/// The bytes of a public exponent and of a modulus, the highest first and not 0.
#[derive(Clone, Copy)]
pub struct Public<'a> {
    pub e: &'a [u8],
    pub n: &'a [u8],
}

/// Takes the exponent and the modulus. A refused call may have moved the cursor.
#[tactic(auto, unfolding(crate::specs::Reading::public_at))]
pub fn take_public<'a>(cursor: &mut Cursor<'a>) -> Result<Public<'a>, KeyFault>
    ensures { MatchResult result (λ key. public_at cursor.old ≡ Ok (public_of key, cursor.new))
        (λ fault. public_at cursor.old ≡ Err fault) }
{
    let e = take_number(cursor)?;
    let n = take_number(cursor)?;
    Ok(Public { e, n })
}

/// The key of a certificate behind its type's name, and what follows it.
#[tactic(auto, unfolding(crate::specs::Reading::certified_public_at))]
pub fn read_certified_public(bytes: &[u8]) -> Result<(Public<'_>, &[u8]), KeyFault>
    ensures { IsAnswer (λ key. (public_of key.0, key.1.now)) result (certified_public_at bytes.now) }
{
    let mut cursor = Cursor::new(bytes);
    let _nonce = cursor.take_string()?;
    let key = take_public(&mut cursor)?;
    Ok((key, cursor.rest()))
}

/// The key of a plain key behind its type's name.
#[tactic(auto, unfolding(crate::specs::Reading::plain_public_at))]
pub fn read_plain_public(bytes: &[u8]) -> Result<Public<'_>, KeyFault>
    ensures { IsAnswer public_of result (plain_public_at bytes.now) }
{
    let mut cursor = Cursor::new(bytes);
    let key = take_public(&mut cursor)?;
    end(&cursor)?;
    Ok(key)
}

/// The public key of a plain key's blob (RFC 4253, section 6.6).
#[tactic(auto, unfolding(crate::specs::Reading::public_in))]
pub fn read_public(blob: &[u8]) -> Result<Public<'_>, KeyFault>
    ensures { IsAnswer public_of result (public_in blob.now) }
{
    let mut cursor = Cursor::new(blob);
    take_known(&mut cursor, KeyType::Plain.name())?;
    read_plain_public(cursor.rest())
}
