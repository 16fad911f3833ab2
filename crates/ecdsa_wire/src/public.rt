//! Public keys: the blobs of plain keys, and the keys in certificates.

ghost use Rattle.std.specs.Prelude.{◌≡◌, ℕ, List, length, Ok, Err, IfOk, MatchResult};
ghost use Rattle.ecdsa_wire.specs.Names.{point_len};
ghost use Rattle.ecdsa_wire.specs.Reading.{certified_point_at, plain_point_at, point_at, public_in, public_of};
ghost use Rattle.wire_core.specs.Readings.{IsAnswer};

use crate::names::{Curve, KeyType, named};
use key_wire::{KeyFault, end, take_known, take_sized};
use wire_core::Cursor;

/// A curve, and the bytes of a point: that it is one of the curve's isn't looked at.
#[derive(Clone, Copy)]
pub struct Public<'a> {
    pub curve: Curve,
    pub point: &'a [u8],
}

/// Takes the curve's name and the point. A refused call may have moved the cursor.
#[tactic(auto, unfolding(crate::specs::Reading::point_at))]
pub fn take_point<'a>(cursor: &mut Cursor<'a>, curve: Curve) -> Result<&'a [u8], KeyFault>
    ensures exact { MatchResult result (λ point. point_at curve cursor.old ≡ Ok (point.now, cursor.new))
        (λ fault. point_at curve cursor.old ≡ Err fault) }
    ensures sized { IfOk result (λ point. length point.now ≡ point_len curve) }
{
    take_known(cursor, curve.name())?;
    take_sized(cursor, curve.point_len())
}

/// The point of a certificate behind its type's name, and what follows it.
#[tactic(auto, unfolding(crate::specs::Reading::certified_point_at))]
pub fn read_certified_point(bytes: &[u8], curve: Curve) -> Result<(&[u8], &[u8]), KeyFault>
    ensures answer { IsAnswer (λ point. (point.0.now, point.1.now)) result (certified_point_at curve bytes.now) }
    ensures sized { IfOk result (λ point. length point.0.now ≡ point_len curve) }
{
    let mut cursor = Cursor::new(bytes);
    let _nonce = cursor.take_string()?;
    let point = take_point(&mut cursor, curve)?;
    Ok((point, cursor.rest()))
}

/// The point of a plain key behind its type's name.
#[tactic(auto, unfolding(crate::specs::Reading::plain_point_at))]
pub fn read_plain_point(bytes: &[u8], curve: Curve) -> Result<&[u8], KeyFault>
    ensures answer { IsAnswer (λ point. point.now) result (plain_point_at curve bytes.now) }
    ensures sized { IfOk result (λ point. length point.now ≡ point_len curve) }
{
    let mut cursor = Cursor::new(bytes);
    let point = take_point(&mut cursor, curve)?;
    end(&cursor)?;
    Ok(point)
}

/// The public key of a plain key's blob (RFC 5656, section 3.1).
#[tactic(auto, unfolding(crate::specs::Reading::public_in))]
pub fn read_public(blob: &[u8]) -> Result<Public<'_>, KeyFault>
    ensures answer { IsAnswer public_of result (public_in blob.now) }
    ensures sized { IfOk result (λ key. length key.point.now ≡ point_len key.curve) }
{
    let mut cursor = Cursor::new(blob);
    let name = cursor.take_string()?;
    let Some(KeyType::Plain(curve)) = named(name) else {
        return Err(KeyFault::Unfit);
    };
    let point = read_plain_point(cursor.rest(), curve)?;
    Ok(Public { curve, point })
}
