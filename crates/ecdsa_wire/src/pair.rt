//! Private strings beside their blobs.

ghost use Rattle.std.specs.Prelude.{◌≡◌, length, Ok, Err, IfOk};
ghost use Rattle.ecdsa_wire.specs.Names.{point_len};
ghost use Rattle.ecdsa_wire.specs.Reading.{certified_pair, pair_in, pair_of, plain_pair, plain_secret_at, secret_at};
ghost use Rattle.wire_core.specs.Readings.{IsAnswer};

use crate::names::{Curve, KeyType, named};
use crate::public::{read_certified_point, read_plain_point};
use key_wire::{KeyFault, end, read_secret_number, take_known};
use wire_core::Cursor;

/// A public key, and the bytes of the private number that stands beside it, the highest first and not 0.
#[derive(Clone, Copy)]
pub struct Pair<'a> {
    pub curve: Curve,
    pub point: &'a [u8],
    pub secret: &'a [u8],
}

/// The pair of a private string that has this blob (draft-miller-ssh-agent, "Adding keys to the agent"). That the
/// number gives the point isn't looked at. Nothing is copied.
#[tactic(auto, unfolding(crate::specs::Reading::pair_in))]
pub fn read_pair<'a>(private: &'a [u8], blob: &'a [u8]) -> Result<Pair<'a>, KeyFault>
    ensures answer { IsAnswer pair_of result (pair_in private.entry.now blob.entry.now) }
    ensures sized { IfOk result (λ pair. length pair.point.now ≡ point_len pair.curve) }
{
    let mut cursor = Cursor::new(blob);
    let name = cursor.take_string()?;
    match named(name) {
        Some(KeyType::Plain(curve)) => read_plain(private, cursor.rest(), curve),
        Some(KeyType::Certified(curve)) => read_certified(private, blob, cursor.rest(), curve),
        None => Err(KeyFault::Unfit),
    }
}

#[tactic(auto, unfolding(crate::specs::Reading::plain_pair))]
fn read_plain<'a>(private: &'a [u8], key: &'a [u8], curve: Curve) -> Result<Pair<'a>, KeyFault>
    ensures answer { IsAnswer pair_of result (plain_pair curve private.entry.now key.entry.now) }
    ensures sized { IfOk result (λ pair. length pair.point.now ≡ point_len pair.curve) }
{
    let point = read_plain_point(key, curve)?;
    let mut cursor = Cursor::new(private);
    take_known(&mut cursor, curve.plain_name())?;
    let secret = read_plain_secret(cursor.rest(), point, curve)?;
    Ok(Pair {
        curve,
        point,
        secret,
    })
}

#[tactic(auto, unfolding(crate::specs::Reading::certified_pair))]
fn read_certified<'a>(
    private: &'a [u8],
    certificate: &'a [u8],
    key: &'a [u8],
    curve: Curve,
) -> Result<Pair<'a>, KeyFault>
    ensures answer { IsAnswer pair_of result (certified_pair curve private.entry.now certificate.entry.now key.entry.now) }
    ensures sized { IfOk result (λ pair. length pair.point.now ≡ point_len pair.curve) }
{
    let (point, _) = read_certified_point(key, curve)?;
    let mut cursor = Cursor::new(private);
    take_known(&mut cursor, curve.certified_name())?;
    take_known(&mut cursor, certificate)?;
    let secret = read_secret(cursor.rest())?;
    Ok(Pair {
        curve,
        point,
        secret,
    })
}

// The private number of a plain key, behind the type's name and the public key.
#[tactic(auto, unfolding(crate::specs::Reading::plain_secret_at))]
fn read_plain_secret<'a>(bytes: &'a [u8], point: &[u8], curve: Curve) -> Result<&'a [u8], KeyFault>
    ensures { IsAnswer (λ secret. secret.now) result (plain_secret_at curve point.now bytes.entry.now) }
{
    let mut cursor = Cursor::new(bytes);
    take_known(&mut cursor, curve.name())?;
    take_known(&mut cursor, point)?;
    read_secret(cursor.rest())
}

// The private number, to which nothing follows.
#[tactic(auto, unfolding(crate::specs::Reading::secret_at))]
fn read_secret(bytes: &[u8]) -> Result<&[u8], KeyFault>
    ensures { IsAnswer (λ secret. secret.now) result (secret_at bytes.now) }
{
    let mut cursor = Cursor::new(bytes);
    let secret = read_secret_number(cursor.take_string()?)?;
    end(&cursor)?;
    Ok(secret)
}
