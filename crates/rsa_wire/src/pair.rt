//! Private strings beside their blobs.

ghost use Rattle.std.specs.Prelude.{◌≡◌, Ok, Err};
ghost use Rattle.rsa_wire.specs.Reading.{certified_pair, pair_in, pair_of, plain_pair, plain_private_at, private_at, private_of, public_of};
ghost use Rattle.wire_core.specs.Readings.{IsAnswer};

use crate::names::{KeyType, named};
use crate::numbers::take_secret;
use crate::public::{Public, read_certified_public, read_plain_public};
use key_wire::{KeyFault, end, take_known, take_known_number};
use wire_core::Cursor;

/// The bytes of the private numbers, the highest first and not 0.
#[derive(Clone, Copy)]
pub struct Factors<'a> {
    /// The private exponent.
    pub d: &'a [u8],
    /// The inverse of q modulo p.
    pub iqmp: &'a [u8],
    pub p: &'a [u8],
    pub q: &'a [u8],
}

/// A public key, and the private numbers that stand beside it.
#[derive(Clone, Copy)]
pub struct Pair<'a> {
    pub public: Public<'a>,
    pub private: Factors<'a>,
}

/// The pair of a private string that has this blob (draft-miller-ssh-agent, "Adding keys to the agent"). That the
/// numbers fit together isn't looked at. Nothing is copied.
#[tactic(auto, unfolding(crate::specs::Reading::pair_in))]
pub fn read_pair<'a>(private: &'a [u8], blob: &'a [u8]) -> Result<Pair<'a>, KeyFault>
    ensures { IsAnswer pair_of result (pair_in private.entry.now blob.entry.now) }
{
    let mut cursor = Cursor::new(blob);
    let name = cursor.take_string()?;
    match named(name) {
        Some(KeyType::Plain) => read_plain(private, cursor.rest()),
        Some(KeyType::Certified) => read_certified(private, blob, cursor.rest()),
        None => Err(KeyFault::Unfit),
    }
}

#[tactic(auto, unfolding(crate::specs::Reading::plain_pair))]
fn read_plain<'a>(private: &'a [u8], key: &'a [u8]) -> Result<Pair<'a>, KeyFault>
    ensures { IsAnswer pair_of result (plain_pair private.entry.now key.entry.now) }
{
    let public = read_plain_public(key)?;
    let mut cursor = Cursor::new(private);
    take_known(&mut cursor, KeyType::Plain.name())?;
    let private = read_plain_private(cursor.rest(), &public)?;
    Ok(Pair { public, private })
}

#[tactic(auto, unfolding(crate::specs::Reading::certified_pair))]
fn read_certified<'a>(
    private: &'a [u8],
    certificate: &'a [u8],
    key: &'a [u8],
) -> Result<Pair<'a>, KeyFault>
    ensures { IsAnswer pair_of result (certified_pair private.entry.now certificate.entry.now key.entry.now) }
{
    let (public, _) = read_certified_public(key)?;
    let mut cursor = Cursor::new(private);
    take_known(&mut cursor, KeyType::Certified.name())?;
    take_known(&mut cursor, certificate)?;
    let private = read_private(cursor.rest())?;
    Ok(Pair { public, private })
}

// The private numbers of a plain key, behind the type's name, the modulus and the exponent.
#[tactic(auto, unfolding(crate::specs::Reading::plain_private_at))]
fn read_plain_private<'a>(bytes: &'a [u8], key: &Public<'_>) -> Result<Factors<'a>, KeyFault>
    ensures { IsAnswer private_of result (plain_private_at (public_of key.now) bytes.entry.now) }
{
    let mut cursor = Cursor::new(bytes);
    take_known_number(&mut cursor, key.n)?;
    take_known_number(&mut cursor, key.e)?;
    read_private(cursor.rest())
}

// The private numbers, to which nothing follows.
#[tactic(auto, unfolding(crate::specs::Reading::private_at))]
fn read_private(bytes: &[u8]) -> Result<Factors<'_>, KeyFault>
    ensures { IsAnswer private_of result (private_at bytes.now) }
{
    let mut cursor = Cursor::new(bytes);
    let d = take_secret(&mut cursor)?;
    let iqmp = take_secret(&mut cursor)?;
    let p = take_secret(&mut cursor)?;
    let q = take_secret(&mut cursor)?;
    end(&cursor)?;
    Ok(Factors { d, iqmp, p, q })
}
