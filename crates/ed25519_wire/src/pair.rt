//! Ed25519 keys read from blobs and private strings: seeds and public keys (RFC 8709).

ghost use Rattle.std.specs.Prelude.{◌≡◌, ℕ, List, length, Ok, Err, IfOk, MatchResult};
ghost use Rattle.ed25519_wire.specs.Reading.{authority_key, certified_key_at, certified_pair, pair_at, pair_in, plain_key_at, plain_pair, plain_pair_of};
ghost use Rattle.wire_core.specs.Readings.{IsAnswer};

use crate::names::{is_certified, is_plain};
use key_wire::{KeyFault, end, take_sized};
use wire_core::Cursor;

/// A seed, and the public key that stands beside it.
#[derive(Clone, Copy)]
pub struct Pair<'a> {
    pub seed: &'a [u8],
    pub public: &'a [u8],
}

/// The pair of a private string that has this blob. Nothing is copied.
#[tactic(auto, unfolding(crate::specs::Reading::pair_in))]
pub fn read_pair<'a>(private: &'a [u8], blob: &'a [u8]) -> Result<Pair<'a>, KeyFault>
    ensures answer { IsAnswer plain_pair_of result (pair_in private.entry.now blob.entry.now) }
    ensures sized { IfOk result (λ pair. (length pair.seed.now ≡ 32) × (length pair.public.now ≡ 32)) }
{
    let mut cursor = Cursor::new(blob);
    let name = cursor.take_string()?;
    if is_plain(name) {
        read_plain(private, cursor.rest())
    } else if is_certified(name) {
        read_certified(private, blob, cursor.rest())
    } else {
        Err(KeyFault::Unfit)
    }
}

#[tactic(auto, unfolding(crate::specs::Reading::plain_pair))]
fn read_plain<'a>(private: &'a [u8], key: &'a [u8]) -> Result<Pair<'a>, KeyFault>
    ensures answer { IsAnswer plain_pair_of result (plain_pair private.entry.now key.entry.now) }
    ensures sized { IfOk result (λ pair. (length pair.seed.now ≡ 32) × (length pair.public.now ≡ 32)) }
{
    let public = read_plain_key(key)?;
    let mut cursor = Cursor::new(private);
    if !is_plain(cursor.take_string()?) {
        return Err(KeyFault::Unfit);
    }
    let seed = read_seed(public, cursor.rest())?;
    Ok(Pair { seed, public })
}

#[tactic(auto, unfolding(crate::specs::Reading::certified_pair, crate::specs::Reading::behind_certificate))]
fn read_certified<'a>(
    private: &'a [u8],
    certificate: &'a [u8],
    key: &'a [u8],
) -> Result<Pair<'a>, KeyFault>
    ensures answer { IsAnswer plain_pair_of result (certified_pair private.entry.now certificate.entry.now key.entry.now) }
    ensures sized { IfOk result (λ pair. (length pair.seed.now ≡ 32) × (length pair.public.now ≡ 32)) }
{
    let (public, _) = read_certified_key(key)?;
    let mut cursor = Cursor::new(private);
    if !is_certified(cursor.take_string()?) {
        return Err(KeyFault::Unfit);
    }
    if cursor.take_string()? != certificate {
        return Err(KeyFault::Unfit);
    }
    let seed = read_seed(public, cursor.rest())?;
    Ok(Pair { seed, public })
}

/// The public key behind a plain type's name.
#[tactic(auto, unfolding(crate::specs::Reading::plain_key_at))]
pub fn read_plain_key(bytes: &[u8]) -> Result<&[u8], KeyFault>
    ensures answer { IsAnswer (λ key. key.now) result (plain_key_at bytes.now) }
    ensures sized { IfOk result (λ key. length key.now ≡ 32) }
{
    let mut cursor = Cursor::new(bytes);
    let key = take_sized(&mut cursor, 32)?;
    end(&cursor)?;
    Ok(key)
}

/// The public key of a certificate behind its type's name, and what follows it.
#[tactic(auto, unfolding(crate::specs::Reading::certified_key_at))]
pub fn read_certified_key(bytes: &[u8]) -> Result<(&[u8], &[u8]), KeyFault>
    ensures answer { IsAnswer (λ key. (key.0.now, key.1.now)) result (certified_key_at bytes.now) }
    ensures sized { IfOk result (λ key. length key.0.now ≡ 32) }
{
    let mut cursor = Cursor::new(bytes);
    cursor.take_string()?;
    let key = take_sized(&mut cursor, 32)?;
    Ok((key, cursor.rest()))
}

// The seed behind the public key.
#[tactic(auto, unfolding(crate::specs::Reading::pair_at, crate::specs::Reading::seed_at))]
fn read_seed<'a>(public: &[u8], bytes: &'a [u8]) -> Result<&'a [u8], KeyFault>
    ensures answer { IsAnswer (λ seed. seed.now) result (pair_at public.now bytes.entry.now) }
    ensures sized { IfOk result (λ seed. length seed.now ≡ 32) }
{
    let mut cursor = Cursor::new(bytes);
    if cursor.take_string()? != public {
        return Err(KeyFault::Unfit);
    }
    let (seed, half) = take_sized(&mut cursor, 64)?.split_at(32);
    if half != public {
        return Err(KeyFault::Unfit);
    }
    end(&cursor)?;
    Ok(seed)
}

/// The public key of an authority, whose blob is that of a plain key.
#[tactic(auto, unfolding(crate::specs::Reading::authority_key))]
pub fn read_authority(blob: &[u8]) -> Result<&[u8], KeyFault>
    ensures answer { IsAnswer (λ key. key.now) result (authority_key blob.now) }
    ensures sized { IfOk result (λ key. length key.now ≡ 32) }
{
    let mut cursor = Cursor::new(blob);
    if !is_plain(cursor.take_string()?) {
        return Err(KeyFault::Unfit);
    }
    read_plain_key(cursor.rest())
}
