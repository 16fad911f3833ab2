//! The public key and the secret scalar of a seed (RFC 8032, section 5.1.5).

ghost use Rattle.std.specs.Prelude.{◌≡◌, take};
ghost use Rattle.words64.specs.Numbers.{little_endian, octets};
ghost use Rattle.scalar25519.specs.Scalars.{clamped};
ghost use Rattle.curve25519.specs.Points.{base};
ghost use Rattle.curve25519.specs.Multiples.{multiply};
ghost use Rattle.curve25519.specs.Encoding.{encoded};
ghost use Rattle.ed25519.specs.Keys.{public_key};

use crate::hash::hash_of;
use curve25519_multiples::BaseTable;
use words64::Words;

/// The public key of a seed, 32 bytes each (RFC 8032, section 5.1.5). It takes no memory and can't
/// fail.
#[inline(never)]
pub fn public_key(table: &BaseTable, seed: &[u8; 32]) -> [u8; 32]
    ensures { result ≡ public_key seed.now }
{
    encoded_multiple(table, &secret_scalar_of(&hash_of(seed)))
}

// The secret scalar of the hash of a seed.
pub(crate) fn secret_scalar_of(hash: &[u8; 64]) -> Words
    ensures { result ≡ clamped (little_endian (take 32 hash.now)) }
{
    scalar25519::clamp(&Words::from_bytes(&hash[..32]))
}

// The encoding of [s]B.
pub(crate) fn encoded_multiple(table: &BaseTable, s: &Words) -> [u8; 32]
    ensures { result ≡ octets (encoded (multiply s.now base)) }
{
    table.multiple(s).encode().to_bytes()
}
