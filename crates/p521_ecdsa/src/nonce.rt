//! The state K and V that gives the nonces of ECDSA over P-521, and HMAC for it.

ghost use Rattle.std.specs.Prelude.{◌≡◌, ℕ, ◌/◌, ◌%◌, ◌^◌, ◌∷◌, ◌++◌, [], List, take};
ghost use Rattle.p521_order.specs.Scalars.{order};
ghost use Rattle.wide_words.specs.Numbers.{bits_to_int};
ghost use Rattle.p521_ecdsa.specs.Nonces.{mac, seeded};

use hmac_wide::hmac_sha512;
use p521_order::Scalar;
use wide_words::U576;

/// K and V.
#[derive(Drop)]
pub struct State {
    pub key: [u8; 64],
    pub value: [u8; 64],
}

impl State {
    /// K and V after the steps b to g.
    pub(crate) fn seeded(d: &Scalar, e: &Scalar) -> State
        ensures { (hash : List ℕ) → e.now ≡ bits_to_int 521 hash % order
            → result ≡ seeded d.now hash }
    {
        let x = d.to_words().to_bytes();
        let z = e.to_words().to_bytes();
        let v = [1u8; 64];
        let k = [0u8; 64];
        let k1 = mac(&k, &seed_text(&v, 0, &x, &z));
        let v1 = mac(&k1, &v);
        let k2 = mac(&k1, &seed_text(&v1, 1, &x, &z));
        let v2 = mac(&k2, &v1);
        State { key: k2, value: v2 }
    }
}

// The number of the leftmost 521 bits: bits2int, of section 2.3.2.
pub(crate) fn leftmost_bits(bytes: &[u8; 64]) -> U576
    ensures { result ≡ bits_to_int 521 bytes.now }
{
    let mut filled = [0u8; 66];
    filled[2..].copy_from_slice(bytes);
    U576::from_bytes(&filled)
}

// The number of the leftmost 521 bits of two digests: those of the first, and 9 of the second.
pub(crate) fn leftmost_of_both(first: &[u8; 64], second: &[u8; 64]) -> U576
    ensures { result ≡ bits_to_int 521 (first.now ++ second.now) }
{
    without_low_bits(&U576::from_bytes(&front_of_both(first, second)))
}

// The first digest, and the first 2 bytes of the second.
fn front_of_both(first: &[u8; 64], second: &[u8; 64]) -> [u8; 66]
    ensures { result ≡ first.now ++ take 2 second.now }
{
    let mut bytes = [0u8; 66];
    bytes[..64].copy_from_slice(first);
    bytes[64..].copy_from_slice(&second[..2]);
    bytes
}

// The number without its lowest 7 bits.
fn without_low_bits(number: &U576) -> U576
    ensures { result ≡ number.now / 2 ^ 7 }
{
    number
        .halved()
        .halved()
        .halved()
        .halved()
        .halved()
        .halved()
        .halved()
}

// HMAC.
pub(crate) fn mac(key: &[u8; 64], message: &[u8]) -> [u8; 64]
    ensures { result ≡ mac key.now message.now }
{
    hmac_sha512(key, message)
}

// V, a byte, the private key and the hash.
fn seed_text(value: &[u8; 64], tag: u8, x: &[u8; 66], z: &[u8; 66]) -> [u8; 197]
    ensures { result ≡ value.now ++ (tag ∷ []) ++ x.now ++ z.now }
{
    let mut text = [0u8; 197];
    text[..65].copy_from_slice(&tagged(value, tag));
    text[65..].copy_from_slice(&both(x, z));
    text
}

// V and a byte.
pub(crate) fn tagged(value: &[u8; 64], tag: u8) -> [u8; 65]
    ensures { result ≡ value.now ++ tag ∷ [] }
{
    let mut text = [tag; 65];
    text[..64].copy_from_slice(value);
    text
}

// One number's bytes behind another's.
pub(crate) fn both(first: &[u8; 66], second: &[u8; 66]) -> [u8; 132]
    ensures { result ≡ first.now ++ second.now }
{
    let mut bytes = [0u8; 132];
    bytes[..66].copy_from_slice(first);
    bytes[66..].copy_from_slice(second);
    bytes
}
