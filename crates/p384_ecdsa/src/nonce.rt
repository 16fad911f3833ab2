//! The state K and V that gives the nonces of ECDSA over P-384, and HMAC for it.

ghost use Rattle.std.specs.Prelude.{◌≡◌, ℕ, ◌%◌, ◌∷◌, ◌++◌, [], List};
ghost use Rattle.p384_order.specs.Scalars.{order};
ghost use Rattle.wide_words.specs.Numbers.{bits_to_int};
ghost use Rattle.p384_ecdsa.specs.Nonces.{mac, seeded};

use hmac_wide::hmac_sha384;
use p384_order::Scalar;
use wide_words::U384;

/// K and V.
#[derive(Drop)]
pub struct State {
    pub key: [u8; 48],
    pub value: [u8; 48],
}

impl State {
    /// K and V after the steps b to g.
    pub(crate) fn seeded(d: &Scalar, e: &Scalar) -> State
        ensures { (hash : List ℕ) → e.now ≡ bits_to_int 384 hash % order
            → result ≡ seeded d.now hash }
    {
        let x = d.to_words().to_bytes();
        let z = e.to_words().to_bytes();
        let v = [1u8; 48];
        let k = [0u8; 48];
        let k1 = mac(&k, &seed_text(&v, 0, &x, &z));
        let v1 = mac(&k1, &v);
        let k2 = mac(&k1, &seed_text(&v1, 1, &x, &z));
        let v2 = mac(&k2, &v1);
        State { key: k2, value: v2 }
    }
}

// The number of the leftmost 384 bits: bits2int, of section 2.3.2.
pub(crate) fn leftmost_bits(bytes: &[u8; 48]) -> U384
    ensures { result ≡ bits_to_int 384 bytes.now }
{
    U384::from_bytes(bytes)
}

// HMAC.
pub(crate) fn mac(key: &[u8; 48], message: &[u8]) -> [u8; 48]
    ensures { result ≡ mac key.now message.now }
{
    hmac_sha384(key, message)
}

// V, a byte, the private key and the hash.
fn seed_text(value: &[u8; 48], tag: u8, x: &[u8; 48], z: &[u8; 48]) -> [u8; 145]
    ensures { result ≡ value.now ++ (tag ∷ []) ++ x.now ++ z.now }
{
    let mut text = [0u8; 145];
    text[..49].copy_from_slice(&tagged(value, tag));
    text[49..].copy_from_slice(&both(x, z));
    text
}

// V and a byte.
pub(crate) fn tagged(value: &[u8; 48], tag: u8) -> [u8; 49]
    ensures { result ≡ value.now ++ tag ∷ [] }
{
    let mut text = [tag; 49];
    text[..48].copy_from_slice(value);
    text
}

// One number's bytes behind another's.
pub(crate) fn both(first: &[u8; 48], second: &[u8; 48]) -> [u8; 96]
    ensures { result ≡ first.now ++ second.now }
{
    let mut bytes = [0u8; 96];
    bytes[..48].copy_from_slice(first);
    bytes[48..].copy_from_slice(second);
    bytes
}
