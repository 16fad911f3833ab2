//! The state K and V that gives the nonces of ECDSA over P-256, and HMAC for it.

ghost use Rattle.std.specs.Prelude.{◌≡◌, ℕ, ◌%◌, ◌∷◌, ◌++◌, [], List};
ghost use Rattle.p256_order.specs.Scalars.{order};
ghost use Rattle.wide_words.specs.Numbers.{bits_to_int};
ghost use Rattle.p256_ecdsa.specs.Nonces.{mac, seeded};

use hmac_core::hmac_sha256;
use p256_order::Scalar;
use wide_words::U256;

/// K and V.
#[derive(Drop)]
pub struct State {
    pub key: [u8; 32],
    pub value: [u8; 32],
}

impl State {
    /// K and V after the steps b to g.
    pub(crate) fn seeded(d: &Scalar, e: &Scalar) -> State
        ensures { (hash : List ℕ) → e.now ≡ bits_to_int 256 hash % order
            → result ≡ seeded d.now hash }
    {
        let x = d.to_words().to_bytes();
        let z = e.to_words().to_bytes();
        let v = [1u8; 32];
        let k = [0u8; 32];
        let k1 = mac(&k, &seed_text(&v, 0, &x, &z));
        let v1 = mac(&k1, &v);
        let k2 = mac(&k1, &seed_text(&v1, 1, &x, &z));
        let v2 = mac(&k2, &v1);
        State { key: k2, value: v2 }
    }
}

// The number of the leftmost 256 bits: bits2int, of section 2.3.2.
pub(crate) fn leftmost_bits(bytes: &[u8; 32]) -> U256
    ensures { result ≡ bits_to_int 256 bytes.now }
{
    U256::from_bytes(bytes)
}

// HMAC.
pub(crate) fn mac(key: &[u8; 32], message: &[u8]) -> [u8; 32]
    ensures { result ≡ mac key.now message.now }
{
    hmac_sha256(key, message)
}

// V, a byte, the private key and the hash.
fn seed_text(value: &[u8; 32], tag: u8, x: &[u8; 32], z: &[u8; 32]) -> [u8; 97]
    ensures { result ≡ value.now ++ (tag ∷ []) ++ x.now ++ z.now }
{
    let mut text = [0u8; 97];
    text[..33].copy_from_slice(&tagged(value, tag));
    text[33..].copy_from_slice(&both(x, z));
    text
}

// V and a byte.
pub(crate) fn tagged(value: &[u8; 32], tag: u8) -> [u8; 33]
    ensures { result ≡ value.now ++ tag ∷ [] }
{
    let mut text = [tag; 33];
    text[..32].copy_from_slice(value);
    text
}

// One number's bytes behind another's.
pub(crate) fn both(first: &[u8; 32], second: &[u8; 32]) -> [u8; 64]
    ensures { result ≡ first.now ++ second.now }
{
    let mut bytes = [0u8; 64];
    bytes[..32].copy_from_slice(first);
    bytes[32..].copy_from_slice(second);
    bytes
}
