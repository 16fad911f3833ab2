//! ECDSA signatures over P-521, with the nonces of RFC 6979.

ghost use Rattle.std.specs.Prelude.{◌≡◌, ◌≢◌, ◌⊎◌, ◌%◌, ℕ, false, true, Some, None, MatchOption};
ghost use Rattle.sha2.specs.Sha512.{sha512};
ghost use Rattle.wide_words.specs.Numbers.{big_endian};
ghost use Rattle.p521_order.specs.Scalars.{order};
ghost use Rattle.p521_ecdsa.specs.Keys.{in_range, public_key};
ghost use Rattle.p521_ecdsa.specs.Signatures.{first_usable, is_usable, joined, signature, signed_with};

use crate::keys::{is_in_range, is_key_of};
use crate::nonce::{State, both, leftmost_bits, leftmost_of_both, mac, tagged};
use p521_multiples::BaseTable;
use p521_order::Scalar;
use sha2::{Digest, Sha512};
use wide_words::U576;

// How many nonces are tried. One is out of range with a probability below 2^-32.
const TURNS: usize = 64;

/// r and s.
#[derive(Drop)]
pub struct Pair {
    pub r: Scalar,
    pub s: Scalar,
}

/// The signature of a message under a private key, r and s in 66 bytes each (FIPS 186-5,
/// section 6.4.1, with the nonce of RFC 6979), where the private key is a number above 0 and below
/// n, `public` is its public key, and one of the first 64 nonces serves; else None. It takes no
/// memory and fails for nothing else.
///
/// The public key is made anew from the private key, so that no key that was stored wrongly, and
/// none that another chose, gets a signature.
pub fn sign_checked(
    table: &BaseTable,
    private: &[u8; 66],
    public: &[u8; 133],
    message: &[u8],
) -> Option<[u8; 132]>
    ensures { MatchOption result
        ((in_range (big_endian private.now) ≡ false)
        ⊎ ((public.now ≢ public_key (big_endian private.now))
        ⊎ (signature (big_endian private.now) (sha512 message.now) ≡ None)))
        (λ bytes. (in_range (big_endian private.now) ≡ true)
        × (public.now ≡ public_key (big_endian private.now))
        × (signature (big_endian private.now) (sha512 message.now) ≡ Some bytes)) }
{
    let d = U576::from_bytes(private);
    if !is_in_range(&d) {
        return None;
    }
    if !is_key_of(table, &d, public) {
        return None;
    }
    sign_twice(table, &Scalar::from_words(&d), message)
}

// The signature of a message, made twice from its hash on. Nonces don't change, so one in which the machine made a fault would
// give the private key away beside a right one: where both aren't the same, none leaves.
fn sign_twice(table: &BaseTable, d: &Scalar, message: &[u8]) -> Option<[u8; 132]>
    ensures { MatchOption result (signature d.now (sha512 message.now) ≡ None)
        (λ bytes. signature d.now (sha512 message.now) ≡ Some bytes) }
{
    let signature = sign_hash(table, d, &hash_of(message))?;
    let again = sign_hash(table, d, &hash_of(message))?;
    if again != signature {
        return None;
    }
    Some(signature)
}

// The signature of a hash.
#[inline(never)]
fn sign_hash(table: &BaseTable, d: &Scalar, hash: &[u8; 64]) -> Option<[u8; 132]>
    ensures { MatchOption result (signature d.now hash.now ≡ None)
        (λ bytes. signature d.now hash.now ≡ Some bytes) }
{
    match pair_of(table, d, hash) {
        Some(pair) => Some(bytes_of(&pair)),
        None => None,
    }
}

// r and s by the first nonce that serves.
fn pair_of(table: &BaseTable, d: &Scalar, hash: &[u8; 64]) -> Option<Pair>
    ensures { result ≡ first_usable d.now hash.now }
{
    let e = Scalar::from_words(&leftmost_bits(hash));
    let state = State::seeded(d, &e);
    let mut key = state.key;
    let mut value = state.value;
    for _turn in 0..TURNS {
        let first = mac(&key, &value);
        let next = mac(&key, &first);
        let k = leftmost_of_both(&first, &next);
        if is_in_range(&k) {
            let pair = signed_with(table, d, &e, &k);
            if is_usable(&pair) {
                return Some(pair);
            }
        }
        key = mac(&key, &tagged(&next, 0));
        value = mac(&key, &next);
    }
    None
}

// r and s by this nonce, which is in range.
fn signed_with(table: &BaseTable, d: &Scalar, e: &Scalar, k: &U576) -> Pair
    requires { in_range k.now ≡ true }
    ensures { (hash : ℕ) → e.now ≡ hash % order → result ≡ signed_with d.now hash k.now }
{
    let r = Scalar::from_words(&table.multiple(k).affine_x());
    let s = Scalar::from_words(k).inverse().mul(&e.add(&r.mul(d)));
    Pair { r, s }
}

// Whether neither number is 0.
fn is_usable(pair: &Pair) -> bool
    ensures { result ≡ is_usable pair.now }
{
    let zero = Scalar::zero();
    if pair.r.equals(&zero) {
        return false;
    }
    !pair.s.equals(&zero)
}

// r and s, one after the other.
fn bytes_of(pair: &Pair) -> [u8; 132]
    ensures { joined (Some pair.now) ≡ Some result }
{
    both(&pair.r.to_words().to_bytes(), &pair.s.to_words().to_bytes())
}

// The hash of a message.
pub(crate) fn hash_of(message: &[u8]) -> [u8; 64]
    ensures { result ≡ sha512 message.now }
{
    Sha512::digest(message)
}
