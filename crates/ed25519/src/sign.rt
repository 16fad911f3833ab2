//! Signatures under a seed whose public key is checked first (RFC 8032, section 5.1.6).

ghost use Rattle.std.specs.Prelude.{◌≡◌, ◌≢◌, ◌++◌, ℕ, List, MatchOption};
ghost use Rattle.sha2.specs.Sha512.{sha512};
ghost use Rattle.ed25519.specs.Keys.{public_key, secret_scalar};
ghost use Rattle.ed25519.specs.Signatures.{signature};

use crate::hash::{hash_of, hash_of_three, hash_of_two};
use crate::keys::{encoded_multiple, secret_scalar_of};
use curve25519_multiples::BaseTable;
use scalar25519::Scalar;
use words64::Words;

/// The signature of a message under a seed, 64 bytes (RFC 8032, section 5.1.6), if `public` is the
/// seed's public key, else None. It takes no memory and fails for nothing else.
///
/// The public key is made anew from the seed, so that no key that was stored wrongly, and none that
/// another chose, gets into a signature.
pub fn sign_checked(
    table: &BaseTable,
    seed: &[u8; 32],
    public: &[u8; 32],
    message: &[u8],
) -> Option<[u8; 64]>
    ensures { MatchOption result (public.now ≢ public_key seed.now)
        (λ s. (public.now ≡ public_key seed.now) × (s ≡ signature seed.now message.now)) }
{
    let hash = hash_of(seed);
    let scalar = secret_scalar_of(&hash);
    let made = encoded_multiple(table, &scalar);
    if made != *public {
        return None;
    }
    sign_twice(table, &hash, &scalar, &made, message)
}

// The signature of a message, made twice. Nonces don't change, so one in which the machine made a fault would give the
// secret scalar away beside a right one: where both aren't the same, none leaves.
fn sign_twice(
    table: &BaseTable,
    hash: &[u8; 64],
    scalar: &Words,
    public: &[u8; 32],
    message: &[u8],
) -> Option<[u8; 64]>
    ensures { (seed : List ℕ) → hash.now ≡ sha512 seed → scalar.now ≡ secret_scalar seed
        → public.now ≡ public_key seed → MatchOption result ⊥ (λ s. s ≡ signature seed message.now) }
{
    let signature = sign_expanded(table, hash, scalar, public, message);
    let again = sign_expanded(table, hash, scalar, public, message);
    if again != signature {
        return None;
    }
    Some(signature)
}

// The signature of a message, of a seed's hash, secret scalar and public key.
#[inline(never)]
fn sign_expanded(
    table: &BaseTable,
    hash: &[u8; 64],
    scalar: &Words,
    public: &[u8; 32],
    message: &[u8],
) -> [u8; 64]
    ensures { (seed : List ℕ) → hash.now ≡ sha512 seed → scalar.now ≡ secret_scalar seed
        → public.now ≡ public_key seed → result ≡ signature seed message.now }
{
    let nonce = Scalar::from_bytes(&hash_of_two(&hash[32..], message));
    let commitment = encoded_multiple(table, nonce.as_words());
    let challenge = Scalar::from_bytes(&hash_of_three(&commitment, public, message));
    let response = challenge.mul_add(scalar, &nonce);
    joined(&commitment, &response.as_words().to_bytes())
}

// The two halves of a signature.
fn joined(first: &[u8; 32], second: &[u8; 32]) -> [u8; 64]
    ensures { result ≡ first.now ++ second.now }
{
    let mut both = [0u8; 64];
    both[..32].copy_from_slice(first);
    both[32..].copy_from_slice(second);
    both
}
