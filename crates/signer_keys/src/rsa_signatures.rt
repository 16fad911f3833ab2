//! Signatures by RSA keys.

ghost use Rattle.std.specs.Prelude.{◌≡◌, ◌≤◌, ℕ, IfOk, IfSome, MatchOption, Ok, Err, List, Option, Result, length, option_map, true, false};
ghost use Rattle.std.specs.Result.{result_unwrap_or};
ghost use Rattle.key_wire.specs.declared.fault.KeyFault.{KeyFault};
ghost use Rattle.key_wire.specs.declared.fault.KeyFault.TheVariants.{Unfit};
ghost use Rattle.rsa_wire.specs.Reading.{pair_of, public_of};
ghost use Rattle.signer_keys.specs.Rsa.{asked_for, hash_of, is_by_sha1, is_sha1, rsa_judged, rsa_signature, rsa_signed, rsa_text};

use crate::numbers::{in_a_word, in_bytes, signature_text};
use key_wire::KeyFault;
use rsa_verify::{Hash, verify};
use rsa_wire::{Algorithm, Pair, Public, Signature, read_pair, read_signature};
use std::alloc::{AllocError, Global};

/// The algorithm that the flags of a request ask for: SHA-256 where both are asked for.
#[tactic(auto, unfolding(crate::specs::Rsa::asked_for))]
pub fn asked_for(flags: u32) -> Algorithm
    ensures { result ≡ asked_for flags }
{
    if flags / 2 % 2 == 1 {
        Algorithm::Sha256
    } else if flags / 4 % 2 == 1 {
        Algorithm::Sha512
    } else {
        Algorithm::Sha1
    }
}

fn hash_of(algorithm: Algorithm) -> Hash
    ensures { result ≡ hash_of algorithm }
{
    match algorithm {
        Algorithm::Sha1 => Hash::Sha1,
        Algorithm::Sha256 => Hash::Sha256,
        Algorithm::Sha512 => Hash::Sha512,
    }
}

/// The bytes of the signature, where the private string and the blob are one key's, and it verifies.
#[tactic(auto, unfolding(crate::specs::Rsa::rsa_signature))]
pub fn sign(
    alloc: Global,
    private: &[u8],
    blob: &[u8],
    algorithm: Algorithm,
    message: &[u8],
) -> Result<Option<Vec<u8>>, AllocError>
    ensures ok { IfOk result (λ bytes. MatchOption bytes
        (rsa_signature private.now blob.now algorithm message.now ≡ Err Unfit)
        (λ b. rsa_signature private.now blob.now algorithm message.now ≡ Ok b.items)) }
    ensures sized { IfOk result (λ bytes. IfSome bytes (λ b. length b.items ≤ 1024)) }
{
    let Ok(pair) = read_pair(private, blob) else {
        return Ok(None);
    };
    let Ok(e) = in_a_word(pair.public.e) else {
        return Ok(None);
    };
    sign_by(alloc, &pair, e, algorithm, message)
}

fn sign_by(
    alloc: Global,
    pair: &Pair<'_>,
    e: u64,
    algorithm: Algorithm,
    message: &[u8],
) -> Result<Option<Vec<u8>>, AllocError>
    ensures ok { IfOk result (λ bytes. MatchOption bytes
        (rsa_signed (pair_of pair.now) e algorithm message.now ≡ Err Unfit)
        (λ b. rsa_signed (pair_of pair.now) e algorithm message.now ≡ Ok b.items)) }
    ensures sized { IfOk result (λ bytes. IfSome bytes (λ b. length b.items ≤ 1024)) }
{
    let key = rsa_sign::Key {
        modulus: pair.public.n,
        e,
        d: pair.private.d,
        p: pair.private.p,
        q: pair.private.q,
        iqmp: pair.private.iqmp,
    };
    rsa_sign::sign(alloc, &key, hash_of(algorithm), message)
}

/// A signature as SSH carries it.
#[tactic(auto, unfolding(crate::specs::Rsa::rsa_text))]
pub fn text(alloc: Global, algorithm: Algorithm, bytes: &[u8]) -> Result<Vec<u8>, AllocError>
    requires { length bytes.now ≤ 1024 }
    ensures ok { IfOk result (λ text. text.items ≡ rsa_text algorithm bytes.now) }
    ensures sized { IfOk result (λ text. length text.items ≤ 1064) }
{
    signature_text(alloc, algorithm.name(), bytes)
}

/// Whether this is a signature, and the key accepts it for the message. Zeros in front that were left off are put back.
#[tactic(auto, unfolding(crate::specs::Rsa::rsa_judged))]
pub fn signs(
    alloc: Global,
    key: &Public<'_>,
    message: &[u8],
    text: &[u8],
) -> Result<bool, AllocError>
    ensures { IfOk result (λ holds. holds ≡ result_unwrap_or (rsa_judged (public_of key.now) message.now text.now) false) }
{
    let Ok(signature) = read_signature(text) else {
        return Ok(false);
    };
    let Ok(e) = in_a_word(key.e) else {
        return Ok(false);
    };
    let Some(bytes) = in_bytes(alloc, key.n.len(), signature.bytes)? else {
        return Ok(false);
    };
    verify(
        alloc,
        key.n,
        e,
        hash_of(signature.algorithm),
        message,
        &bytes,
    )
}

/// Whether this is a signature by SHA-1.
#[tactic(auto, unfolding(crate::specs::Rsa::is_by_sha1))]
pub fn is_by_sha1(text: &[u8]) -> bool
    ensures { result ≡ is_by_sha1 text.now }
{
    match read_signature(text) {
        Ok(signature) => signature.algorithm == Algorithm::Sha1,
        Err(_) => false,
    }
}
