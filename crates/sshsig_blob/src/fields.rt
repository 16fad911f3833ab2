//! The fields of the signed data. A refused call may have moved the cursor.

ghost use Rattle.std.specs.Prelude.{◌≡◌, MatchResult, Ok, Err};
ghost use Rattle.sshsig_blob.specs.Reading.{after_preamble, namespace_at, digest_len, hash_at, digest_at};

use crate::fault::SshsigFault;
use wire_core::Cursor;

/// The bytes behind the preamble.
#[tactic(auto, unfolding(crate::specs::Reading::after_preamble))]
pub fn fields_of(message: &[u8]) -> Result<&[u8], SshsigFault>
    ensures { MatchResult result (λ fields. after_preamble message.now ≡ Ok fields.now)
        (λ fault. after_preamble message.now ≡ Err fault) }
{
    message
        .strip_prefix(b"SSHSIG".as_slice())
        .ok_or(SshsigFault::Preamble)
}

/// Takes the namespace.
#[tactic(auto, unfolding(crate::specs::Reading::namespace_at))]
pub fn take_namespace<'a>(from: &mut Cursor<'a>) -> Result<&'a [u8], SshsigFault>
    ensures { MatchResult result
        (λ namespace. namespace_at from.old ≡ Ok (namespace.now, from.new))
        (λ fault. namespace_at from.old ≡ Err fault) }
{
    let namespace = from.take_string()?;
    if namespace.is_empty() {
        return Err(SshsigFault::EmptyNamespace);
    }
    Ok(namespace)
}

/// The length of a digest by the hash algorithm of this name, in bytes.
#[tactic(auto, unfolding(crate::specs::Reading::digest_len))]
fn len_by(algorithm: &[u8]) -> Option<usize>
    ensures { result ≡ digest_len algorithm.now }
{
    if algorithm == b"sha256".as_slice() {
        Some(32)
    } else if algorithm == b"sha512".as_slice() {
        Some(64)
    } else {
        None
    }
}

/// Takes the hash algorithm: its name, and the length of its digests.
#[tactic(auto, unfolding(crate::specs::Reading::hash_at))]
pub fn take_hash<'a>(from: &mut Cursor<'a>) -> Result<(&'a [u8], usize), SshsigFault>
    ensures { MatchResult result
        (λ hash. hash_at from.old ≡ Ok ((hash.0.now, hash.1), from.new))
        (λ fault. hash_at from.old ≡ Err fault) }
{
    let algorithm = from.take_string()?;
    let len = len_by(algorithm).ok_or(SshsigFault::HashAlgorithm)?;
    Ok((algorithm, len))
}

/// Takes a digest of this length.
#[tactic(auto, unfolding(crate::specs::Reading::digest_at))]
pub fn take_digest<'a>(from: &mut Cursor<'a>, len: usize) -> Result<&'a [u8], SshsigFault>
    ensures { MatchResult result (λ digest. digest_at len from.old ≡ Ok (digest.now, from.new))
        (λ fault. digest_at len from.old ≡ Err fault) }
{
    let digest = from.take_string()?;
    if digest.len() != len {
        return Err(SshsigFault::Digest);
    }
    Ok(digest)
}
