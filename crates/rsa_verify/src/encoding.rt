//! EMSA-PKCS1-v1_5 of RFC 8017, section 9.2.

ghost use Rattle.std.specs.Prelude.{◌≡◌, ◌+◌, ◌++◌, ◌-◌, ◌≤◌, IfOk, length, vec_len};
ghost use Rattle.rsa_verify.specs.Encoding.{encoded, info};

use crate::hash::Hash;
use sha1::Sha1;
use sha2::{Digest, Sha256, Sha512};
use std::alloc::{AllocError, Global};

const SHA1_PREFIX: [u8; 15] = [48, 33, 48, 9, 6, 5, 43, 14, 3, 2, 26, 5, 0, 4, 20];

const SHA256_PREFIX: [u8; 19] = [
    48, 49, 48, 13, 6, 9, 96, 134, 72, 1, 101, 3, 4, 2, 1, 5, 0, 4, 32,
];

const SHA512_PREFIX: [u8; 19] = [
    48, 81, 48, 13, 6, 9, 96, 134, 72, 1, 101, 3, 4, 2, 3, 5, 0, 4, 64,
];

/// The DigestInfo of a message, at most 83 octets: steps 1 and 2. It fails for want of memory alone.
pub fn digest_info(alloc: Global, hash: Hash, message: &[u8]) -> Result<Vec<u8>, AllocError>
    ensures ok { IfOk result (λ v. v.items ≡ info hash message.now) }
    ensures bound { IfOk result (λ v. vec_len v ≤ 83) }
{
    match hash {
        Hash::Sha1 => joined(alloc, &SHA1_PREFIX, &Sha1::digest(message)),
        Hash::Sha256 => joined(alloc, &SHA256_PREFIX, &Sha256::digest(message)),
        Hash::Sha512 => joined(alloc, &SHA512_PREFIX, &Sha512::digest(message)),
    }
}

// Two texts as one.
fn joined(alloc: Global, first: &[u8], second: &[u8]) -> Result<Vec<u8>, AllocError>
    ensures ok { IfOk result (λ v. v.items ≡ first.now ++ second.now) }
    ensures size { IfOk result (λ v. vec_len v ≡ length first.now + length second.now) }
{
    let mut both = Vec::from_slice(alloc, first)?;
    both.extend_from_slice(second)?;
    Ok(both)
}

/// The encoded message of k octets, of a DigestInfo: steps 3 to 5.
pub fn encode(alloc: Global, k: usize, info: &[u8]) -> Result<Vec<u8>, AllocError>
    requires room { length info.now + 11 ≤ k }
    ensures { IfOk result (λ v. v.items ≡ encoded k info.now) }
{
    let mut message = Vec::new(alloc);
    message.push(0u8)?;
    message.push(1)?;
    for _octet in 0..k - info.len() - 3 {
        message.push(255)?;
    }
    message.push(0)?;
    message.extend_from_slice(info)?;
    Ok(message)
}
