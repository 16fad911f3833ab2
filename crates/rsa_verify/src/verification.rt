//! RSASSA-PKCS1-V1_5-VERIFY.

ghost use Rattle.std.specs.Prelude.{◌≡◌, ◌&&◌, ℕ, ◌+◌, ◌-◌, ◌*◌, ◌/◌, ◌%◌, ◌^◌, ◌<◌, ◌≤◌, IfOk, length, nat_eq, nat_lt, slice_index};
ghost use Rattle.rsa_numbers.specs.Numbers.{value, weight};
ghost use Rattle.rsa_octets.specs.Octets.{os2ip};
ghost use Rattle.rsa_verify.specs.Encoding.{info};
ghost use Rattle.rsa_verify.specs.Verification.{accepts};

use crate::encoding::{digest_info, encode};
use crate::hash::Hash;
use crate::modulus::has_size;
use rsa_numbers::at_least;
use rsa_octets::{from_octets, without_zeros};
use rsa_powers::{negative_inverse, pow};
use std::alloc::{AllocError, Global};

// Whether two numbers of one length are equal, in a time that depends on nothing.
fn same(a: &[u64], b: &[u64]) -> bool
    requires { length a.now ≡ length b.now }
    ensures { result ≡ nat_eq (value a.now) (value b.now) }
{
    at_least(a, b) == 1 && at_least(b, a) == 1
}

// Whether the modulus is odd, s is below it, and s^e modulo it is the number of the message. The words
// are room.
fn opens(
    modulus: &[u8],
    e: u64,
    message: &[u8],
    signature: &[u8],
    n: &mut [u64],
    s: &mut [u64],
    t: &mut [u64],
    base: &mut [u64],
    spare: &mut [u64],
    turn: &mut [u64],
) -> bool
    requires leading { 1 ≤ slice_index modulus.now 0 }
    requires long { 128 ≤ length modulus.now }
    requires bounded { length modulus.now ≤ 1024 }
    requires n_fits { length n.old ≡ (length modulus.now + 7) / 8 }
    requires s_fits { length s.old ≡ length n.old }
    requires t_fits { length t.old ≡ length n.old }
    requires base_fits { length base.old ≡ length n.old }
    requires spare_fits { length spare.old ≡ length n.old }
    requires turn_fits { length turn.old ≡ length n.old }
    requires message_fits { length message.now ≡ length modulus.now }
    requires signature_fits { length signature.now ≡ length modulus.now }
    ensures { result ≡ (nat_eq (os2ip modulus.now % 2) 1
        && (nat_lt (os2ip signature.now) (os2ip modulus.now)
        && nat_eq (os2ip signature.now ^ e % os2ip modulus.now) (os2ip message.now))) }
{
    from_octets(n, modulus);
    if n[0] % 2 != 1 {
        return false;
    }
    from_octets(s, signature);
    if at_least(s, n) == 1 {
        return false;
    }
    let inverse = negative_inverse(n[0]);
    pow(t, s, e, base, spare, turn, n, inverse);
    from_octets(base, message);
    same(t, base)
}

/// Whether a signature is one of a DigestInfo of at most 117 octets under the modulus and the public
/// exponent (RFC 8017, section 8.2.2). Zeros in front of the modulus count for nothing. It fails for
/// want of memory alone, and takes a time that depends on what it is given.
pub fn verify_info(
    alloc: Global,
    modulus: &[u8],
    e: u64,
    info: &[u8],
    signature: &[u8],
) -> Result<bool, AllocError>
    requires room { length info.now ≤ 117 }
    ensures { IfOk result (λ r. r ≡ accepts modulus.now e info.now signature.now) }
{
    let modulus = without_zeros(modulus);
    if !has_size(modulus) {
        return Ok(false);
    }
    if signature.len() != modulus.len() {
        return Ok(false);
    }
    let message = encode(alloc, modulus.len(), info)?;
    let k = (modulus.len() + 7) / 8;
    let mut n = vec![in alloc; 0u64; k]?;
    let mut s = vec![in alloc; 0u64; k]?;
    let mut t = vec![in alloc; 0u64; k]?;
    let mut base = vec![in alloc; 0u64; k]?;
    let mut spare = vec![in alloc; 0u64; k]?;
    let mut turn = vec![in alloc; 0u64; k]?;
    Ok(opens(
        modulus, e, &message, signature, &mut n, &mut s, &mut t, &mut base, &mut spare, &mut turn,
    ))
}

/// Whether a signature is one of a message under the modulus, the public exponent and the hash (RFC
/// 8017, section 8.2.2): the modulus, without zeros in front, is odd and has 1024 to 8192 bits; the
/// signature is as long; and its number, below the modulus, raised to the exponent, is that of the
/// encoded message. It fails for want of memory alone.
pub fn verify(
    alloc: Global,
    modulus: &[u8],
    e: u64,
    hash: Hash,
    message: &[u8],
    signature: &[u8],
) -> Result<bool, AllocError>
    ensures { IfOk result (λ r. r ≡ accepts modulus.now e (info hash message.now) signature.now) }
{
    let info = digest_info(alloc, hash, message)?;
    verify_info(alloc, modulus, e, &info, signature)
}
