//! RSASSA-PKCS1-V1_5-SIGN.

ghost use Rattle.std.specs.Prelude.{◌≡◌, ◌+◌, ◌-◌, ◌*◌, ◌/◌, ◌%◌, ◌<◌, ◌≤◌, ℕ, IfOk, List, MatchOption, None, Option, Some, length, nat_eq, slice_index};
ghost use Rattle.rsa_numbers.specs.Numbers.{value, weight};
ghost use Rattle.rsa_octets.specs.Octets.{i2osp, os2ip};
ghost use Rattle.rsa_verify.specs.Encoding.{info};
ghost use Rattle.rsa_sign.specs.Keys.{signed, signed_by, signed_sized};
ghost use Rattle.rsa_sign.specs.Signing.{power};

use crate::joining::joined_of;
use crate::key::{Key, has_key_sizes};
use crate::part::part_of;
use crate::wipe::{wipe, wipe_octets};
use crate::words::{octets_of, words_of};
use rsa_octets::without_zeros;
use rsa_verify::{Hash, digest_info, encode, verify_info};
use std::alloc::{AllocError, Global};

// What a key makes of an encoded message, in as many octets.
fn candidate(
    alloc: Global,
    message: &[u8],
    d: &[u64],
    p: &[u64],
    q: &[u64],
    iqmp: &[u64],
) -> Result<Vec<u8>, AllocError>
    requires message_fits { length message.now ≤ 1024 }
    requires p_filled { 0 < length p.now }
    requires p_bounded { length p.now ≤ 64 }
    requires p_odd { slice_index p.now 0 % 2 ≡ 1 }
    requires p_top { weight (length p.now - 1) < value p.now }
    requires q_filled { 0 < length q.now }
    requires q_bounded { length q.now ≤ 64 }
    requires q_odd { slice_index q.now 0 % 2 ≡ 1 }
    requires q_top { weight (length q.now - 1) < value q.now }
    requires iqmp_fits { length iqmp.now ≡ length p.now }
    ensures { IfOk result (λ v. v.items
        ≡ i2osp (power (value p.now) (value q.now) (value d.now) (value iqmp.now) (os2ip message.now))
        (length message.now)) }
{
    let m = words_of(alloc, message, (message.len() + 7) / 8)?;
    let mut m1 = part_of(alloc, &m, d, p)?;
    let mut m2 = part_of(alloc, &m, d, q)?;
    let mut s = joined_of(alloc, &m1, &m2, iqmp, p, q)?;
    let signature = octets_of(alloc, &mut s, message.len())?;
    wipe(&mut m1);
    wipe(&mut m2);
    wipe(&mut s);
    Ok(signature)
}

// Whether a number is odd.
fn is_odd(words: &[u64]) -> bool
    requires { 0 < length words.now }
    ensures { result ≡ nat_eq (value words.now % 2) 1 }
{
    words[0] % 2 == 1
}

// As `sign_info`, of a modulus without zeros in front, and of words.
fn sign_words(
    alloc: Global,
    modulus: &[u8],
    e: u64,
    d: &[u64],
    p: &[u64],
    q: &[u64],
    iqmp: &[u64],
    info: &[u8],
) -> Result<Option<Vec<u8>>, AllocError>
    requires room { length info.now ≤ 117 }
    requires long { 128 ≤ length modulus.now }
    requires bounded { length modulus.now ≤ 1024 }
    requires p_long { 2 ≤ length p.now }
    requires p_bounded { length p.now ≤ 64 }
    requires p_leads { weight (length p.now - 1) ≤ value p.now }
    requires q_long { 2 ≤ length q.now }
    requires q_bounded { length q.now ≤ 64 }
    requires q_leads { weight (length q.now - 1) ≤ value q.now }
    requires iqmp_fits { length iqmp.now ≡ length p.now }
    ensures { (x : Option (List ℕ))
        → x ≡ signed_by modulus.now e (value d.now) (value p.now) (value q.now) (value iqmp.now) info.now
        → IfOk result (λ o. MatchOption o (x ≡ None) (λ s. x ≡ Some s.items)) }
{
    if !is_odd(p) {
        return Ok(None);
    }
    if !is_odd(q) {
        return Ok(None);
    }
    let message = encode(alloc, modulus.len(), info)?;
    let mut signature = candidate(alloc, &message, d, p, q, iqmp)?;
    if verify_info(alloc, modulus, e, info, &signature)? {
        Ok(Some(signature))
    } else {
        wipe_octets(&mut signature);
        Ok(None)
    }
}

/// The signature of a DigestInfo of at most 117 octets, if the key is one and the signature verifies,
/// else None. It fails for want of memory alone.
///
/// A number that doesn't verify stays here: by a wrong one, of wrong numbers or a fault of the
/// machine, a factor can be found. What is made of the key on the way is zero before it is freed,
/// where memory suffices; no clause says so.
pub fn sign_info(alloc: Global, key: &Key<'_>, info: &[u8]) -> Result<Option<Vec<u8>>, AllocError>
    requires room { length info.now ≤ 117 }
    ensures { IfOk result (λ o. MatchOption o
        (signed key.now.modulus.now key.now.e key.now.d.now key.now.p.now key.now.q.now key.now.iqmp.now info.now ≡ None)
        (λ s. signed key.now.modulus.now key.now.e key.now.d.now key.now.p.now key.now.q.now key.now.iqmp.now info.now
        ≡ Some s.items)) }
{
    sign_any(alloc, key, info)
}

// As `sign_info`, of a signature by any other name.
fn sign_any(alloc: Global, key: &Key<'_>, info: &[u8]) -> Result<Option<Vec<u8>>, AllocError>
    requires room { length info.now ≤ 117 }
    ensures { (x : Option (List ℕ))
        → x ≡ signed key.now.modulus.now key.now.e key.now.d.now key.now.p.now key.now.q.now key.now.iqmp.now info.now
        → IfOk result (λ o. MatchOption o (x ≡ None) (λ s. x ≡ Some s.items)) }
{
    sign_significant(
        alloc,
        without_zeros(key.modulus),
        key.e,
        without_zeros(key.d),
        without_zeros(key.p),
        without_zeros(key.q),
        without_zeros(key.iqmp),
        info,
    )
}

// As `sign_info`, of octets without zeros in front.
fn sign_significant(
    alloc: Global,
    modulus: &[u8],
    e: u64,
    d: &[u8],
    p: &[u8],
    q: &[u8],
    iqmp: &[u8],
    info: &[u8],
) -> Result<Option<Vec<u8>>, AllocError>
    requires room { length info.now ≤ 117 }
    requires p_leads { 0 < length p.now → 1 ≤ slice_index p.now 0 }
    requires q_leads { 0 < length q.now → 1 ≤ slice_index q.now 0 }
    ensures { (x : Option (List ℕ))
        → x ≡ signed_sized modulus.now e d.now p.now q.now iqmp.now info.now
        → IfOk result (λ o. MatchOption o (x ≡ None) (λ s. x ≡ Some s.items)) }
{
    if !has_key_sizes(modulus, d, p, q, iqmp) {
        return Ok(None);
    }
    sign_sized(alloc, modulus, e, d, p, q, iqmp, info)
}

// As `sign_info`, of octets without zeros in front that have the sizes of a key's.
fn sign_sized(
    alloc: Global,
    modulus: &[u8],
    e: u64,
    d: &[u8],
    p: &[u8],
    q: &[u8],
    iqmp: &[u8],
    info: &[u8],
) -> Result<Option<Vec<u8>>, AllocError>
    requires room { length info.now ≤ 117 }
    requires long { 128 ≤ length modulus.now }
    requires bounded { length modulus.now ≤ 1024 }
    requires p_long { 9 ≤ length p.now }
    requires p_bounded { length p.now ≤ 512 }
    requires p_leads { 1 ≤ slice_index p.now 0 }
    requires q_long { 9 ≤ length q.now }
    requires q_bounded { length q.now ≤ 512 }
    requires q_leads { 1 ≤ slice_index q.now 0 }
    requires d_fits { length d.now ≤ length modulus.now }
    requires iqmp_fits { length iqmp.now ≤ length p.now }
    ensures { (x : Option (List ℕ))
        → x ≡ signed_by modulus.now e (os2ip d.now) (os2ip p.now) (os2ip q.now) (os2ip iqmp.now) info.now
        → IfOk result (λ o. MatchOption o (x ≡ None) (λ s. x ≡ Some s.items)) }
{
    let mut p_words = words_of(alloc, p, (p.len() + 7) / 8)?;
    let mut q_words = words_of(alloc, q, (q.len() + 7) / 8)?;
    let mut d_words = words_of(alloc, d, (d.len() + 7) / 8)?;
    let mut iqmp_words = words_of(alloc, iqmp, (p.len() + 7) / 8)?;
    let signed = sign_words(
        alloc,
        modulus,
        e,
        &d_words,
        &p_words,
        &q_words,
        &iqmp_words,
        info,
    );
    wipe(&mut p_words);
    wipe(&mut q_words);
    wipe(&mut d_words);
    wipe(&mut iqmp_words);
    signed
}

/// The signature of a message (RFC 8017, section 8.2.1), if the key is one and the signature verifies,
/// else None: as `sign_info`.
pub fn sign(
    alloc: Global,
    key: &Key<'_>,
    hash: Hash,
    message: &[u8],
) -> Result<Option<Vec<u8>>, AllocError>
    ensures { IfOk result (λ o. MatchOption o
        (signed key.now.modulus.now key.now.e key.now.d.now key.now.p.now key.now.q.now key.now.iqmp.now
        (info hash message.now) ≡ None)
        (λ s. signed key.now.modulus.now key.now.e key.now.d.now key.now.p.now key.now.q.now key.now.iqmp.now
        (info hash message.now) ≡ Some s.items)) }
{
    let info = digest_info(alloc, hash, message)?;
    sign_any(alloc, key, &info)
}
