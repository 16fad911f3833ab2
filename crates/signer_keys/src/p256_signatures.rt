//! Signatures by ECDSA keys over P-256.

ghost use Rattle.std.specs.Prelude.{◌≡◌, ◌≤◌, ◌++◌, IfOk, Option, length, option_map};
ghost use Rattle.ecdsa_wire.specs.Names.{point_len};
ghost use Rattle.signer_keys.specs.Ecdsa.{p256_judged, p256_point, p256_signature, p256_signed, p256_text};
ghost use Rattle.wide_words.specs.Numbers.{big_endian};
ghost use Rattle.wire_core.specs.Readings.{IsAnswer};

use crate::numbers::{in_32_bytes, put_mpint, signature_text};
use ecdsa_wire::{Curve, read_pair, read_signature};
use key_wire::KeyFault;
use p256_ecdsa::{BaseTable, sign_checked, verify};
use std::alloc::{AllocError, Global};

/// r and s in 32 bytes each, where the private string and the blob are one key's over P-256.
#[tactic(auto, unfolding(crate::specs::Ecdsa::ecdsa_signature))]
pub fn sign(
    table: &BaseTable,
    private: &[u8],
    blob: &[u8],
    message: &[u8],
) -> Result<[u8; 64], KeyFault>
    ensures { IsAnswer (λ bytes. bytes) result (p256_signature private.now blob.now message.now) }
{
    let pair = read_pair(private, blob)?;
    let point = point_of(pair.curve, pair.point)?;
    let number = in_32_bytes(pair.secret)?;
    sign_by(table, &number, &point, message).ok_or(KeyFault::Unfit)
}

/// The bytes of a point, where the curve is P-256.
pub fn point_of(curve: Curve, point: &[u8]) -> Result<[u8; 65], KeyFault>
    requires { length point.now ≡ point_len curve }
    ensures { IsAnswer (λ bytes. bytes) result (p256_point curve point.now) }
{
    match curve {
        Curve::P256 => Ok(as_point(point)),
        _ => Err(KeyFault::Unfit),
    }
}

// The bytes of a point of P-256.
pub fn as_point(bytes: &[u8]) -> [u8; 65]
    requires { length bytes.now ≡ 65 }
    ensures { result ≡ bytes.now }
{
    let mut point = [0; 65];
    point.copy_from_slice(bytes);
    point
}

// r and s, where the number gives the point.
fn sign_by(
    table: &BaseTable,
    number: &[u8; 32],
    point: &[u8; 65],
    message: &[u8],
) -> Option<[u8; 64]>
    ensures { option_map (λ bytes. bytes) result ≡ p256_signed (big_endian number.now) point.now message.now }
{
    sign_checked(table, number, point, message)
}

/// A signature as SSH carries it.
#[tactic(auto, unfolding(crate::specs::Ecdsa::ecdsa_text))]
pub fn text(alloc: Global, bytes: &[u8; 64]) -> Result<Vec<u8>, AllocError>
    ensures ok { IfOk result (λ text. text.items ≡ p256_text bytes.now) }
    ensures sized { IfOk result (λ text. length text.items ≤ 1064) }
{
    let mut numbers = Vec::new(alloc);
    put_mpint(&mut numbers, &bytes[..32])?;
    put_mpint(&mut numbers, &bytes[32..])?;
    signature_text(alloc, Curve::P256.plain_name(), &numbers)
}

/// Whether the point accepts the signature of the message, where this is one.
#[tactic(auto, unfolding(crate::specs::Ecdsa::ecdsa_judged))]
pub fn judge(
    table: &BaseTable,
    point: &[u8; 65],
    message: &[u8],
    text: &[u8],
) -> Result<bool, KeyFault>
    ensures { IsAnswer (λ holds. holds) result (p256_judged point.now message.now text.now) }
{
    let numbers = read_signature(text, Curve::P256)?;
    let r = in_32_bytes(numbers.r)?;
    let s = in_32_bytes(numbers.s)?;
    Ok(verify(table, point, message, &joined(&r, &s)))
}

// r and s, one after the other.
fn joined(r: &[u8; 32], s: &[u8; 32]) -> [u8; 64]
    ensures { result ≡ r.now ++ s.now }
{
    let mut both = [0; 64];
    both[..32].copy_from_slice(r);
    both[32..].copy_from_slice(s);
    both
}
