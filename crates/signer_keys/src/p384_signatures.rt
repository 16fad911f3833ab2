//! Signatures by ECDSA keys over P-384.

ghost use Rattle.std.specs.Prelude.{◌≡◌, ◌≤◌, ◌++◌, IfOk, Option, length, option_map};
ghost use Rattle.ecdsa_wire.specs.Names.{point_len};
ghost use Rattle.signer_keys.specs.Ecdsa.{p384_judged, p384_point, p384_signature, p384_signed, p384_text};
ghost use Rattle.wide_words.specs.Numbers.{big_endian};
ghost use Rattle.wire_core.specs.Readings.{IsAnswer};

use crate::numbers::{in_48_bytes, put_mpint, signature_text};
use ecdsa_wire::{Curve, read_pair, read_signature};
use key_wire::KeyFault;
use p384_ecdsa::{BaseTable, sign_checked, verify};
use std::alloc::{AllocError, Global};

/// r and s in 48 bytes each, where the private string and the blob are one key's over P-384.
#[tactic(auto, unfolding(crate::specs::Ecdsa::ecdsa_signature))]
pub fn sign(
    table: &BaseTable,
    private: &[u8],
    blob: &[u8],
    message: &[u8],
) -> Result<[u8; 96], KeyFault>
    ensures { IsAnswer (λ bytes. bytes) result (p384_signature private.now blob.now message.now) }
{
    let pair = read_pair(private, blob)?;
    let point = point_of(pair.curve, pair.point)?;
    let number = in_48_bytes(pair.secret)?;
    sign_by(table, &number, &point, message).ok_or(KeyFault::Unfit)
}

/// The bytes of a point, where the curve is P-384.
pub fn point_of(curve: Curve, point: &[u8]) -> Result<[u8; 97], KeyFault>
    requires { length point.now ≡ point_len curve }
    ensures { IsAnswer (λ bytes. bytes) result (p384_point curve point.now) }
{
    match curve {
        Curve::P384 => Ok(as_point(point)),
        _ => Err(KeyFault::Unfit),
    }
}

// The bytes of a point of P-384.
pub fn as_point(bytes: &[u8]) -> [u8; 97]
    requires { length bytes.now ≡ 97 }
    ensures { result ≡ bytes.now }
{
    let mut point = [0; 97];
    point.copy_from_slice(bytes);
    point
}

// r and s, where the number gives the point.
fn sign_by(
    table: &BaseTable,
    number: &[u8; 48],
    point: &[u8; 97],
    message: &[u8],
) -> Option<[u8; 96]>
    ensures { option_map (λ bytes. bytes) result ≡ p384_signed (big_endian number.now) point.now message.now }
{
    sign_checked(table, number, point, message)
}

/// A signature as SSH carries it.
#[tactic(auto, unfolding(crate::specs::Ecdsa::ecdsa_text))]
pub fn text(alloc: Global, bytes: &[u8; 96]) -> Result<Vec<u8>, AllocError>
    ensures ok { IfOk result (λ text. text.items ≡ p384_text bytes.now) }
    ensures sized { IfOk result (λ text. length text.items ≤ 1064) }
{
    let mut numbers = Vec::new(alloc);
    put_mpint(&mut numbers, &bytes[..48])?;
    put_mpint(&mut numbers, &bytes[48..])?;
    signature_text(alloc, Curve::P384.plain_name(), &numbers)
}

/// Whether the point accepts the signature of the message, where this is one.
#[tactic(auto, unfolding(crate::specs::Ecdsa::ecdsa_judged))]
pub fn judge(
    table: &BaseTable,
    point: &[u8; 97],
    message: &[u8],
    text: &[u8],
) -> Result<bool, KeyFault>
    ensures { IsAnswer (λ holds. holds) result (p384_judged point.now message.now text.now) }
{
    let numbers = read_signature(text, Curve::P384)?;
    let r = in_48_bytes(numbers.r)?;
    let s = in_48_bytes(numbers.s)?;
    Ok(verify(table, point, message, &joined(&r, &s)))
}

// r and s, one after the other.
fn joined(r: &[u8; 48], s: &[u8; 48]) -> [u8; 96]
    ensures { result ≡ r.now ++ s.now }
{
    let mut both = [0; 96];
    both[..48].copy_from_slice(r);
    both[48..].copy_from_slice(s);
    both
}
