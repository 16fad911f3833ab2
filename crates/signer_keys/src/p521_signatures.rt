//! Signatures by ECDSA keys over P-521.

ghost use Rattle.std.specs.Prelude.{◌≡◌, ◌≤◌, ◌++◌, IfOk, Option, length, option_map};
ghost use Rattle.ecdsa_wire.specs.Names.{point_len};
ghost use Rattle.signer_keys.specs.Ecdsa.{p521_judged, p521_point, p521_signature, p521_signed, p521_text};
ghost use Rattle.wide_words.specs.Numbers.{big_endian};
ghost use Rattle.wire_core.specs.Readings.{IsAnswer};

use crate::numbers::{in_66_bytes, put_mpint, signature_text};
use ecdsa_wire::{Curve, read_pair, read_signature};
use key_wire::KeyFault;
use p521_ecdsa::{BaseTable, sign_checked, verify};
use std::alloc::{AllocError, Global};

/// r and s in 66 bytes each, where the private string and the blob are one key's over P-521.
#[tactic(auto, unfolding(crate::specs::Ecdsa::ecdsa_signature))]
pub fn sign(
    table: &BaseTable,
    private: &[u8],
    blob: &[u8],
    message: &[u8],
) -> Result<[u8; 132], KeyFault>
    ensures { IsAnswer (λ bytes. bytes) result (p521_signature private.now blob.now message.now) }
{
    let pair = read_pair(private, blob)?;
    let point = point_of(pair.curve, pair.point)?;
    let number = in_66_bytes(pair.secret)?;
    sign_by(table, &number, &point, message).ok_or(KeyFault::Unfit)
}

/// The bytes of a point, where the curve is P-521.
pub fn point_of(curve: Curve, point: &[u8]) -> Result<[u8; 133], KeyFault>
    requires { length point.now ≡ point_len curve }
    ensures { IsAnswer (λ bytes. bytes) result (p521_point curve point.now) }
{
    match curve {
        Curve::P521 => Ok(as_point(point)),
        _ => Err(KeyFault::Unfit),
    }
}

// The bytes of a point of P-521.
pub fn as_point(bytes: &[u8]) -> [u8; 133]
    requires { length bytes.now ≡ 133 }
    ensures { result ≡ bytes.now }
{
    let mut point = [0; 133];
    point.copy_from_slice(bytes);
    point
}

// r and s, where the number gives the point.
fn sign_by(
    table: &BaseTable,
    number: &[u8; 66],
    point: &[u8; 133],
    message: &[u8],
) -> Option<[u8; 132]>
    ensures { option_map (λ bytes. bytes) result ≡ p521_signed (big_endian number.now) point.now message.now }
{
    sign_checked(table, number, point, message)
}

/// A signature as SSH carries it.
#[tactic(auto, unfolding(crate::specs::Ecdsa::ecdsa_text))]
pub fn text(alloc: Global, bytes: &[u8; 132]) -> Result<Vec<u8>, AllocError>
    ensures ok { IfOk result (λ text. text.items ≡ p521_text bytes.now) }
    ensures sized { IfOk result (λ text. length text.items ≤ 1064) }
{
    let mut numbers = Vec::new(alloc);
    put_mpint(&mut numbers, &bytes[..66])?;
    put_mpint(&mut numbers, &bytes[66..])?;
    signature_text(alloc, Curve::P521.plain_name(), &numbers)
}

/// Whether the point accepts the signature of the message, where this is one.
#[tactic(auto, unfolding(crate::specs::Ecdsa::ecdsa_judged))]
pub fn judge(
    table: &BaseTable,
    point: &[u8; 133],
    message: &[u8],
    text: &[u8],
) -> Result<bool, KeyFault>
    ensures { IsAnswer (λ holds. holds) result (p521_judged point.now message.now text.now) }
{
    let numbers = read_signature(text, Curve::P521)?;
    let r = in_66_bytes(numbers.r)?;
    let s = in_66_bytes(numbers.s)?;
    Ok(verify(table, point, message, &joined(&r, &s)))
}

// r and s, one after the other.
fn joined(r: &[u8; 66], s: &[u8; 66]) -> [u8; 132]
    ensures { result ≡ r.now ++ s.now }
{
    let mut both = [0; 132];
    both[..66].copy_from_slice(r);
    both[66..].copy_from_slice(s);
    both
}
