//! The requests of a drill.

ghost use Rattle.std.specs.Prelude.{◌≡◌, ◌+◌, ◌<◌, ◌++◌, ◌^◌, IfOk, OnOk, length, replicate, decimal};
ghost use Rattle.replay_run.specs.Draws.{asking_of, blob_of, key_of, signing_of};
ghost use Rattle.child_msg.specs.ChildFrames.{from_child_body};
ghost use Rattle.child_msg.specs.Messages.{Hello, Signed};
ghost use Rattle.replay_run.specs.Drill.{ticket};
ghost use Rattle.wire_text.specs.Wire.{string, uint64};

use crate::drill::draws::Draws;
use schedule_text::put_number;
use std::alloc::{AllocError, Global};
use wire_core::{put_string, put_u8, put_u32, put_u64};

// The public blob of key k.
fn blob(alloc: Global, key: u8) -> Result<Vec<u8>, AllocError>
    ensures { IfOk result (λ blob. blob.items ≡ blob_of key) }
{
    let mut blob = Vec::new(alloc);
    put_string(&mut blob, b"keyed-sha256@example.com")?;
    put_string(&mut blob, &[key; 32])?;
    Ok(blob)
}

// The digits of a number.
fn digits(alloc: Global, number: u64) -> Result<Vec<u8>, AllocError>
    ensures value { IfOk result (λ digits. digits.items ≡ decimal number) }
    ensures size { IfOk result (λ digits. length digits.items < 21) }
{
    let mut digits = Vec::new(alloc);
    put_number(&mut digits, number)?;
    Ok(digits)
}

// The bytes of a number.
fn eight_bytes(alloc: Global, number: u64) -> Result<Vec<u8>, AllocError>
    ensures value { IfOk result (λ bytes. bytes.items ≡ uint64 number) }
    ensures size { IfOk result (λ bytes. length bytes.items ≡ 8) }
{
    let mut bytes = Vec::new(alloc);
    put_u64(&mut bytes, number)?;
    Ok(bytes)
}

// Appends key k with its secret, and the round as its comment.
fn put_key(alloc: Global, out: &mut Vec<u8>, key: u8, round: u64) -> Result<(), AllocError>
    requires { key < 64 }
    ensures { OnOk result (out.new.items ≡ out.old.items ++ key_of key round) }
{
    let blob = blob(alloc, key)?;
    let comment = digits(alloc, round)?;
    out.extend_from_slice(&blob)?;
    put_string(out, &[128 + key; 32])?;
    put_string(out, &comment)
}

// Appends the blob of key k as a string.
fn put_blob(alloc: Global, out: &mut Vec<u8>, key: u8) -> Result<(), AllocError>
    ensures { OnOk result (out.new.items ≡ out.old.items ++ string (blob_of key)) }
{
    let blob = blob(alloc, key)?;
    put_string(out, &blob)
}

// Appends SIGN_REQUEST with key k, of the bytes of the round.
fn put_signing(alloc: Global, out: &mut Vec<u8>, key: u8, round: u64) -> Result<(), AllocError>
    ensures { OnOk result (out.new.items ≡ out.old.items ++ signing_of key round) }
{
    let message = eight_bytes(alloc, round)?;
    put_u8(out, 13)?;
    put_blob(alloc, out, key)?;
    put_string(out, &message)?;
    put_u32(out, 0)
}

/// Appends the body of a request of this kind for key k in this round. One kind draws a lifetime.
#[tactic(auto, unfolding(crate::specs::Draws::asking_of))]
pub fn put_asking(
    alloc: Global,
    out: &mut Vec<u8>,
    kind: u64,
    key: u8,
    round: u64,
    draws: &mut Draws,
) -> Result<(), AllocError>
    requires kind { kind < 8 }
    requires key { key < 64 }
    ensures body { OnOk result
        (out.new.items ≡ out.old.items ++ (asking_of kind key round draws.old.number).body) }
    ensures draws { OnOk result
        (draws.new.number ≡ (asking_of kind key round draws.old.number).number) }
{
    match kind {
        0 | 1 => {
            put_u8(out, 17)?;
            put_key(alloc, out, key, round)
        }
        2 => {
            put_u8(out, 25)?;
            put_key(alloc, out, key, round)?;
            put_u8(out, 1)?;
            put_u32(out, 1 + draws.below(50) as u32)
        }
        3 => {
            put_u8(out, 18)?;
            put_blob(alloc, out, key)
        }
        4 => put_u8(out, 11),
        5 | 6 => put_signing(alloc, out, key, round),
        _ => put_u8(out, 200),
    }
}

/// Appends the body with which the helper of job 1 says hello.
pub fn put_hello(out: &mut Vec<u8>) -> Result<(), AllocError>
    ensures { OnOk result (out.new.items ≡ out.old.items ++ from_child_body (Hello 1 ticket)) }
{
    put_u8(out, 1)?;
    put_u64(out, 1)?;
    put_string(out, &[0; 16])
}

/// Appends the body with which the helper signs for an ask: the bytes of the round.
pub fn put_signed(alloc: Global, out: &mut Vec<u8>, ask: u64, round: u64) -> Result<(), AllocError>
    ensures { OnOk result
        (out.new.items ≡ out.old.items ++ from_child_body (Signed ask (uint64 round))) }
{
    let signature = eight_bytes(alloc, round)?;
    put_u8(out, 101)?;
    put_u64(out, ask)?;
    put_string(out, &signature)
}
