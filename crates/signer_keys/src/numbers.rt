//! Numbers as bytes, and signatures as SSH carries them.

ghost use Rattle.std.specs.Prelude.{◌≡◌, ◌≤◌, ◌+◌, ◌++◌, ◌∷◌, length, IfOk, OnOk, Ok, Err, option_map};
ghost use Rattle.std.specs.Result.{result_ok};
ghost use Rattle.key_wire.specs.Numbers.{signed};
ghost use Rattle.rsa_octets.specs.Octets.{significant};
ghost use Rattle.signer_keys.specs.Numbers.{filled, mpint, signature_text, small};
ghost use Rattle.wire_core.specs.Readings.{IsAnswer};
ghost use Rattle.wire_text.specs.Wire.{string};

use key_wire::KeyFault;
use rsa_octets::{from_octets, without_zeros};
use std::alloc::{AllocError, Global};
use wire_core::{put_string, put_u8, put_u32};

// A number in 32 bytes.
#[tactic(auto, unfolding(crate::specs::Numbers::filled))]
pub fn in_32_bytes(bytes: &[u8]) -> Result<[u8; 32], KeyFault>
    ensures { IsAnswer (λ number. number) result (filled 32 bytes.now) }
{
    if bytes.len() > 32 {
        return Err(KeyFault::Unfit);
    }
    let mut number = [0; 32];
    number[32 - bytes.len()..].copy_from_slice(bytes);
    Ok(number)
}

// A number in 48 bytes.
#[tactic(auto, unfolding(crate::specs::Numbers::filled))]
pub fn in_48_bytes(bytes: &[u8]) -> Result<[u8; 48], KeyFault>
    ensures { IsAnswer (λ number. number) result (filled 48 bytes.now) }
{
    if bytes.len() > 48 {
        return Err(KeyFault::Unfit);
    }
    let mut number = [0; 48];
    number[48 - bytes.len()..].copy_from_slice(bytes);
    Ok(number)
}

// A number in 66 bytes.
#[tactic(auto, unfolding(crate::specs::Numbers::filled))]
pub fn in_66_bytes(bytes: &[u8]) -> Result<[u8; 66], KeyFault>
    ensures { IsAnswer (λ number. number) result (filled 66 bytes.now) }
{
    if bytes.len() > 66 {
        return Err(KeyFault::Unfit);
    }
    let mut number = [0; 66];
    number[66 - bytes.len()..].copy_from_slice(bytes);
    Ok(number)
}

// A number of at most eight bytes.
#[tactic(auto, unfolding(crate::specs::Numbers::small))]
pub fn in_a_word(bytes: &[u8]) -> Result<u64, KeyFault>
    ensures { IsAnswer (λ number. number) result (small bytes.now) }
{
    if bytes.len() > 8 {
        return Err(KeyFault::Unfit);
    }
    let mut words = [0; 1];
    from_octets(&mut words, bytes);
    Ok(words[0])
}

// A number in so many bytes, where it has no more.
#[tactic(auto, unfolding(crate::specs::Numbers::filled))]
pub fn in_bytes(alloc: Global, len: usize, bytes: &[u8]) -> Result<Option<Vec<u8>>, AllocError>
    ensures { IfOk result (λ number. option_map (λ v. v.items) number ≡ result_ok (filled len bytes.now)) }
{
    if bytes.len() > len {
        return Ok(None);
    }
    let mut number = vec![in alloc; 0; len - bytes.len()]?;
    number.extend_from_slice(bytes)?;
    Ok(Some(number))
}

// Appends the mpint of a number of at most 66 bytes.
#[tactic(auto, unfolding(crate::specs::Numbers::mpint))]
pub fn put_mpint(out: &mut Vec<u8>, bytes: &[u8]) -> Result<(), AllocError>
    requires { length bytes.now ≤ 66 }
    ensures ok { OnOk result (out.new.items ≡ out.old.items ++ string (mpint bytes.now)) }
    ensures sized { OnOk result (length out.new.items ≤ length out.old.items + 71) }
{
    put_signed(out, without_zeros(bytes))
}

// The same of a number without zeros in front.
fn put_signed(out: &mut Vec<u8>, bytes: &[u8]) -> Result<(), AllocError>
    requires { length bytes.now ≤ 66 }
    ensures ok { OnOk result (out.new.items ≡ out.old.items ++ string (signed bytes.now)) }
    ensures sized { OnOk result (length out.new.items ≤ length out.old.items + 71) }
{
    match bytes.first() {
        Some(high) if *high >= 128 => put_behind_zero(out, bytes),
        _ => put_string(out, bytes),
    }
}

// Appends a string of a zero and these bytes.
fn put_behind_zero(out: &mut Vec<u8>, bytes: &[u8]) -> Result<(), AllocError>
    requires { length bytes.now ≤ 66 }
    ensures ok { OnOk result (out.new.items ≡ out.old.items ++ string (0 ∷ bytes.now)) }
    ensures sized { OnOk result (length out.new.items ≤ length out.old.items + 71) }
{
    put_u32(out, bytes.len() as u32 + 1)?;
    put_u8(out, 0)?;
    out.extend_from_slice(bytes)?;
    Ok(())
}

// A signature as SSH carries it.
#[tactic(auto, unfolding(crate::specs::Numbers::signature_text))]
pub fn signature_text(alloc: Global, algorithm: &[u8], bytes: &[u8]) -> Result<Vec<u8>, AllocError>
    requires algorithm { length algorithm.now ≤ 32 }
    requires bytes { length bytes.now ≤ 1024 }
    ensures ok { IfOk result (λ text. text.items ≡ signature_text algorithm.now bytes.now) }
    ensures sized { IfOk result (λ text. length text.items ≤ 1064) }
{
    let mut text = Vec::new(alloc);
    put_string(&mut text, algorithm)?;
    put_string(&mut text, bytes)?;
    Ok(text)
}
