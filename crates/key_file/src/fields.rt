//! The fields of a body. A refused call may have moved the cursor.

ghost use Rattle.std.specs.Prelude.{◌≡◌, MatchResult, Ok, Err};
ghost use Rattle.key_file.specs.BodyReading.{after_magic, after_text, after_count, blocks_at, after_checks};

use crate::fault::KeyFileFault;
use wire_core::Cursor;

const MAGIC: &[u8] = b"openssh-key-v1\0";

/// Takes the magic.
#[tactic(auto, unfolding(crate::specs::BodyReading::after_magic))]
pub fn take_magic(from: &mut Cursor<'_>) -> Result<(), KeyFileFault>
    ensures { MatchResult result (λ _. after_magic from.old ≡ Ok from.new)
        (λ fault. after_magic from.old ≡ Err fault) }
{
    match from.rest().strip_prefix(MAGIC) {
        Some(rest) => {
            *from = Cursor::new(rest);
            Ok(())
        }
        None => Err(KeyFileFault::Magic),
    }
}

/// Takes this string. Another one says that the body is encrypted.
#[tactic(auto, unfolding(crate::specs::BodyReading::after_text))]
pub fn take_text(from: &mut Cursor<'_>, wanted: &[u8]) -> Result<(), KeyFileFault>
    ensures { MatchResult result (λ _. after_text wanted.now from.old ≡ Ok from.new)
        (λ fault. after_text wanted.now from.old ≡ Err fault) }
{
    if from.take_string()? != wanted {
        return Err(KeyFileFault::Cipher);
    }
    Ok(())
}

/// Takes the number of keys, which is 1.
#[tactic(auto, unfolding(crate::specs::BodyReading::after_count))]
pub fn take_count(from: &mut Cursor<'_>) -> Result<(), KeyFileFault>
    ensures { MatchResult result (λ _. after_count from.old ≡ Ok from.new)
        (λ fault. after_count from.old ≡ Err fault) }
{
    if from.take_u32()? != 1 {
        return Err(KeyFileFault::Count);
    }
    Ok(())
}

/// Takes the private part, in whole blocks of 8 bytes.
#[tactic(auto, unfolding(crate::specs::BodyReading::blocks_at))]
pub fn take_blocks<'a>(from: &mut Cursor<'a>) -> Result<&'a [u8], KeyFileFault>
    ensures { MatchResult result (λ part. blocks_at from.old ≡ Ok (part.now, from.new))
        (λ fault. blocks_at from.old ≡ Err fault) }
{
    let part = from.take_string()?;
    if part.len() % 8 != 0 {
        return Err(KeyFileFault::Block);
    }
    Ok(part)
}

/// Takes the two check numbers, which are equal.
#[tactic(auto, unfolding(crate::specs::BodyReading::after_checks))]
pub fn take_checks(from: &mut Cursor<'_>) -> Result<(), KeyFileFault>
    ensures { MatchResult result (λ _. after_checks from.old ≡ Ok from.new)
        (λ fault. after_checks from.old ≡ Err fault) }
{
    let first = from.take_u32()?;
    let second = from.take_u32()?;
    if first != second {
        return Err(KeyFileFault::Check);
    }
    Ok(())
}
