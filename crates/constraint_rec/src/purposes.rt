//! The reader and the writer of purposes. A refused call may have moved the cursor.

ghost use Rattle.std.specs.Prelude.{◌≡◌, ◌^◌, ◌<◌, ◌++◌, ◌⊎◌, length, IfOk, OnOk, MatchResult, Ok, Err};
ghost use Rattle.wire_text.specs.Wire.{string};
ghost use Rattle.key_purposes.specs.Purposes.{word_of};
ghost use Rattle.constraint_rec.specs.declared.fault.TermFault.TheVariants.{Memory};
ghost use Rattle.constraint_rec.specs.Constraints.{purposes_text};
ghost use Rattle.constraint_rec.specs.HopReading.{IsReadingOf};
ghost use Rattle.constraint_rec.specs.PurposeReading.{all_purposes_in, purpose_at, purposes_in};

use crate::fault::TermFault;
use key_purposes::{Purpose, add_purpose, put_word};
use plain_lists::PlainList;
use std::alloc::{AllocError, Global};
use wire_core::{Cursor, put_string};

// Takes the word of a purpose and puts that behind the others.
#[tactic(auto, unfolding(crate::specs::PurposeReading::purpose_at))]
fn take_purpose(
    alloc: Global,
    from: &mut Cursor<'_>,
    purposes: &mut Vec<Purpose>,
) -> Result<(), TermFault>
    ensures exact { MatchResult result (λ _. purpose_at purposes.old.items from.old ≡ Ok (purposes.new.items, from.new))
        (λ fault. (fault ≡ Memory) ⊎ (purpose_at purposes.old.items from.old ≡ Err fault)) }
    ensures shorter { OnOk result (length from.new < length from.old) }
{
    let word = from.take_string()?;
    add_purpose(alloc, purposes, word)?;
    Ok(())
}

// Reads purposes to the end of `bytes`.
fn all_purposes_in(alloc: Global, bytes: &[u8]) -> Result<Vec<Purpose>, TermFault>
    ensures { MatchResult result (λ purposes. all_purposes_in bytes.now ≡ Ok purposes.items)
        (λ fault. (fault ≡ Memory) ⊎ (all_purposes_in bytes.now ≡ Err fault)) }
{
    let mut purposes = Vec::new(alloc);
    let mut from = Cursor::new(bytes);
    'purposes: while !from.at_end() {
        take_purpose(alloc, &mut from, &mut purposes)?;
    }
    Ok(purposes)
}

/// Reads purposes to the end of `bytes`, of which there have to be some.
#[tactic(auto, unfolding(crate::specs::PurposeReading::purposes_in))]
pub fn read_purposes(alloc: Global, bytes: &[u8]) -> Result<PlainList<Purpose>, TermFault>
    ensures { IsReadingOf (purposes_in bytes.now) result }
{
    let purposes = all_purposes_in(alloc, bytes)?;
    if purposes.is_empty() {
        return Err(TermFault::NoPurposes);
    }
    Ok(PlainList::from_vec(purposes))
}

// Appends the word of a purpose as a string.
fn put_purpose(out: &mut Vec<u8>, purpose: &Purpose) -> Result<(), AllocError>
    requires { length (word_of purpose.now) < 2 ^ 32 }
    ensures { OnOk result (out.new.items ≡ out.old.items ++ string (word_of purpose.now)) }
{
    let mut word = Vec::new(*out.allocator());
    put_word(&mut word, purpose)?;
    put_string(out, &word)
}

/// The words of purposes, each as a string.
pub fn purposes_text(alloc: Global, purposes: &[Purpose]) -> Result<Vec<u8>, AllocError>
    requires { length (purposes_text purposes.now) < 2 ^ 32 }
    ensures { IfOk result (λ text. text.items ≡ purposes_text purposes.now) }
{
    let mut text = Vec::new(alloc);
    for purpose in purposes {
        put_purpose(&mut text, purpose)?;
    }
    Ok(text)
}
