//! The private part of a body: the key itself, its comment and padding.

ghost use Rattle.std.specs.Prelude.{◌≡◌, ◌⊎◌, ℕ, List, MatchResult, Ok, Err};
ghost use Rattle.key_blob.specs.declared.fault.KeyFault.TheVariants.{Memory as NoMemory};
ghost use Rattle.wire_core.specs.Fields.{string_at};
ghost use Rattle.key_file.specs.declared.fault.KeyFileFault.TheVariants.{Memory};
ghost use Rattle.key_file.specs.BodyReading.{IsAnswer, private_of};
ghost use Rattle.key_file.specs.PlainKeys.{has_ending, plain_key_at};

use crate::fault::KeyFileFault;
use crate::fields::take_checks;
use key_blob::{AddedKey, KeyFault, read_added};
use plain_lists::Bytes;
use std::alloc::Global;
use wire_core::Cursor;

/// A private key of a file, and its comment.
#[derive(Drop)]
pub struct KeyFile {
    /// The key as it is added to an agent.
    pub key: AddedKey,
    /// The comment, as it stands in the file.
    pub comment: Bytes,
}

const CERTIFICATE_ENDING: &[u8] = b"-cert-v01@openssh.com";

const PADDING: [u8; 7] = [1, 2, 3, 4, 5, 6, 7];

/// Whether the string at the front ends as the names of certificates' types do.
fn names_certificate(bytes: &[u8]) -> bool
    ensures { result ≡ has_ending (string_at bytes.now) }
{
    match Cursor::new(bytes).take_string() {
        Ok(name) => name.ends_with(CERTIFICATE_ENDING),
        Err(_) => false,
    }
}

/// Takes a plain key. A refused call may have moved the cursor.
#[tactic(auto, unfolding(crate::specs::PlainKeys::plain_key_at))]
fn take_key(alloc: Global, from: &mut Cursor<'_>) -> Result<AddedKey, KeyFault>
    ensures { MatchResult result (λ key. plain_key_at from.old ≡ Ok (key, from.new))
        (λ fault. (fault ≡ NoMemory) ⊎ (plain_key_at from.old ≡ Err fault)) }
{
    if names_certificate(from.rest()) {
        return Err(KeyFault::UnknownType);
    }
    read_added(alloc, from)
}

/// The key and the comment of a private part.
#[tactic(auto, unfolding(crate::specs::BodyReading::private_of))]
pub fn read_private(alloc: Global, part: &[u8]) -> Result<KeyFile, KeyFileFault>
    ensures { IsAnswer result (private_of part.now) }
{
    let mut from = Cursor::new(part);
    take_checks(&mut from)?;
    let key = take_key(alloc, &mut from)?;
    let comment = from.take_string()?;
    if !PADDING.starts_with(from.rest()) {
        return Err(KeyFileFault::Padding);
    }
    let comment = Bytes::from_vec(Vec::from_slice(alloc, comment)?);
    Ok(KeyFile { key, comment })
}
