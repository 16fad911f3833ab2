//! Reads a key that is added to an agent, private fields included, by draft-miller-ssh-agent.

ghost use Rattle.std.specs.Prelude.{◌≡◌, ◌^◌, ◌<◌, ◌++◌, List, ℕ, length, IfOk, OnOk, OnErr, MatchResult, Ok, Err, if◌then◌else◌, ◌⊎◌};
ghost use Rattle.wire_text.specs.Wire.{string};
ghost use Rattle.key_blob.specs.declared.fault.KeyFault.TheVariants.{Memory};
ghost use Rattle.key_blob.specs.KeyTypes.{key_type};
ghost use Rattle.key_blob.specs.Rows.{line_of};
ghost use Rattle.key_blob.specs.declared.added.AddedKey.{AddedKey};
ghost use Rattle.key_blob.specs.AddedKeys.{IsAddedKey, IsAddition, blob_fields_at, certificate_blob_at, blob_at, added_key_at, private_at, private_from};

use crate::fault::KeyFault;
use crate::fields::{skip_fields, take_field, take_form};
use crate::form::Form;
use crate::key_type::{KeyType, row};
use crate::public_key::read_public;
use plain_lists::Bytes;
use secret_buf::SecretBytes;
use std::alloc::{AllocError, Global};
use wire_core::{Cursor, put_string};

/// A key that is added to an agent.
#[derive(Drop)]
pub struct AddedKey {
    /// The blob of its public key, or its certificate.
    pub blob: Bytes,
    /// The key type and the fields as they came, the private ones with them.
    pub private: SecretBytes,
}

/// Appends `content` as a string to `strings`, or puts it in front of them.
fn join(strings: &mut Vec<u8>, content: &[u8], in_front: bool) -> Result<(), AllocError>
    requires { length content.now < 2 ^ 32 }
    ensures { OnOk result (strings.new.items ≡
        (if in_front then string content.now ++ strings.old.items
        else strings.old.items ++ string content.now)) }
{
    put_string(strings, content)?;
    if in_front {
        strings.rotate_right(4 + content.len());
    }
    Ok(())
}

/// Takes the public fields, and gives them in the order of a blob.
///
/// A refused call may have moved the cursor.
fn take_public(
    alloc: Global,
    from: &mut Cursor<'_>,
    key_type: &KeyType,
) -> Result<Vec<u8>, KeyFault>
    ensures { MatchResult result
        (λ strings. blob_fields_at (line_of key_type.now) from.old ≡ Ok (strings.items, from.new))
        (λ fault. (fault ≡ Memory) ⊎ (blob_fields_at (line_of key_type.now) from.old ≡ Err fault)) }
{
    let mut strings = Vec::new(alloc);
    for field in key_type.added {
        let content = take_field(from, field)?;
        join(&mut strings, content, key_type.is_reversed)?;
    }
    Ok(strings)
}

/// The blob of a type's name and its public fields.
fn blob(alloc: Global, name: &[u8], fields: &[u8]) -> Result<Vec<u8>, AllocError>
    requires { length name.now < 2 ^ 32 }
    ensures { IfOk result (λ blob. blob.items ≡ string name.now ++ fields.now) }
{
    let mut blob = Vec::new(alloc);
    put_string(&mut blob, name)?;
    blob.extend_from_slice(fields)?;
    Ok(blob)
}

/// Takes a certificate of the type as a string, and gives its bytes.
///
/// A refused call may have moved the cursor.
#[tactic(auto, unfolding(crate::specs::AddedKeys::certificate_blob_at))]
fn take_certified<'a>(from: &mut Cursor<'a>, key_type: &KeyType) -> Result<&'a [u8], KeyFault>
    ensures { MatchResult result
        (λ blob. certificate_blob_at (line_of key_type.now) from.old ≡ Ok (blob.now, from.new))
        (λ fault. certificate_blob_at (line_of key_type.now) from.old ≡ Err fault) }
{
    let blob = from.take_string()?;
    let key = read_public(blob)?;
    if key.type_name != key_type.name {
        return Err(KeyFault::Mismatch);
    }
    Ok(blob)
}

/// Takes the public fields or the certificate, and gives the blob.
///
/// A refused call may have moved the cursor.
#[tactic(auto, unfolding(crate::specs::AddedKeys::blob_at))]
fn take_blob(alloc: Global, from: &mut Cursor<'_>, form: Form) -> Result<Vec<u8>, KeyFault>
    ensures { MatchResult result (λ blob. blob_at form from.old ≡ Ok (blob.items, from.new))
        (λ fault. (fault ≡ Memory) ⊎ (blob_at form from.old ≡ Err fault)) }
{
    let key_type = row(form);
    match form {
        Form::Plain(_) => {
            let public = take_public(alloc, from, &key_type)?;
            Ok(blob(alloc, key_type.name, &public)?)
        }
        Form::Certified(_) => {
            let certificate = take_certified(from, &key_type)?;
            Ok(Vec::from_slice(alloc, certificate)?)
        }
    }
}

/// Reads an addition at the front of `bytes`, and gives what follows it too.
#[tactic(auto, unfolding(crate::specs::AddedKeys::added_key_at))]
fn key_at(alloc: Global, bytes: &[u8]) -> Result<(AddedKey, &[u8]), KeyFault>
    ensures { MatchResult result (λ read. added_key_at bytes.now ≡ Ok (read.0, read.1.now))
        (λ fault. (fault ≡ Memory) ⊎ (added_key_at bytes.now ≡ Err fault)) }
{
    let mut from = Cursor::new(bytes);
    let form = take_form(&mut from)?;
    let blob = Bytes::from_vec(take_blob(alloc, &mut from, form)?);
    let key_type = row(form);
    skip_fields(&mut from, key_type.again)?;
    skip_fields(&mut from, key_type.private)?;
    let rest = from.rest();
    let private = SecretBytes::from_slice(alloc, &bytes[..bytes.len() - rest.len()])?;
    Ok((AddedKey { blob, private }, rest))
}

/// Reads a key type and its fields, and stops before the comment.
pub fn read_added(alloc: Global, from: &mut Cursor<'_>) -> Result<AddedKey, KeyFault>
    // What is read is an addition, and what follows it is left.
    ensures found { IfOk result (λ key. IsAddedKey key × (from.old ≡ key.private ++ from.new)) }

    // An addition is read, unless memory runs out.
    ensures only { (key : AddedKey) (rest : List ℕ) → IsAddedKey key →
        from.old ≡ key.private ++ rest →
        MatchResult result (λ read. (read ≡ key) × (from.new ≡ rest)) (λ fault. fault ≡ Memory) }

    // Which fault it is.
    ensures exact { MatchResult result (λ key. added_key_at from.old ≡ Ok (key, from.new))
        (λ fault. (fault ≡ Memory) ⊎ (added_key_at from.old ≡ Err fault)) }
    ensures unchanged { OnErr result (from.new ≡ from.old) }
{
    let bytes = from.rest();
    let (key, rest) = key_at(alloc, bytes)?;
    *from = Cursor::new(rest);
    Ok(key)
}

/// Takes the public fields or the certificate, which are not looked at further.
///
/// A refused call may have moved the cursor.
#[tactic(auto, unfolding(crate::specs::AddedKeys::blob_at, crate::specs::AddedKeys::blob_fields_at, crate::specs::Reading::after_fields))]
fn skip_public(from: &mut Cursor<'_>, form: Form) -> Result<(), KeyFault>
    ensures { MatchResult result
        (λ _. (blob : List ℕ) × (blob_at form from.old ≡ Ok (blob, from.new)))
        (λ fault. blob_at form from.old ≡ Err fault) }
{
    let key_type = row(form);
    match form {
        Form::Plain(_) => skip_fields(from, key_type.added),
        Form::Certified(_) => {
            take_certified(from, &key_type)?;
            Ok(())
        }
    }
}

/// The bytes from the first private field of an addition on.
#[tactic(auto, unfolding(crate::specs::AddedKeys::private_at))]
fn private_fields(added: &[u8]) -> Result<&[u8], KeyFault>
    ensures { MatchResult result (λ private. private_at added.now ≡ Ok private.now)
        (λ fault. private_at added.now ≡ Err fault) }
{
    let mut from = Cursor::new(added);
    let form = take_form(&mut from)?;
    skip_public(&mut from, form)?;
    skip_fields(&mut from, row(form).again)?;
    Ok(from.rest())
}

/// How many bytes of an addition stand in front of its first private field, that is, of the length
/// of that field. From there on only private fields stand. It takes no memory.
pub fn private_from(added: &[u8]) -> usize
    requires { IsAddition added.now }
    ensures { result ≡ private_from added.now }
{
    match private_fields(added) {
        Ok(private) => added.len() - private.len(),
        Err(_) => 0,
    }
}
