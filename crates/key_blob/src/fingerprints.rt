//! A key's SHA-256 fingerprint, in the form that ssh-keygen(1) prints.

ghost use Rattle.std.specs.Prelude.{◌≡◌, string_bytes, IfOk};
ghost use Rattle.key_blob.specs.PublicKeys.{parts_of};
ghost use Rattle.key_blob.specs.Fingerprints.{fingerprint_of};

use crate::key_type::plain_row;
use crate::public_key::PublicKey;
use base64::engine::general_purpose::STANDARD_NO_PAD;
use sha2::{Digest, Sha256};
use std::alloc::{AllocError, Global};

/// The fingerprint of the key, as `ssh-keygen -l` prints it.
#[tactic(auto, unfolding(wire_text::specs::Wire::uint32, wire_text::specs::Wire::string))]
pub fn fingerprint(alloc: Global, key: &PublicKey<'_>) -> Result<String, AllocError>
    ensures { IfOk result (λ text. string_bytes text ≡ fingerprint_of (parts_of key.now)) }
{
    let name = plain_row(key.kind).name;
    let mut hasher = Sha256::new();
    hasher.update((name.len() as u32).to_be_bytes());
    hasher.update(name);
    hasher.update(key.fields);
    let mut text = String::from_str(alloc, "SHA256:")?;
    STANDARD_NO_PAD.encode_string(&hasher.finalize(), &mut text)?;
    Ok(text)
}
