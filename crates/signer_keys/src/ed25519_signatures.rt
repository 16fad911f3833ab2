//! Signatures by Ed25519 keys.

ghost use Rattle.std.specs.Prelude.{◌≡◌, ◌≤◌, IfOk, length};
ghost use Rattle.ed25519_wire.specs.Reading.{plain_pair_of};
ghost use Rattle.signer_keys.specs.Ed25519.{ed25519_judged, ed25519_signature, ed25519_signed, ed25519_text};
ghost use Rattle.wire_core.specs.Readings.{IsAnswer};

use crate::numbers::signature_text;
use ed25519::{BaseTable, sign_erased, verify};
use ed25519_wire::{Pair, read_pair, read_signature};
use key_wire::KeyFault;
use std::alloc::{AllocError, Global};

/// The 64 bytes of the signature, where the private string and the blob are one key's.
#[tactic(auto, unfolding(crate::specs::Ed25519::ed25519_signature))]
pub fn sign(
    table: &BaseTable,
    private: &[u8],
    blob: &[u8],
    message: &[u8],
) -> Result<[u8; 64], KeyFault>
    ensures { IsAnswer (λ bytes. bytes) result (ed25519_signature private.now blob.now message.now) }
{
    let pair = read_pair(private, blob)?;
    sign_by(table, &pair, message)
}

fn sign_by(table: &BaseTable, pair: &Pair<'_>, message: &[u8]) -> Result<[u8; 64], KeyFault>
    requires seed { length pair.now.seed.now ≡ 32 }
    requires public { length pair.now.public.now ≡ 32 }
    ensures { IsAnswer (λ bytes. bytes) result (ed25519_signed (plain_pair_of pair.now) message.now) }
{
    let mut public = [0; 32];
    public.copy_from_slice(pair.public);
    match sign_erased(table, pair.seed, &public, message) {
        Some(bytes) => Ok(bytes),
        None => Err(KeyFault::Unfit),
    }
}

/// A signature as SSH carries it.
#[tactic(auto, unfolding(crate::specs::Ed25519::ed25519_text))]
pub fn text(alloc: Global, bytes: &[u8; 64]) -> Result<Vec<u8>, AllocError>
    ensures ok { IfOk result (λ text. text.items ≡ ed25519_text bytes.now) }
    ensures sized { IfOk result (λ text. length text.items ≤ 1064) }
{
    signature_text(alloc, b"ssh-ed25519", bytes)
}

/// Whether the key accepts the signature of the message, where this is one.
#[tactic(auto, unfolding(crate::specs::Ed25519::ed25519_judged))]
pub fn judge(
    table: &BaseTable,
    public: &[u8; 32],
    message: &[u8],
    text: &[u8],
) -> Result<bool, KeyFault>
    ensures { IsAnswer (λ holds. holds) result (ed25519_judged public.now message.now text.now) }
{
    let bytes = read_signature(text)?;
    let mut signature = [0; 64];
    signature.copy_from_slice(bytes);
    Ok(verify(table, public, message, &signature))
}
