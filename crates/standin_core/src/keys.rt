//! The stand-in key type keyed-sha256@example.com: its blobs, private strings and signatures.

ghost use Rattle.std.specs.Prelude.{◌≡◌, ◌++◌, MatchOption, option_map};
ghost use Rattle.standin_core.specs.Keys.{HasNoFront, secret_of, signature_of, tag_of};

use hmac_core::hmac_sha256;

/// The type's name as a string, and the length of the 32 bytes that follow it in a blob and in a
/// signature.
const HEAD: [u8; 32] = *b"\x00\x00\x00\x18keyed-sha256@example.com\x00\x00\x00\x20";

/// The length of the secret.
const LENGTH: [u8; 4] = [0, 0, 0, 32];

// What stands behind this front.
fn behind<'a>(front: &[u8], bytes: &'a [u8]) -> Option<&'a [u8]>
    ensures { MatchOption result (HasNoFront front.now bytes.entry.now)
        (λ rest. bytes.entry.now ≡ front.now ++ rest.now) }
{
    bytes.strip_prefix(front)
}

/// The tag of the stand-in key that has this blob.
pub fn tag_in(blob: &[u8]) -> Option<&[u8]>
    ensures { option_map (λ tag. tag.now) result ≡ tag_of blob.now }
{
    let tag = behind(&HEAD, blob)?;
    if tag.len() != 32 {
        return None;
    }
    Some(tag)
}

/// The secret of a stand-in key's private string that has this blob.
pub fn secret_in<'a>(private: &'a [u8], blob: &[u8]) -> Option<&'a [u8]>
    ensures { option_map (λ secret. secret.now) result ≡ secret_of private.entry.now blob.now }
{
    tag_in(blob)?;
    let rest = behind(blob, private)?;
    let secret = behind(&LENGTH, rest)?;
    if secret.len() != 32 {
        return None;
    }
    Some(secret)
}

/// The signature of a message under a secret.
pub fn signature(secret: &[u8], message: &[u8]) -> [u8; 64]
    ensures { result ≡ signature_of secret.now message.now }
{
    let mut signature = [0; 64];
    signature[..32].copy_from_slice(&HEAD);
    signature[32..].copy_from_slice(&hmac_sha256(secret, message));
    signature
}
