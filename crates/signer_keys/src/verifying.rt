//! Whether a host key made a signature.

ghost use Rattle.std.specs.Prelude.{◌≡◌, ◌≤◌, IfOk, length, take};
ghost use Rattle.key_wire.specs.Closings.{seal_of, sealed};
ghost use Rattle.signer_keys.specs.Verifying.{certificate_verdict, certified_public, here, is_sealed, plain_public, plain_verdict, public_of, seals, sealed_verdict, signs, verdict_of};
ghost use Rattle.signer_keys.specs.Types.{type_of};

use crate::keys::SignerKeys;
use crate::public::{Public, read_certified, read_plain};
use crate::rsa_signatures::is_by_sha1;
use crate::types::{KeyType, Kind, key_type};
use crate::{
    ed25519_signatures, p256_signatures, p384_signatures, p521_signatures, rsa_signatures,
};
use key_wire::{Closing, read_closing};
use std::alloc::AllocError;

/// Whether a host key made a signature.
#[derive(Clone, Copy, Debug, PartialEq, Eq)]
pub enum Verdict {
    /// It did.
    Right,
    /// It didn't.
    Wrong,
    /// The host key, or the authority that certifies it, is of a type that isn't known here.
    Elsewhere,
}

/// Whether a host key signed the message, and of a certificate, whether its authority signed that.
#[tactic(auto, unfolding(crate::specs::Verifying::verdict_of))]
pub fn judge(
    keys: &SignerKeys,
    host_key: &[u8],
    message: &[u8],
    signature: &[u8],
) -> Result<Verdict, AllocError>
    ensures { IfOk result (λ verdict. verdict ≡ verdict_of host_key.now message.now signature.now) }
{
    match key_type(host_key) {
        Some(KeyType::Plain(kind)) => plain_verdict(keys, kind, host_key, message, signature),
        Some(KeyType::Certified(kind)) => {
            certificate_verdict(keys, kind, host_key, message, signature)
        }
        None => Ok(Verdict::Elsewhere),
    }
}

fn here(is_right: bool) -> Verdict
    ensures { result ≡ here is_right }
{
    if is_right {
        Verdict::Right
    } else {
        Verdict::Wrong
    }
}

fn plain_verdict(
    keys: &SignerKeys,
    kind: Kind,
    host_key: &[u8],
    message: &[u8],
    signature: &[u8],
) -> Result<Verdict, AllocError>
    ensures { IfOk result (λ verdict. verdict
        ≡ plain_verdict (plain_public kind host_key.now) message.now signature.now) }
{
    match read_plain(kind, host_key) {
        Ok(key) => Ok(here(signs(keys, &key, message, signature)?)),
        Err(_) => Ok(Verdict::Wrong),
    }
}

fn certificate_verdict(
    keys: &SignerKeys,
    kind: Kind,
    certificate: &[u8],
    message: &[u8],
    signature: &[u8],
) -> Result<Verdict, AllocError>
    ensures { IfOk result (λ verdict. verdict
        ≡ certificate_verdict (certified_public kind certificate.now) certificate.now message.now signature.now) }
{
    let Ok((key, rest)) = read_certified(kind, certificate) else {
        return Ok(Verdict::Wrong);
    };
    let Ok(closing) = read_closing(rest) else {
        return Ok(Verdict::Wrong);
    };
    sealed_verdict(keys, &closing, certificate, &key, message, signature)
}

// By the authority that closes a certificate.
fn sealed_verdict(
    keys: &SignerKeys,
    closing: &Closing<'_>,
    certificate: &[u8],
    key: &Public<'_>,
    message: &[u8],
    signature: &[u8],
) -> Result<Verdict, AllocError>
    ensures { IfOk result (λ verdict. verdict ≡ sealed_verdict (type_of closing.now.authority.now)
        (seal_of closing.now) certificate.now (public_of key.now) message.now signature.now) }
{
    let Some(authority) = key_type(closing.authority) else {
        return Ok(Verdict::Elsewhere);
    };
    if !is_sealed(keys, authority, certificate, closing)? {
        return Ok(Verdict::Wrong);
    }
    Ok(here(signs(keys, key, message, signature)?))
}

// Whether the authority is a plain key and signed the certificate.
fn is_sealed(
    keys: &SignerKeys,
    authority: KeyType,
    certificate: &[u8],
    closing: &Closing<'_>,
) -> Result<bool, AllocError>
    ensures { IfOk result (λ holds. holds ≡ is_sealed authority certificate.now (seal_of closing.now)) }
{
    match authority {
        KeyType::Plain(kind) => {
            let signed = front(
                certificate,
                certificate.len().saturating_sub(closing.signature_field),
            );
            seals(keys, kind, closing.authority, signed, closing.signature)
        }
        KeyType::Certified(_) => Ok(false),
    }
}

// So many bytes from the front.
fn front(bytes: &[u8], len: usize) -> &[u8]
    requires { len ≤ length bytes.now }
    ensures { result.now ≡ take len bytes.now }
{
    &bytes[..len]
}

// Whether an authority's key signed, and not by SHA-1.
fn seals(
    keys: &SignerKeys,
    kind: Kind,
    authority: &[u8],
    signed: &[u8],
    signature: &[u8],
) -> Result<bool, AllocError>
    ensures { IfOk result (λ holds. holds ≡ seals (plain_public kind authority.now) signed.now signature.now) }
{
    let Ok(key) = read_plain(kind, authority) else {
        return Ok(false);
    };
    if is_by_sha1(signature) {
        return Ok(false);
    }
    signs(keys, &key, signed, signature)
}

// Whether the key signed the message.
#[tactic(auto, unfolding(crate::specs::Verifying::signs))]
fn signs(
    keys: &SignerKeys,
    key: &Public<'_>,
    message: &[u8],
    signature: &[u8],
) -> Result<bool, AllocError>
    ensures { IfOk result (λ holds. holds ≡ signs (public_of key.now) message.now signature.now) }
{
    match key {
        Public::Ed25519(public) => {
            Ok(ed25519_signatures::judge(keys.ed25519()?, public, message, signature).unwrap_or(
                false,
            ))
        }
        Public::EcdsaP256(point) => {
            Ok(p256_signatures::judge(keys.p256()?, point, message, signature).unwrap_or(false))
        }
        Public::EcdsaP384(point) => {
            Ok(p384_signatures::judge(keys.p384()?, point, message, signature).unwrap_or(false))
        }
        Public::EcdsaP521(point) => {
            Ok(p521_signatures::judge(keys.p521()?, point, message, signature).unwrap_or(false))
        }
        Public::Rsa(key) => rsa_signatures::signs(keys.alloc, key, message, signature),
    }
}
