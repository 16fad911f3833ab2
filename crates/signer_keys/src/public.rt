//! Public keys of the algorithms that are known here.

ghost use Rattle.std.specs.Prelude.{◌≡◌, Ok, Err, length};
ghost use Rattle.signer_keys.specs.Verifying.{certified_public, certified_public_behind, plain_public, public_of};
ghost use Rattle.wire_core.specs.Readings.{IsAnswer};

use crate::types::Kind;
use crate::{p256_signatures, p384_signatures, p521_signatures};
use ecdsa_wire::{Curve, read_certified_point};
use ed25519_wire::{read_authority, read_certified_key};
use key_wire::KeyFault;
use rsa_wire::read_certified_public;
use wire_core::Cursor;

/// A public key.
#[derive(Clone, Copy)]
pub enum Public<'a> {
    Ed25519([u8; 32]),
    EcdsaP256([u8; 65]),
    EcdsaP384([u8; 97]),
    EcdsaP521([u8; 133]),
    Rsa(rsa_wire::Public<'a>),
}

/// The key of a plain blob.
#[tactic(auto, unfolding(crate::specs::Verifying::plain_public))]
pub fn read_plain(kind: Kind, blob: &[u8]) -> Result<Public<'_>, KeyFault>
    ensures { IsAnswer public_of result (plain_public kind blob.now) }
{
    match kind {
        Kind::Ed25519 => Ok(Public::Ed25519(as_key(read_authority(blob)?))),
        Kind::EcdsaP256 => {
            let key = ecdsa_wire::read_public(blob)?;
            Ok(Public::EcdsaP256(p256_signatures::point_of(key.curve, key.point)?))
        }
        Kind::EcdsaP384 => {
            let key = ecdsa_wire::read_public(blob)?;
            Ok(Public::EcdsaP384(p384_signatures::point_of(key.curve, key.point)?))
        }
        Kind::EcdsaP521 => {
            let key = ecdsa_wire::read_public(blob)?;
            Ok(Public::EcdsaP521(p521_signatures::point_of(key.curve, key.point)?))
        }
        Kind::Rsa => Ok(Public::Rsa(rsa_wire::read_public(blob)?)),
    }
}

// The bytes of an Ed25519 key.
fn as_key(bytes: &[u8]) -> [u8; 32]
    requires { length bytes.now ≡ 32 }
    ensures { result ≡ bytes.now }
{
    let mut key = [0; 32];
    key.copy_from_slice(bytes);
    key
}

/// The key of a certificate, and what follows it.
#[tactic(auto, unfolding(crate::specs::Verifying::certified_public))]
pub fn read_certified(kind: Kind, certificate: &[u8]) -> Result<(Public<'_>, &[u8]), KeyFault>
    ensures { IsAnswer (λ key. (public_of key.0, key.1.now)) result (certified_public kind certificate.now) }
{
    let mut cursor = Cursor::new(certificate);
    let _name = cursor.take_string()?;
    read_behind_name(kind, cursor.rest())
}

// The key of a certificate behind its type's name, and what follows it.
#[tactic(auto, unfolding(crate::specs::Verifying::certified_public_behind))]
fn read_behind_name(kind: Kind, bytes: &[u8]) -> Result<(Public<'_>, &[u8]), KeyFault>
    ensures { IsAnswer (λ key. (public_of key.0, key.1.now)) result (certified_public_behind kind bytes.now) }
{
    match kind {
        Kind::Ed25519 => {
            let (key, rest) = read_certified_key(bytes)?;
            Ok((Public::Ed25519(as_key(key)), rest))
        }
        Kind::EcdsaP256 => {
            let (point, rest) = read_certified_point(bytes, Curve::P256)?;
            Ok((Public::EcdsaP256(p256_signatures::as_point(point)), rest))
        }
        Kind::EcdsaP384 => {
            let (point, rest) = read_certified_point(bytes, Curve::P384)?;
            Ok((Public::EcdsaP384(p384_signatures::as_point(point)), rest))
        }
        Kind::EcdsaP521 => {
            let (point, rest) = read_certified_point(bytes, Curve::P521)?;
            Ok((Public::EcdsaP521(p521_signatures::as_point(point)), rest))
        }
        Kind::Rsa => {
            let (key, rest) = read_certified_public(bytes)?;
            Ok((Public::Rsa(key), rest))
        }
    }
}
