//! The types of the keys that are known here.

ghost use Rattle.std.specs.Prelude.{◌≡◌};
ghost use Rattle.ecdsa_wire.specs.Names.{type_of as ecdsa_type_of};
ghost use Rattle.rsa_wire.specs.Names.{type_of as rsa_type_of};
ghost use Rattle.signer_keys.specs.Types.{ecdsa_type, ed25519_type, is_known, kind_of, rsa_type, type_of};
ghost use Rattle.wire_core.specs.Fields.{string_at};

use ecdsa_wire::Curve;
use ed25519_wire::{is_certified, is_plain};
use wire_core::Cursor;

/// The algorithm of a key.
#[derive(Clone, Copy, Debug, PartialEq, Eq)]
pub enum Kind {
    Ed25519,
    EcdsaP256,
    EcdsaP384,
    EcdsaP521,
    Rsa,
}

/// The type of a key: by itself or in a certificate.
#[derive(Clone, Copy, Debug, PartialEq, Eq)]
pub enum KeyType {
    Plain(Kind),
    Certified(Kind),
}

impl KeyType {
    pub fn kind(self) -> Kind
        ensures { result ≡ kind_of self }
    {
        match self {
            KeyType::Plain(kind) => kind,
            KeyType::Certified(kind) => kind,
        }
    }
}

/// The type that a blob or a private string begins with, where it is one of these.
#[tactic(auto, unfolding(crate::specs::Types::type_of))]
pub fn key_type(bytes: &[u8]) -> Option<KeyType>
    ensures { result ≡ type_of bytes.now }
{
    ed25519_type(bytes).or(ecdsa_type(bytes).or(rsa_type(bytes)))
}

// Whether a blob or a private string begins with one of these types.
pub fn is_known(bytes: &[u8]) -> bool
    ensures { result ≡ is_known bytes.now }
{
    key_type(bytes).is_some()
}

fn ed25519_type(bytes: &[u8]) -> Option<KeyType>
    ensures { result ≡ ed25519_type (string_at bytes.now) }
{
    match Cursor::new(bytes).take_string() {
        Ok(name) if is_plain(name) => Some(KeyType::Plain(Kind::Ed25519)),
        Ok(name) if is_certified(name) => Some(KeyType::Certified(Kind::Ed25519)),
        _ => None,
    }
}

fn ecdsa_type(bytes: &[u8]) -> Option<KeyType>
    ensures { result ≡ ecdsa_type (ecdsa_type_of bytes.now) }
{
    match ecdsa_wire::key_type(bytes) {
        Some(ecdsa_wire::KeyType::Plain(Curve::P256)) => Some(KeyType::Plain(Kind::EcdsaP256)),
        Some(ecdsa_wire::KeyType::Plain(Curve::P384)) => Some(KeyType::Plain(Kind::EcdsaP384)),
        Some(ecdsa_wire::KeyType::Plain(Curve::P521)) => Some(KeyType::Plain(Kind::EcdsaP521)),
        Some(ecdsa_wire::KeyType::Certified(Curve::P256)) => {
            Some(KeyType::Certified(Kind::EcdsaP256))
        }
        Some(ecdsa_wire::KeyType::Certified(Curve::P384)) => {
            Some(KeyType::Certified(Kind::EcdsaP384))
        }
        Some(ecdsa_wire::KeyType::Certified(Curve::P521)) => {
            Some(KeyType::Certified(Kind::EcdsaP521))
        }
        None => None,
    }
}

fn rsa_type(bytes: &[u8]) -> Option<KeyType>
    ensures { result ≡ rsa_type (rsa_type_of bytes.now) }
{
    match rsa_wire::key_type(bytes) {
        Some(rsa_wire::KeyType::Plain) => Some(KeyType::Plain(Kind::Rsa)),
        Some(rsa_wire::KeyType::Certified) => Some(KeyType::Certified(Kind::Rsa)),
        None => None,
    }
}
