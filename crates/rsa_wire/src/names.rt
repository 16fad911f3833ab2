//! The names of the types of RSA keys, and of their signatures.

ghost use Rattle.std.specs.Prelude.{◌≡◌};
ghost use Rattle.rsa_wire.specs.Names.{algorithm_name, algorithm_named, type_name, type_named, type_of};

use wire_core::Cursor;

/// The type of a key: by itself or in a certificate.
#[derive(Clone, Copy, Debug, PartialEq, Eq)]
pub enum KeyType {
    Plain,
    Certified,
}

/// The algorithm of a signature, by its hash.
#[derive(Clone, Copy, Debug, PartialEq, Eq)]
pub enum Algorithm {
    Sha1,
    Sha256,
    Sha512,
}

impl KeyType {
    /// The type's name.
    pub fn name(self) -> &'static [u8]
        ensures { result.now ≡ type_name self }
    {
        match self {
            KeyType::Plain => b"ssh-rsa".as_slice(),
            KeyType::Certified => b"ssh-rsa-cert-v01@openssh.com".as_slice(),
        }
    }
}

impl Algorithm {
    /// The algorithm's name (RFC 4253, section 6.6; RFC 8332, section 3).
    pub fn name(self) -> &'static [u8]
        ensures { result.now ≡ algorithm_name self }
    {
        match self {
            Algorithm::Sha1 => b"ssh-rsa".as_slice(),
            Algorithm::Sha256 => b"rsa-sha2-256".as_slice(),
            Algorithm::Sha512 => b"rsa-sha2-512".as_slice(),
        }
    }
}

/// The type of a name.
#[tactic(auto, unfolding(crate::specs::Names::type_named))]
pub fn named(name: &[u8]) -> Option<KeyType>
    ensures { result ≡ type_named name.now }
{
    if name == KeyType::Plain.name() {
        Some(KeyType::Plain)
    } else if name == KeyType::Certified.name() {
        Some(KeyType::Certified)
    } else {
        None
    }
}

/// The algorithm of a name.
#[tactic(auto, unfolding(crate::specs::Names::algorithm_named))]
pub fn algorithm_by(name: &[u8]) -> Option<Algorithm>
    ensures { result ≡ algorithm_named name.now }
{
    if name == Algorithm::Sha1.name() {
        Some(Algorithm::Sha1)
    } else if name == Algorithm::Sha256.name() {
        Some(Algorithm::Sha256)
    } else if name == Algorithm::Sha512.name() {
        Some(Algorithm::Sha512)
    } else {
        None
    }
}

/// The type that a blob or a private string begins with, where it is one of RSA.
#[tactic(auto, unfolding(crate::specs::Names::type_of))]
pub fn key_type(bytes: &[u8]) -> Option<KeyType>
    ensures { result ≡ type_of bytes.now }
{
    match Cursor::new(bytes).take_string() {
        Ok(name) => named(name),
        Err(_) => None,
    }
}
