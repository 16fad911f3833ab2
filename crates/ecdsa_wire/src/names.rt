//! The names of the types of ECDSA keys, and of their curves.

ghost use Rattle.std.specs.Prelude.{◌≡◌};
ghost use Rattle.ecdsa_wire.specs.Names.{certified_name, curve_by, curve_name, plain_name, point_len, type_named, type_of};

use wire_core::Cursor;

/// A curve of NIST's (FIPS 186-5; SP 800-186, section 3.2.1).
#[derive(Clone, Copy, Debug, PartialEq, Eq)]
pub enum Curve {
    P256,
    P384,
    P521,
}

/// The type of a key: by itself or in a certificate, and on which curve.
#[derive(Clone, Copy, Debug, PartialEq, Eq)]
pub enum KeyType {
    Plain(Curve),
    Certified(Curve),
}

impl Curve {
    /// The curve's name.
    pub fn name(self) -> &'static [u8]
        ensures { result.now ≡ curve_name self }
    {
        match self {
            Curve::P256 => b"nistp256".as_slice(),
            Curve::P384 => b"nistp384".as_slice(),
            Curve::P521 => b"nistp521".as_slice(),
        }
    }

    /// The type of a key by itself, and of its signatures.
    pub fn plain_name(self) -> &'static [u8]
        ensures { result.now ≡ plain_name self }
    {
        match self {
            Curve::P256 => b"ecdsa-sha2-nistp256".as_slice(),
            Curve::P384 => b"ecdsa-sha2-nistp384".as_slice(),
            Curve::P521 => b"ecdsa-sha2-nistp521".as_slice(),
        }
    }

    /// The type of a key in a certificate.
    pub fn certified_name(self) -> &'static [u8]
        ensures { result.now ≡ certified_name self }
    {
        match self {
            Curve::P256 => b"ecdsa-sha2-nistp256-cert-v01@openssh.com".as_slice(),
            Curve::P384 => b"ecdsa-sha2-nistp384-cert-v01@openssh.com".as_slice(),
            Curve::P521 => b"ecdsa-sha2-nistp521-cert-v01@openssh.com".as_slice(),
        }
    }

    /// How many bytes a point takes, with the byte in front that says its form.
    pub fn point_len(self) -> usize
        ensures { result ≡ point_len self }
    {
        match self {
            Curve::P256 => 65,
            Curve::P384 => 97,
            Curve::P521 => 133,
        }
    }
}

// The curve of a plain type's name.
fn plain_curve(name: &[u8]) -> Option<Curve>
    ensures { result ≡ curve_by plain_name name.now }
{
    if name == Curve::P256.plain_name() {
        Some(Curve::P256)
    } else if name == Curve::P384.plain_name() {
        Some(Curve::P384)
    } else if name == Curve::P521.plain_name() {
        Some(Curve::P521)
    } else {
        None
    }
}

// The curve of a certified type's name.
fn certified_curve(name: &[u8]) -> Option<Curve>
    ensures { result ≡ curve_by certified_name name.now }
{
    if name == Curve::P256.certified_name() {
        Some(Curve::P256)
    } else if name == Curve::P384.certified_name() {
        Some(Curve::P384)
    } else if name == Curve::P521.certified_name() {
        Some(Curve::P521)
    } else {
        None
    }
}

/// The type of a name.
#[tactic(auto, unfolding(crate::specs::Names::type_named))]
pub fn named(name: &[u8]) -> Option<KeyType>
    ensures { result ≡ type_named name.now }
{
    match plain_curve(name) {
        Some(curve) => Some(KeyType::Plain(curve)),
        None => certified_curve(name).map(KeyType::Certified),
    }
}

/// The type that a blob or a private string begins with, where it is one of ECDSA.
#[tactic(auto, unfolding(crate::specs::Names::type_of))]
pub fn key_type(bytes: &[u8]) -> Option<KeyType>
    ensures { result ≡ type_of bytes.now }
{
    match Cursor::new(bytes).take_string() {
        Ok(name) => named(name),
        Err(_) => None,
    }
}
