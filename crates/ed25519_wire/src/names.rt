//! The names of the types of Ed25519 keys, by themselves and in certificates.

ghost use Rattle.std.specs.Prelude.{◌≡◌};
ghost use Rattle.ed25519_wire.specs.Names.{is_certified_name, is_ed25519, is_plain_name};

use wire_core::Cursor;

const PLAIN: [u8; 11] = *b"ssh-ed25519";

const CERTIFIED: [u8; 32] = *b"ssh-ed25519-cert-v01@openssh.com";

pub fn is_plain(name: &[u8]) -> bool
    ensures { result ≡ is_plain_name name.now }
{
    name == PLAIN.as_slice()
}

pub fn is_certified(name: &[u8]) -> bool
    ensures { result ≡ is_certified_name name.now }
{
    name == CERTIFIED.as_slice()
}

/// Whether a blob or a private string begins with the name of a type of Ed25519 keys.
#[tactic(auto, unfolding(crate::specs::Names::is_ed25519))]
pub fn is_ed25519(bytes: &[u8]) -> bool
    ensures { result ≡ is_ed25519 bytes.now }
{
    let mut cursor = Cursor::new(bytes);
    match cursor.take_string() {
        Ok(name) => is_plain(name) || is_certified(name),
        Err(_) => false,
    }
}
