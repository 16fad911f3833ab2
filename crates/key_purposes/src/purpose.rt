//! A purpose.

ghost use Rattle.std.specs.Prelude.{◌≡◌, ◌++◌, OnOk};
ghost use Rattle.key_purposes.specs.Purposes.{is_same, word_of};

use plain_lists::Bytes;
use std::alloc::AllocError;

/// What signatures may be for.
#[derive(Debug, Drop)]
pub enum Purpose {
    /// To authenticate a user with the very key that signs: `login`.
    Login,
    /// A file's signature in exactly this namespace, which isn't empty: `sshsig:NAMESPACE`.
    Namespace(Bytes),
    /// A file's signature in any namespace: `sshsig`.
    AnyNamespace,
    /// What begins as a certificate, to be signed by an authority: `certificate`.
    Certificate,
    /// What is none of these, and no server takes as a login: `other`.
    Other,
}

/// Whether both are one purpose.
pub fn is_same(one: &Purpose, other: &Purpose) -> bool
    ensures { result ≡ is_same one.now other.now }
{
    match (one, other) {
        (Purpose::Login, Purpose::Login) => true,
        (Purpose::Namespace(namespace), Purpose::Namespace(named)) => {
            namespace.as_slice() == named.as_slice()
        }
        (Purpose::AnyNamespace, Purpose::AnyNamespace) => true,
        (Purpose::Certificate, Purpose::Certificate) => true,
        (Purpose::Other, Purpose::Other) => true,
        _ => false,
    }
}

/// Appends the word that names a purpose.
pub fn put_word(out: &mut Vec<u8>, purpose: &Purpose) -> Result<(), AllocError>
    ensures { OnOk result (out.new.items ≡ out.old.items ++ word_of purpose.now) }
{
    match purpose {
        Purpose::Login => out.extend_from_slice(b"login".as_slice()),
        Purpose::Namespace(namespace) => {
            out.extend_from_slice(b"sshsig:".as_slice())?;
            out.extend_from_slice(namespace.as_slice())
        }
        Purpose::AnyNamespace => out.extend_from_slice(b"sshsig".as_slice()),
        Purpose::Certificate => out.extend_from_slice(b"certificate".as_slice()),
        Purpose::Other => out.extend_from_slice(b"other".as_slice()),
    }
}
