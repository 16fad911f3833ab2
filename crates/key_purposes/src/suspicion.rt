//! What a message may be, by its bytes alone.

ghost use Rattle.std.specs.Prelude.{◌≡◌};
ghost use Rattle.key_purposes.specs.Suspicions.{begins_certificate, is_certificate_type, is_name_of_login, may_log_in, names_login};

use wire_core::Cursor;

// Whether this is the name of a service of logins, or of a method by which a key logs in.
#[tactic(auto, unfolding(crate::specs::Suspicions::is_name_of_login))]
fn is_name_of_login(name: &[u8]) -> bool
    ensures { result ≡ is_name_of_login name.now }
{
    name == b"ssh-connection".as_slice()
        || name == b"ssh-userauth".as_slice()
        || name.starts_with(b"publickey".as_slice())
        || name.starts_with(b"hostbased".as_slice())
}

// Whether a string at the front of the bytes is such a name.
#[tactic(auto, unfolding(crate::specs::Suspicions::names_login))]
fn names_login(bytes: &[u8]) -> bool
    ensures { result ≡ names_login bytes.now }
{
    match Cursor::new(bytes).take_string() {
        Ok(name) => is_name_of_login(name),
        Err(_) => false,
    }
}

/// Whether a server may take a signature of this message as a login: a string of it names a service of logins, or a
/// method by which a key logs in.
///
/// Takes no memory, and time that grows with the message's length.
pub fn may_log_in(message: &[u8]) -> bool
    ensures { result ≡ may_log_in message.now }
{
    for at in 0..message.len() {
        if names_login(&message[at..]) {
            return true;
        }
    }
    false
}

/// Whether the message begins as a certificate does, with the name of its type (OpenSSH's PROTOCOL.certkeys).
///
/// Takes no memory.
#[tactic(auto, unfolding(crate::specs::Suspicions::begins_certificate))]
pub fn begins_certificate(message: &[u8]) -> bool
    ensures { result ≡ begins_certificate message.now }
{
    match Cursor::new(message).take_string() {
        Ok(name) => is_certificate_type(name),
        Err(_) => false,
    }
}

// Whether this is the name of a certificate's type.
#[tactic(auto, unfolding(crate::specs::Suspicions::is_certificate_type))]
fn is_certificate_type(name: &[u8]) -> bool
    ensures { result ≡ is_certificate_type name.now }
{
    name.ends_with(b"-cert-v01@openssh.com".as_slice())
        || name.ends_with(b"-cert-v00@openssh.com".as_slice())
}
