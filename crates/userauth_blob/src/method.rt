//! The methods by which a public key logs in: `publickey`, and that bound to a host.

ghost use Rattle.std.specs.Prelude.{◌≡◌, MatchResult, Ok, Err};
ghost use Rattle.userauth_blob.specs.Reading.{method_named, method_at};

use crate::fault::AuthFault;
use wire_core::Cursor;

/// How a public key authenticates a user.
#[derive(Clone, Copy)]
pub enum AuthMethod {
    /// `publickey`.
    PublicKey,
    /// `publickey-hostbound-v00@openssh.com`, which has the server's host key in what is signed.
    HostBound,
}

/// The method of this name.
#[tactic(auto, unfolding(crate::specs::Reading::method_named))]
fn named(name: &[u8]) -> Option<AuthMethod>
    ensures { result ≡ method_named name.now }
{
    if name == b"publickey".as_slice() {
        Some(AuthMethod::PublicKey)
    } else if name == b"publickey-hostbound-v00@openssh.com".as_slice() {
        Some(AuthMethod::HostBound)
    } else {
        None
    }
}

/// Takes the method. A refused call may have moved the cursor.
#[tactic(auto, unfolding(crate::specs::Reading::method_at))]
pub fn take_method(from: &mut Cursor<'_>) -> Result<AuthMethod, AuthFault>
    ensures { MatchResult result (λ method. method_at from.old ≡ Ok (method, from.new))
        (λ fault. method_at from.old ≡ Err fault) }
{
    named(from.take_string()?).ok_or(AuthFault::Method)
}
