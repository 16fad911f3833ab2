//! The login that a signature is for (RFC 4252, section 7, and OpenSSH's PROTOCOL).

ghost use Rattle.std.specs.Prelude.{◌≡◌, IfOk, IsOkAnd, MatchResult, Ok, Err};
ghost use Rattle.userauth_blob.specs.UserAuths.{Login, login, IsUserAuth};
ghost use Rattle.userauth_blob.specs.Reading.{auth_of, opening_at, signer_at};
ghost use Rattle.wire_core.specs.Readings.{IsAnswer};

use crate::fault::AuthFault;
use crate::fields::{take_byte, take_host_key, take_key, take_session, take_text};
use crate::method::{AuthMethod, take_method};
use wire_core::Cursor;

/// The login that a signature is for, in the message that it borrows from.
#[derive(Clone, Copy, Debug, PartialEq, Eq)]
pub struct UserAuth<'a> {
    /// The session identifier of the connection, not empty.
    pub session: &'a [u8],
    /// The user's name on the server.
    pub user: &'a [u8],
    /// The blob of the server's host key, where the method binds the login to it.
    pub host_key: Option<&'a [u8]>,
}

/// Takes the front of a message, up to the method: the session identifier and the user.
pub fn take_opening<'a>(from: &mut Cursor<'a>) -> Result<(&'a [u8], &'a [u8]), AuthFault>
    ensures { MatchResult result
        (λ opening. opening_at from.old ≡ Ok ((opening.0.now, opening.1.now), from.new))
        (λ fault. opening_at from.old ≡ Err fault) }
{
    let session = take_session(from)?;
    take_byte(from, 50, AuthFault::NotRequest)?;
    let user = from.take_string()?;
    take_text(from, b"ssh-connection", AuthFault::Service)?;
    Ok((session, user))
}

/// Takes the method, and then the key of this blob, which has to fit the algorithm before it.
fn take_signer(from: &mut Cursor<'_>, blob: &[u8]) -> Result<AuthMethod, AuthFault>
    ensures { MatchResult result (λ method. signer_at blob.now from.old ≡ Ok (method, from.new))
        (λ fault. signer_at blob.now from.old ≡ Err fault) }
{
    let method = take_method(from)?;
    take_byte(from, 1, AuthFault::NoSignatureFlag)?;
    let algorithm = from.take_string()?;
    take_key(from, blob, algorithm)?;
    Ok(method)
}

#[tactic(auto, unfolding(crate::specs::Reading::auth_of))]
fn userauth_in<'a>(message: &'a [u8], blob: &[u8]) -> Result<UserAuth<'a>, AuthFault>
    ensures { IsAnswer login result (auth_of message.now blob.now) }
{
    let mut from = Cursor::new(message);
    let (session, user) = take_opening(&mut from)?;
    let method = take_signer(&mut from, blob)?;
    let host_key = take_host_key(&mut from, method)?;
    if !from.at_end() {
        return Err(AuthFault::Trailing);
    }
    Ok(UserAuth {
        session,
        user,
        host_key,
    })
}

/// The login that `message` is signed for by the key whose blob is `blob`, all of the bytes.
///
/// Takes no memory. RFC 4252, section 7, and OpenSSH's PROTOCOL on host-bound authentication.
pub fn read_userauth<'a>(message: &'a [u8], blob: &[u8]) -> Result<UserAuth<'a>, AuthFault>
    // What is read is signed by this key for this login.
    ensures found { IfOk result (λ auth. IsUserAuth message.now blob.now (login auth)) }

    // What this key signs for a login is read.
    ensures only { (auth : Login) → IsUserAuth message.now blob.now auth
        → IsOkAnd result (λ read. login read ≡ auth) }

    // Which fault it is.
    ensures exact { IsAnswer login result (auth_of message.now blob.now) }
{
    userauth_in(message, blob)
}
