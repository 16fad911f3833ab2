//! The login that a signature is for, by any blob of the key that makes it.

ghost use Rattle.std.specs.Prelude.{◌≡◌, IfOk, IsOkAnd, MatchResult, Ok, Err};
ghost use Rattle.std.specs.Option.{option_map};
ghost use Rattle.key_blob.specs.PublicKeys.{public_key_of};
ghost use Rattle.userauth_blob.specs.Logins.{IsLogin, after_same_key, host_at, is_same_key, is_same_kind, key_signer_at, login_of};
ghost use Rattle.userauth_blob.specs.UserAuths.{Login, login};
ghost use Rattle.wire_core.specs.Readings.{IsAnswer};

use crate::fault::AuthFault;
use crate::fields::{key_fits, take_byte};
use crate::method::{AuthMethod, take_method};
use crate::userauth::{UserAuth, take_opening};
use key_blob::{KeyKind, read_public};
use wire_core::Cursor;

// Whether both are one kind.
fn is_same_kind(one: KeyKind, other: KeyKind) -> bool
    ensures { result ≡ is_same_kind one other }
{
    one == other
}

// Whether both blobs are of one key, alone or in a certificate.
fn is_same_key(one: &[u8], other: &[u8]) -> bool
    ensures { result ≡ is_same_key (public_key_of one.now) (public_key_of other.now) }
{
    match (read_public(one), read_public(other)) {
        (Ok(one), Ok(other)) => is_same_kind(one.kind, other.kind) && one.fields == other.fields,
        _ => false,
    }
}

// Takes a blob of the key of this blob, which has to fit the algorithm. A refused call may have moved the cursor.
#[tactic(auto, unfolding(crate::specs::Logins::after_same_key))]
fn take_same_key(from: &mut Cursor<'_>, blob: &[u8], algorithm: &[u8]) -> Result<(), AuthFault>
    ensures { MatchResult result (λ _. after_same_key blob.now algorithm.now from.old ≡ Ok from.new)
        (λ fault. after_same_key blob.now algorithm.now from.old ≡ Err fault) }
{
    let named = from.take_string()?;
    if !is_same_key(blob, named) {
        return Err(AuthFault::OtherKey);
    }
    if !key_fits(named, algorithm) {
        return Err(AuthFault::Algorithm);
    }
    Ok(())
}

// Takes what stands in the place of the host key. A refused call may have moved the cursor.
#[tactic(auto, unfolding(crate::specs::Logins::host_at))]
fn take_host<'a>(from: &mut Cursor<'a>, method: AuthMethod) -> Result<Option<&'a [u8]>, AuthFault>
    ensures { MatchResult result
        (λ key. host_at method from.old ≡ Ok (option_map (λ bytes. bytes.now) key, from.new))
        (λ fault. host_at method from.old ≡ Err fault) }
{
    match method {
        AuthMethod::PublicKey => Ok(None),
        AuthMethod::HostBound => Ok(Some(from.take_string()?)),
    }
}

// Takes the method, and then a blob of the key of this blob, which has to fit the algorithm before it.
fn take_key_signer(from: &mut Cursor<'_>, blob: &[u8]) -> Result<AuthMethod, AuthFault>
    ensures { MatchResult result (λ method. key_signer_at blob.now from.old ≡ Ok (method, from.new))
        (λ fault. key_signer_at blob.now from.old ≡ Err fault) }
{
    let method = take_method(from)?;
    take_byte(from, 1, AuthFault::NoSignatureFlag)?;
    let algorithm = from.take_string()?;
    take_same_key(from, blob, algorithm)?;
    Ok(method)
}

#[tactic(auto, unfolding(crate::specs::Logins::login_of))]
fn login_in<'a>(message: &'a [u8], blob: &[u8]) -> Result<UserAuth<'a>, AuthFault>
    ensures { IsAnswer login result (login_of message.now blob.now) }
{
    let mut from = Cursor::new(message);
    let (session, user) = take_opening(&mut from)?;
    let method = take_key_signer(&mut from, blob)?;
    let host_key = take_host(&mut from, method)?;
    if !from.at_end() {
        return Err(AuthFault::Trailing);
    }
    Ok(UserAuth {
        session,
        user,
        host_key,
    })
}

/// The login that `message` is signed for by the key of `blob`, all of the bytes. The blob in it may be another of the
/// same key's, as that of its certificate, and the host key any text: a server takes such a login too.
///
/// Takes no memory. RFC 4252, section 7, and OpenSSH's PROTOCOL and PROTOCOL.certkeys.
pub fn read_login<'a>(message: &'a [u8], blob: &[u8]) -> Result<UserAuth<'a>, AuthFault>
    // What is read is signed by this key for this login.
    ensures found { IfOk result (λ auth. IsLogin message.now blob.now (login auth)) }

    // What this key signs for a login is read.
    ensures only { (auth : Login) → IsLogin message.now blob.now auth
        → IsOkAnd result (λ read. login read ≡ auth) }

    // Which fault it is.
    ensures exact { IsAnswer login result (login_of message.now blob.now) }
{
    login_in(message, blob)
}
