//! What a message is signed for.

ghost use Rattle.std.specs.Prelude.{◌≡◌, Err};
ghost use Rattle.key_blob.specs.PublicKeys.{public_key_of};
ghost use Rattle.sshsig_blob.specs.Reading.{signing_of};
ghost use Rattle.sshsig_blob.specs.declared.fault.SshsigFault.{SshsigFault};
ghost use Rattle.userauth_blob.specs.declared.fault.AuthFault.{AuthFault};
ghost use Rattle.key_purposes.specs.Messages.{allows, are_for, is_by_sha1, is_sha1_by, let_sign, seen, suit, use_by, use_of};
ghost use Rattle.key_purposes.specs.Suspicions.{begins_certificate, may_log_in};

use crate::purpose::Purpose;
use crate::suspicion::{begins_certificate, may_log_in};
use key_blob::{KeyKind, read_public};
use sshsig_blob::read_sshsig;
use userauth_blob::{UserAuth, read_login};

/// What one message is signed for, by what it reads as. It borrows from the message.
#[derive(Clone, Copy, Debug, PartialEq, Eq)]
pub enum Use<'a> {
    /// To authenticate a user with the key that signs.
    Authentication(UserAuth<'a>),
    /// A file's signature in this namespace.
    FileIn(&'a [u8]),
    /// A certificate, by what it begins with.
    Certificate,
    /// None of these, and a server may take it as a login.
    MayLogIn,
    /// None of all these.
    OtherData,
}

// A certificate, what may be a login, or other data.
fn use_by_bytes(message: &[u8]) -> Use<'_>
    ensures { (auth : AuthFault) (file : SshsigFault) → seen result
        ≡ use_by (Err auth) (Err file) (begins_certificate message.now) (may_log_in message.now) }
{
    if begins_certificate(message) {
        Use::Certificate
    } else if may_log_in(message) {
        Use::MayLogIn
    } else {
        Use::OtherData
    }
}

// What a message is signed for that is no login.
fn other_use(message: &[u8]) -> Use<'_>
    ensures { (fault : AuthFault) → seen result ≡ use_by (Err fault) (signing_of message.now)
        (begins_certificate message.now) (may_log_in message.now) }
{
    match read_sshsig(message) {
        Ok(signed) => Use::FileIn(signed.namespace),
        Err(_) => use_by_bytes(message),
    }
}

/// What the key of this blob signs this message for.
///
/// Takes no memory, and time that grows with the message's length.
#[tactic(auto, unfolding(crate::specs::Messages::use_of))]
pub fn use_of<'a>(message: &'a [u8], blob: &[u8]) -> Use<'a>
    ensures { seen result ≡ use_of message.now blob.now }
{
    match read_login(message, blob) {
        Ok(login) => Use::Authentication(login),
        Err(_) => other_use(message),
    }
}

// Whether the purpose takes in what a message is signed for.
fn allows(purpose: &Purpose, used: Use<'_>) -> bool
    ensures { result ≡ allows purpose.now (seen used.entry) }
{
    match (purpose, used) {
        (Purpose::Login, Use::Authentication(_)) => true,
        (Purpose::Namespace(namespace), Use::FileIn(named)) => namespace.as_slice() == named,
        (Purpose::AnyNamespace, Use::FileIn(_)) => true,
        (Purpose::Certificate, Use::Certificate) => true,
        (Purpose::Other, Use::OtherData) => true,
        _ => false,
    }
}

// Whether the key of this blob signs this message for one of these purposes.
fn are_for(purposes: &[Purpose], message: &[u8], blob: &[u8]) -> bool
    ensures { result ≡ are_for purposes.now message.now blob.now }
{
    let used = use_of(message, blob);
    purposes.iter().any(|purpose| allows(purpose, used))
}

// Whether the key of this blob signs by SHA-1 with these flags, as an RSA key does where neither 2 nor 4 is set.
#[tactic(auto, unfolding(crate::specs::Messages::is_by_sha1))]
fn is_by_sha1(blob: &[u8], flags: u32) -> bool
    ensures { result ≡ is_by_sha1 blob.now flags }
{
    match read_public(blob) {
        Ok(key) => key.kind == KeyKind::Rsa && flags / 2 % 4 == 0,
        Err(_) => false,
    }
}

/// Whether the key of this blob signs this message for one of these purposes, and not by SHA-1: two messages of
/// different kinds may have one hash by it.
///
/// Takes no memory, and time that grows with the message's length.
pub fn suit(purposes: &[Purpose], message: &[u8], blob: &[u8], flags: u32) -> bool
    ensures { result ≡ suit purposes.now message.now blob.now flags }
{
    !is_by_sha1(blob, flags) && are_for(purposes, message, blob)
}

/// Whether the key of this blob may sign this message with these flags: purposes suit it, or none were given.
///
/// Takes no memory, and time that grows with the message's length.
pub fn let_sign(purposes: &[Purpose], message: &[u8], blob: &[u8], flags: u32) -> bool
    ensures { result ≡ let_sign purposes.now message.now blob.now flags }
{
    match purposes {
        [] => true,
        _ => suit(purposes, message, blob, flags),
    }
}
