//! The fields of a signed message. A refused call may have moved the cursor.

ghost use Rattle.std.specs.Prelude.{◌≡◌, MatchResult, Ok, Err};
ghost use Rattle.std.specs.Option.{option_map};
ghost use Rattle.key_blob.specs.PublicKeys.{public_key_of};
ghost use Rattle.userauth_blob.specs.Reading.{after_byte, after_text, session_at, fits, after_key, host_key_at};

use crate::fault::AuthFault;
use crate::method::AuthMethod;
use key_blob::{algorithm_fits, read_public};
use wire_core::Cursor;

/// Takes this byte. Another one is the fault `other`.
#[tactic(auto, unfolding(crate::specs::Reading::after_byte))]
pub fn take_byte(from: &mut Cursor<'_>, wanted: u8, other: AuthFault) -> Result<(), AuthFault>
    ensures { MatchResult result (λ _. after_byte wanted other from.old ≡ Ok from.new)
        (λ fault. after_byte wanted other from.old ≡ Err fault) }
{
    if from.take_u8()? != wanted {
        return Err(other);
    }
    Ok(())
}

/// Takes this string. Another one is the fault `other`.
#[tactic(auto, unfolding(crate::specs::Reading::after_text))]
pub fn take_text(from: &mut Cursor<'_>, wanted: &[u8], other: AuthFault) -> Result<(), AuthFault>
    ensures { MatchResult result (λ _. after_text wanted.now other from.old ≡ Ok from.new)
        (λ fault. after_text wanted.now other from.old ≡ Err fault) }
{
    if from.take_string()? != wanted {
        return Err(other);
    }
    Ok(())
}

/// Takes the session identifier.
#[tactic(auto, unfolding(crate::specs::Reading::session_at))]
pub fn take_session<'a>(from: &mut Cursor<'a>) -> Result<&'a [u8], AuthFault>
    ensures { MatchResult result (λ session. session_at from.old ≡ Ok (session.now, from.new))
        (λ fault. session_at from.old ≡ Err fault) }
{
    let session = from.take_string()?;
    if session.is_empty() {
        return Err(AuthFault::EmptySession);
    }
    Ok(session)
}

/// Whether the blob is a public key's that can be used with the algorithm.
pub fn key_fits(blob: &[u8], algorithm: &[u8]) -> bool
    ensures { result ≡ fits (public_key_of blob.now) algorithm.now }
{
    match read_public(blob) {
        Ok(key) => algorithm_fits(&key, algorithm),
        Err(_) => false,
    }
}

/// Takes this key blob, which has to fit the algorithm.
#[tactic(auto, unfolding(crate::specs::Reading::after_key))]
pub fn take_key(from: &mut Cursor<'_>, blob: &[u8], algorithm: &[u8]) -> Result<(), AuthFault>
    ensures { MatchResult result (λ _. after_key blob.now algorithm.now from.old ≡ Ok from.new)
        (λ fault. after_key blob.now algorithm.now from.old ≡ Err fault) }
{
    take_text(from, blob, AuthFault::OtherKey)?;
    if !key_fits(blob, algorithm) {
        return Err(AuthFault::Algorithm);
    }
    Ok(())
}

/// Takes the host key that the method has.
#[tactic(auto, unfolding(crate::specs::Reading::host_key_at))]
pub fn take_host_key<'a>(
    from: &mut Cursor<'a>,
    method: AuthMethod,
) -> Result<Option<&'a [u8]>, AuthFault>
    ensures { MatchResult result
        (λ key. host_key_at method from.old ≡ Ok (option_map (λ bytes. bytes.now) key, from.new))
        (λ fault. host_key_at method from.old ≡ Err fault) }
{
    match method {
        AuthMethod::PublicKey => Ok(None),
        AuthMethod::HostBound => {
            let host_key = from.take_string()?;
            if read_public(host_key).is_err() {
                return Err(AuthFault::HostKey);
            }
            Ok(Some(host_key))
        }
    }
}
