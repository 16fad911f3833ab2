//! Reads the fields of an OpenSSH certificate (PROTOCOL.certkeys), and judges one for a host.

ghost use Rattle.std.specs.Prelude.{◌≡◌, ◌↔◌, IsTrue, MatchResult, Ok, Err};
ghost use Rattle.key_blob.specs.Certificates.{IsValid, certificate_of, names_at, certificate_at};
ghost use Rattle.key_blob.specs.Principals.{NamesHost, are_strings};
ghost use Rattle.key_blob.specs.Validity.{names_host, is_valid};

use crate::fault::KeyFault;
use crate::public_key::Certificate;
use pattern_core::matches;
use wire_core::Cursor;

/// The type of host certificates (`SSH2_CERT_TYPE_HOST`).
const HOST: u32 = 2;

/// Whether the bytes are strings, one after another, to their end.
fn holds_strings(bytes: &[u8]) -> bool
    ensures { result ≡ are_strings bytes.now }
{
    let mut from = Cursor::new(bytes);
    'strings: while let Ok(_) = from.take_string() {}
    from.at_end()
}

/// Takes the string of principals, which holds strings to its end.
///
/// A refused call may have moved the cursor.
#[tactic(auto, unfolding(crate::specs::Certificates::names_at))]
fn take_principals<'a>(from: &mut Cursor<'a>) -> Result<&'a [u8], KeyFault>
    ensures { MatchResult result (λ names. names_at from.old ≡ Ok (names.now, from.new))
        (λ fault. names_at from.old ≡ Err fault) }
{
    let principals = from.take_string()?;
    if !holds_strings(principals) {
        return Err(KeyFault::Short);
    }
    Ok(principals)
}

/// Takes the fields of a certificate that stand behind the key's.
///
/// A refused call may have moved the cursor.
#[tactic(auto, unfolding(crate::specs::Certificates::holder_at, crate::specs::Certificates::times_at, crate::specs::Certificates::signer_at, crate::specs::Certificates::certificate_at))]
pub fn take_certificate<'a>(from: &mut Cursor<'a>) -> Result<Certificate<'a>, KeyFault>
    ensures { MatchResult result
        (λ certificate. certificate_at from.old ≡ Ok (certificate_of certificate, from.new))
        (λ fault. certificate_at from.old ≡ Err fault) }
{
    let _serial = from.take_u64()?;
    let cert_type = from.take_u32()?;
    let _key_id = from.take_string()?;
    let principals = take_principals(from)?;
    let after = from.take_u64()?;
    let before = from.take_u64()?;
    let critical = from.take_string()?;
    let _extensions = from.take_string()?;
    let _reserved = from.take_string()?;
    let signer = from.take_string()?;
    let _signature = from.take_string()?;
    Ok(Certificate {
        cert_type,
        principals,
        after,
        before,
        critical,
        signer,
    })
}

/// Whether one of the strings that the bytes begin with is a pattern that matches the host.
fn names(principals: &[u8], host: &[u8]) -> bool
    ensures exact { IsTrue result ↔ NamesHost host.now principals.now }
    ensures value { result ≡ names_host host.now principals.now }
{
    let mut from = Cursor::new(principals);
    'patterns: while let Ok(pattern) = from.take_string() {
        if matches(host, pattern) {
            return true;
        }
    }
    false
}

/// Whether a certificate is good for this host at `wall`, in seconds since 1970: it is a host
/// certificate without critical options, begun and not over, and names no principals or one that
/// matches the host.
///
/// Who signed it, and whether the signature is right, is not looked at.
#[tactic(auto, using(crate::proofs::ValidityLemmas::nothing_len), unfolding(crate::specs::Validity::is_valid))]
pub fn valid_for(certificate: &Certificate<'_>, host: &[u8], wall: u64) -> bool
    ensures exact { IsTrue result ↔ IsValid (certificate_of certificate.now) host.now wall }
    ensures value { result ≡ is_valid (certificate_of certificate.now) host.now wall }
{
    certificate.cert_type == HOST
        && certificate.after <= wall
        && wall < certificate.before
        && certificate.critical.is_empty()
        && (certificate.principals.is_empty() || names(certificate.principals, host))
}
