//! A public key or certificate, read from its blob by RFC 4253 and PROTOCOL.certkeys.

ghost use Rattle.std.specs.Prelude.{◌≡◌, ◌≢◌, ◌↔◌, IsTrue, IfOk, IsOkAnd, MatchResult, Ok, Err, Contains};
ghost use Rattle.std.specs.Option.{option_map};
ghost use Rattle.key_blob.specs.declared.fault.KeyFault.TheVariants.{Memory};
ghost use Rattle.key_blob.specs.Certificates.{certificate_of};
ghost use Rattle.key_blob.specs.KeyTypes.{type_of};
ghost use Rattle.key_blob.specs.Rows.{line_of};
ghost use Rattle.key_blob.specs.PublicKeys.{KeyParts, parts_of, form_of, algorithms_of, IsPublicKey, after_nonce, certificate_for, public_key_of};

use crate::certificate::take_certificate;
use crate::fault::KeyFault;
use crate::fields::{take_fields, take_form};
use crate::form::Form;
use crate::key_type::{KeyType, plain_row, row};
use crate::kind::KeyKind;
use wire_core::Cursor;

/// The fields of a certificate that are read (OpenSSH's PROTOCOL.certkeys).
#[derive(Clone, Copy, Debug, PartialEq, Eq)]
pub struct Certificate<'a> {
    /// 1 of a user's certificate, 2 of a host's.
    pub cert_type: u32,
    /// The names that it is good for, as strings one after another; empty where it is for any.
    pub principals: &'a [u8],
    /// The first second, since 1970, at which it is valid.
    pub after: u64,
    /// The first second at which it is no longer valid.
    pub before: u64,
    /// The critical options, as strings of names and values.
    pub critical: &'a [u8],
    /// The blob of the key that signed it.
    pub signer: &'a [u8],
}

/// A public key, in a blob that it borrows from.
#[derive(Clone, Copy, Debug, PartialEq, Eq)]
pub struct PublicKey<'a> {
    pub kind: KeyKind,
    /// The name of the type, which tells certificates from plain keys.
    pub type_name: &'a [u8],
    /// The fields of the key alone, each a string, also where a certificate carries it.
    pub fields: &'a [u8],
    /// The certificate that carries the key.
    pub certificate: Option<Certificate<'a>>,
}

/// Takes the nonce that stands in front of the fields of a key in a certificate.
///
/// A refused call may have moved the cursor.
fn skip_nonce(from: &mut Cursor<'_>, form: Form) -> Result<(), KeyFault>
    ensures { MatchResult result (λ _. after_nonce form from.old ≡ Ok from.new)
        (λ fault. after_nonce form from.old ≡ Err fault) }
{
    if let Form::Certified(_) = form {
        from.take_string()?;
    }
    Ok(())
}

/// Takes a certificate's own fields, where the type is that of certificates.
///
/// A refused call may have moved the cursor.
fn take_certificate_for<'a>(
    from: &mut Cursor<'a>,
    form: Form,
) -> Result<Option<Certificate<'a>>, KeyFault>
    ensures { MatchResult result
        (λ certificate.
        certificate_for form from.old ≡ Ok (option_map certificate_of certificate, from.new))
        (λ fault. certificate_for form from.old ≡ Err fault) }
{
    match form {
        Form::Plain(_) => Ok(None),
        Form::Certified(_) => Ok(Some(take_certificate(from)?)),
    }
}

#[tactic(auto, unfolding(crate::specs::PublicKeys::public_key_of))]
fn key_in(bytes: &[u8]) -> Result<PublicKey<'_>, KeyFault>
    ensures { MatchResult result (λ key. public_key_of bytes.now ≡ Ok (parts_of key))
        (λ fault. public_key_of bytes.now ≡ Err fault) }
{
    let mut from = Cursor::new(bytes);
    let form = take_form(&mut from)?;
    skip_nonce(&mut from, form)?;
    let fields = take_fields(&mut from, plain_row(form.kind()).public)?;
    let certificate = take_certificate_for(&mut from, form)?;
    if !from.at_end() {
        return Err(KeyFault::Trailing);
    }
    Ok(PublicKey {
        kind: form.kind(),
        type_name: row(form).name,
        fields,
        certificate,
    })
}

/// Reads the blob of a public key or a certificate, all of the bytes.
pub fn read_public(bytes: &[u8]) -> Result<PublicKey<'_>, KeyFault>
    // What is read is a public key.
    ensures found { IfOk result (λ key. IsPublicKey bytes.now (parts_of key)) }

    // A public key is read.
    ensures only { (key : KeyParts) → IsPublicKey bytes.now key →
        IsOkAnd result (λ read. parts_of read ≡ key) }

    // Which fault it is.
    ensures exact { MatchResult result (λ key. public_key_of bytes.now ≡ Ok (parts_of key))
        (λ fault. public_key_of bytes.now ≡ Err fault) }
    ensures no_memory { result ≢ Err Memory }
{
    key_in(bytes)
}

/// The line of the key's type.
fn row_of(key: &PublicKey<'_>) -> KeyType
    ensures { line_of result ≡ type_of (form_of (parts_of key.now)) }
{
    row(match key.certificate {
        None => Form::Plain(key.kind),
        Some(_) => Form::Certified(key.kind),
    })
}

/// Whether the key can be used with the signature algorithm of this name.
pub fn algorithm_fits(key: &PublicKey<'_>, algorithm: &[u8]) -> bool
    ensures { IsTrue result ↔ Contains (algorithms_of (parts_of key.now)) algorithm.now }
{
    let key_type = row_of(key);
    key_type.name == algorithm || key_type.other_algorithms.contains(&algorithm)
}

/// The word for the key's type that a listing shows, as `RSA` or `RSA-CERT`.
pub fn type_word(key: &PublicKey<'_>) -> &'static str
    ensures { result.now ≡ (type_of (form_of (parts_of key.now))).word }
{
    row_of(key).word
}
