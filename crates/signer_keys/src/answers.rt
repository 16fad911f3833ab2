//! The answers to requests.

ghost use Rattle.std.specs.Prelude.{◌≡◌, ◌≤◌, ◌++◌, Ok, Err, IfOk, IfSome, OnOk, MatchOption, length};
ghost use Rattle.child_msg.specs.ChildFrames.{from_child_body};
ghost use Rattle.child_msg.specs.Messages.{Signing};
ghost use Rattle.helper_core.specs.Routes.{IsRouted};
ghost use Rattle.key_wire.specs.declared.fault.KeyFault.TheVariants.{Unfit};
ghost use Rattle.signer_keys.specs.Answers.{route_of};
ghost use Rattle.signer_keys.specs.Signing.{signature_by, signature_for, signature_typed, signed_by, signing_of, signing_route};
ghost use Rattle.signer_keys.specs.Verifying.{verifying_route};
ghost use Rattle.wire_text.specs.Wire.{string};

use crate::erased::put_erased;
use crate::keys::SignerKeys;
use crate::request::Request;
use crate::types::{Kind, is_known, key_type};
use crate::verifying::{Verdict, judge};
use crate::{
    ed25519_signatures, p256_signatures, p384_signatures, p521_signatures, rsa_signatures,
};
use child_msg::{FromChild, ToChild, read_to_child, write_from_child};
use helper_core::{Answerer, Asked, Routed};
use secret_buf::ScrubBuf;
use std::alloc::AllocError;

impl Answerer for SignerKeys {
    ghost route = { λ keys. route_of };

    fn answer(&self, body: &[u8], out: &mut ScrubBuf) -> Result<Routed, AllocError> {
        put_answer(self, body, out)
    }
}

// Appends the frame of the answer to a body, where the body is answered here.
fn put_answer(keys: &SignerKeys, body: &[u8], out: &mut ScrubBuf) -> Result<Routed, AllocError>
    ensures { IfOk result (λ routed. IsRouted routed (route_of body.now) out.old.live out.new.live) }
{
    match read_to_child(body) {
        Ok(
            ToChild::Sign {
                ask,
                private,
                blob,
                message,
                flags,
            },
        ) => {
            let request = Request {
                ask,
                private,
                blob,
                message,
                flags,
            };
            sign(keys, &request, out)
        }
        Ok(
            ToChild::Verify {
                ask,
                host_key,
                signature,
                session,
            },
        ) => put_verdict(ask, judge(keys, host_key, session, signature)?, out),
        Ok(ToChild::Confirm { .. }) => Ok(Routed::NoRequest),
        Err(_) => Ok(Routed::NoRequest),
    }
}

// Signs, where the blob or the private string is of a known type.
fn sign(keys: &SignerKeys, request: &Request<'_>, out: &mut ScrubBuf) -> Result<Routed, AllocError>
    ensures { IfOk result (λ routed. IsRouted routed (signing_route (signing_of request.now))
        out.old.live out.new.live) }
{
    if !is_known(request.blob) && !is_known(request.private) {
        return Ok(Routed::HandedOn(Asked::Signature { ask: request.ask }));
    }
    put_erased(keys, request, out)?;
    Ok(Routed::Answered)
}

/// Appends the frame of the signature, or of the refusal.
#[inline(never)]
pub fn put_signature(
    keys: &SignerKeys,
    request: &Request<'_>,
    out: &mut ScrubBuf,
) -> Result<(), AllocError>
    ensures { OnOk result (out.new.live ≡ out.old.live ++ string (from_child_body
        (signed_by request.now.ask (signature_for (signing_of request.now))))) }
{
    match signature(keys, request)? {
        Some(text) => write_from_child(
            out,
            &FromChild::Signed {
                ask: request.ask,
                signature: &text,
            },
        ),
        None => write_from_child(out, &FromChild::Refused { ask: request.ask }),
    }
}

// The signature that is asked for, where there is one.
#[tactic(auto, unfolding(crate::specs::Signing::signature_for))]
fn signature(keys: &SignerKeys, request: &Request<'_>) -> Result<Option<Vec<u8>>, AllocError>
    ensures ok { IfOk result (λ text. MatchOption text (signature_for (signing_of request.now) ≡ Err Unfit)
        (λ t. signature_for (signing_of request.now) ≡ Ok t.items)) }
    ensures sized { IfOk result (λ text. IfSome text (λ t. length t.items ≤ 1064)) }
{
    match key_type(request.blob) {
        Some(key) => signature_by(keys, key.kind(), request),
        None => Ok(None),
    }
}

fn signature_by(
    keys: &SignerKeys,
    kind: Kind,
    request: &Request<'_>,
) -> Result<Option<Vec<u8>>, AllocError>
    ensures ok { IfOk result (λ text. MatchOption text (signature_by kind (signing_of request.now) ≡ Err Unfit)
        (λ t. signature_by kind (signing_of request.now) ≡ Ok t.items)) }
    ensures sized { IfOk result (λ text. IfSome text (λ t. length t.items ≤ 1064)) }
{
    match kind {
        Kind::Ed25519 => ed25519_signature(keys, request),
        Kind::EcdsaP256 => p256_signature(keys, request),
        Kind::EcdsaP384 => p384_signature(keys, request),
        Kind::EcdsaP521 => p521_signature(keys, request),
        Kind::Rsa => rsa_signature(keys, request),
    }
}

fn ed25519_signature(
    keys: &SignerKeys,
    request: &Request<'_>,
) -> Result<Option<Vec<u8>>, AllocError>
    ensures ok { IfOk result (λ text. MatchOption text
        (signature_by Kind.Ed25519 (signing_of request.now) ≡ Err Unfit)
        (λ t. signature_by Kind.Ed25519 (signing_of request.now) ≡ Ok t.items)) }
    ensures sized { IfOk result (λ text. IfSome text (λ t. length t.items ≤ 1064)) }
{
    let table = keys.ed25519()?;
    match ed25519_signatures::sign(table, request.private, request.blob, request.message) {
        Ok(bytes) => Ok(Some(ed25519_signatures::text(keys.alloc, &bytes)?)),
        Err(_) => Ok(None),
    }
}

fn p256_signature(keys: &SignerKeys, request: &Request<'_>) -> Result<Option<Vec<u8>>, AllocError>
    ensures ok { IfOk result (λ text. MatchOption text
        (signature_by Kind.EcdsaP256 (signing_of request.now) ≡ Err Unfit)
        (λ t. signature_by Kind.EcdsaP256 (signing_of request.now) ≡ Ok t.items)) }
    ensures sized { IfOk result (λ text. IfSome text (λ t. length t.items ≤ 1064)) }
{
    let table = keys.p256()?;
    match p256_signatures::sign(table, request.private, request.blob, request.message) {
        Ok(bytes) => Ok(Some(p256_signatures::text(keys.alloc, &bytes)?)),
        Err(_) => Ok(None),
    }
}

fn p384_signature(keys: &SignerKeys, request: &Request<'_>) -> Result<Option<Vec<u8>>, AllocError>
    ensures ok { IfOk result (λ text. MatchOption text
        (signature_by Kind.EcdsaP384 (signing_of request.now) ≡ Err Unfit)
        (λ t. signature_by Kind.EcdsaP384 (signing_of request.now) ≡ Ok t.items)) }
    ensures sized { IfOk result (λ text. IfSome text (λ t. length t.items ≤ 1064)) }
{
    let table = keys.p384()?;
    match p384_signatures::sign(table, request.private, request.blob, request.message) {
        Ok(bytes) => Ok(Some(p384_signatures::text(keys.alloc, &bytes)?)),
        Err(_) => Ok(None),
    }
}

fn p521_signature(keys: &SignerKeys, request: &Request<'_>) -> Result<Option<Vec<u8>>, AllocError>
    ensures ok { IfOk result (λ text. MatchOption text
        (signature_by Kind.EcdsaP521 (signing_of request.now) ≡ Err Unfit)
        (λ t. signature_by Kind.EcdsaP521 (signing_of request.now) ≡ Ok t.items)) }
    ensures sized { IfOk result (λ text. IfSome text (λ t. length t.items ≤ 1064)) }
{
    let table = keys.p521()?;
    match p521_signatures::sign(table, request.private, request.blob, request.message) {
        Ok(bytes) => Ok(Some(p521_signatures::text(keys.alloc, &bytes)?)),
        Err(_) => Ok(None),
    }
}

fn rsa_signature(keys: &SignerKeys, request: &Request<'_>) -> Result<Option<Vec<u8>>, AllocError>
    ensures ok { IfOk result (λ text. MatchOption text
        (signature_by Kind.Rsa (signing_of request.now) ≡ Err Unfit)
        (λ t. signature_by Kind.Rsa (signing_of request.now) ≡ Ok t.items)) }
    ensures sized { IfOk result (λ text. IfSome text (λ t. length t.items ≤ 1064)) }
{
    let algorithm = rsa_signatures::asked_for(request.flags);
    match rsa_signatures::sign(
        keys.alloc,
        request.private,
        request.blob,
        algorithm,
        request.message,
    )? {
        Some(bytes) => Ok(Some(rsa_signatures::text(keys.alloc, algorithm, &bytes)?)),
        None => Ok(None),
    }
}

// Appends the frame of a verdict that is given here.
fn put_verdict(ask: u64, verdict: Verdict, out: &mut ScrubBuf) -> Result<Routed, AllocError>
    ensures { IfOk result (λ routed. IsRouted routed (verifying_route verdict ask) out.old.live out.new.live) }
{
    match verdict {
        Verdict::Right => write_from_child(out, &FromChild::True { ask })?,
        Verdict::Wrong => write_from_child(out, &FromChild::False { ask })?,
        Verdict::Elsewhere => return Ok(Routed::HandedOn(Asked::Verdict { ask })),
    }
    Ok(Routed::Answered)
}
