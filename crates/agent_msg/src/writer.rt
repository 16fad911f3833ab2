//! The writer of requests: whole frames, in a buffer that is wiped, since a request may hold a
//! private key or a passphrase.

ghost use Rattle.std.specs.Prelude.{◌≡◌, ◌+◌, ◌^◌, ◌<◌, ◌≤◌, ◌∷◌, ◌++◌, IfOk, OnErr, OnOk, Ok, length};
ghost use Rattle.secret_buf.specs.Buffers.{KeepsRoom};
ghost use Rattle.wire_text.specs.Bounds.{longest_body};
ghost use Rattle.wire_text.specs.Wire.{boolean, uint32, string};
ghost use Rattle.key_blob.specs.AddedKeys.{IsAddedKey};
ghost use Rattle.constraint_rec.specs.Constraints.{IsConstraints};
ghost use Rattle.constraint_rec.specs.Reading.{terms_of};
ghost use Rattle.constraint_rec.specs.Writing.{constraints_bytes, IsWritable};
ghost use Rattle.agent_msg.specs.Reading.{request_of};
ghost use Rattle.agent_msg.specs.Requests.{Add, client_request, session_bind, IsRequest};
ghost use Rattle.agent_msg.specs.Writing.{addition_text, bind_body, signing_body, request_body, request_length, IsWritableRequest};

use crate::bind::session_bind;
use crate::request::Request;
use constraint_rec::{Terms, write_constraints};
use frame_core::{push_string, push_u32, put_frame};
use key_blob::AddedKey;
use secret_buf::ScrubBuf;
use std::alloc::{AllocError, Global};

/// Appends the frame of `request`. Its constraints alone are put together elsewhere first, in memory
/// of `alloc`.
///
/// An addition without constraints is written as ADD_IDENTITY.
pub fn write_request(
    alloc: Global,
    out: &mut ScrubBuf,
    request: &Request<'_>,
) -> Result<(), AllocError>
    requires writable { IsWritableRequest (client_request request.now) }
    requires fits { request_length (client_request request.now) ≤ longest_body }
    ensures ok { OnOk result (out.new.live
        ≡ out.old.live ++ string (request_body (client_request request.now))) }
    ensures err { OnErr result (out.new ≡ out.old) }
    ensures keeps_room { KeepsRoom out.old out.new }

    // What is written is in the grammar, and is read back.
    ensures written { IsRequest (request_body (client_request request.now))
        (client_request request.now) }
    ensures read_back { request_of (request_body (client_request request.now))
        ≡ Ok (client_request request.now) }
{
    put_request(alloc, out, request)
}

fn put_request(alloc: Global, out: &mut ScrubBuf, request: &Request<'_>) -> Result<(), AllocError>
    requires writable { IsWritableRequest (client_request request.now) }
    requires fits { request_length (client_request request.now) ≤ longest_body }
    ensures ok { OnOk result (out.new.live
        ≡ out.old.live ++ string (request_body (client_request request.now))) }
    ensures err { OnErr result (out.new ≡ out.old) }
    ensures keeps_room { KeepsRoom out.old out.new }
    ensures written { IsRequest (request_body (client_request request.now))
        (client_request request.now) }
{
    match request {
        Request::List => put_frame(out, &[11]),
        Request::Sign {
            blob,
            message,
            flags,
        } => put_signing(out, blob, message, *flags),
        Request::Add {
            key,
            comment,
            terms,
        } => put_addition(alloc, out, key, comment, terms),
        Request::Remove { blob } => put_text(out, 18, blob),
        Request::RemoveAll => put_frame(out, &[19]),
        Request::Lock { passphrase } => put_text(out, 22, passphrase),
        Request::Unlock { passphrase } => put_text(out, 23, passphrase),
        Request::Bind {
            host_key,
            session,
            signature,
            forwarding,
        } => put_bind(out, host_key, session, signature, *forwarding),
        Request::OtherExtension { .. } | Request::Unsupported { .. } => unreachable!(),
    }
}

/// Appends the frame of a number and a string.
#[tactic(auto, using(crate::proofs::WriteLemmas::written), unfolding(wire_text::specs::Wire::string))]
fn put_text(out: &mut ScrubBuf, number: u8, text: &[u8]) -> Result<(), AllocError>
    requires { 5 + length text.now ≤ longest_body }
    ensures ok { OnOk result (out.new.live ≡ out.old.live ++ string (number ∷ string text.now)) }
    ensures err { OnErr result (out.new ≡ out.old) }
    ensures keeps_room { KeepsRoom out.old out.new }
{
    out.reserve(9 + text.len())?;
    push_u32(out, 5 + text.len() as u32);
    out.push_reserved(&[number]);
    push_string(out, text);
    Ok(())
}

/// Appends the frame of SIGN_REQUEST.
#[tactic(auto, using(crate::proofs::WriteLemmas::written), unfolding(wire_text::specs::Wire::string))]
fn put_signing(
    out: &mut ScrubBuf,
    blob: &[u8],
    message: &[u8],
    flags: u32,
) -> Result<(), AllocError>
    requires { 13 + length blob.now + length message.now ≤ longest_body }
    ensures ok { OnOk result (out.new.live
        ≡ out.old.live ++ string (signing_body blob.now message.now flags)) }
    ensures err { OnErr result (out.new ≡ out.old) }
    ensures keeps_room { KeepsRoom out.old out.new }
    ensures flags_fit { flags < 2 ^ 32 }
{
    let len = 13 + blob.len() + message.len();
    out.reserve(4 + len)?;
    push_u32(out, len as u32);
    out.push_reserved(&[13]);
    push_string(out, blob);
    push_string(out, message);
    push_u32(out, flags);
    Ok(())
}

/// The constraints' bytes.
fn constraints_of(alloc: Global, terms: &Terms) -> Result<Vec<u8>, AllocError>
    requires { IsWritable terms.now }
    ensures ok { IfOk result (λ text. text.items ≡ constraints_bytes terms.now) }
    ensures written { IsConstraints (constraints_bytes terms.now) terms.now }
    ensures read_back { terms_of (constraints_bytes terms.now) ≡ Ok terms.now }
{
    let mut text = Vec::new(alloc);
    write_constraints(&mut text, terms)?;
    Ok(text)
}

/// Appends the frame of an addition.
fn put_addition(
    alloc: Global,
    out: &mut ScrubBuf,
    key: &AddedKey,
    comment: &[u8],
    terms: &Terms,
) -> Result<(), AllocError>
    requires key { IsAddedKey key.now }
    requires terms { IsWritable terms.now }
    requires fits { 5 + length key.now.private + length comment.now
        + length (constraints_bytes terms.now) ≤ longest_body }
    ensures ok { OnOk result (out.new.live ≡ out.old.live
        ++ string (addition_text key.now.private comment.now (constraints_bytes terms.now))) }
    ensures err { OnErr result (out.new ≡ out.old) }
    ensures keeps_room { KeepsRoom out.old out.new }
    ensures written { IsRequest (addition_text key.now.private comment.now (constraints_bytes terms.now))
        (Add record { key = key.now; comment = comment.now; terms = terms.now }) }
{
    let constraints = constraints_of(alloc, terms)?;
    put_addition_under(out, key, comment, &constraints)
}

/// Appends the frame of an addition under constraints of these bytes.
#[tactic(auto, using(crate::proofs::WriteLemmas::written), unfolding(wire_text::specs::Wire::string))]
fn put_addition_under(
    out: &mut ScrubBuf,
    key: &AddedKey,
    comment: &[u8],
    constraints: &[u8],
) -> Result<(), AllocError>
    requires { 5 + length key.now.private + length comment.now + length constraints.now ≤ longest_body }
    ensures ok { OnOk result (out.new.live
        ≡ out.old.live ++ string (addition_text key.now.private comment.now constraints.now)) }
    ensures err { OnErr result (out.new ≡ out.old) }
    ensures keeps_room { KeepsRoom out.old out.new }
{
    let number = if constraints.is_empty() { 17 } else { 25 };
    let len = 5 + key.private.len() + comment.len() + constraints.len();
    out.reserve(4 + len)?;
    push_u32(out, len as u32);
    out.push_reserved(&[number]);
    key.private.append_to(out)?;
    push_string(out, comment);
    out.push_reserved(constraints);
    Ok(())
}

/// Appends the frame of the extension that binds.
#[tactic(auto, using(crate::proofs::WriteLemmas::written), unfolding(wire_text::specs::Wire::string, crate::specs::Requests::session_bind))]
fn put_bind(
    out: &mut ScrubBuf,
    host_key: &[u8],
    session: &[u8],
    signature: &[u8],
    forwarding: bool,
) -> Result<(), AllocError>
    requires { 42 + length host_key.now + length session.now + length signature.now ≤ longest_body }
    ensures ok { OnOk result (out.new.live ≡ out.old.live
        ++ string (bind_body host_key.now session.now signature.now forwarding)) }
    ensures err { OnErr result (out.new ≡ out.old) }
    ensures keeps_room { KeepsRoom out.old out.new }
{
    let len = 42 + host_key.len() + session.len() + signature.len();
    out.reserve(4 + len)?;
    push_u32(out, len as u32);
    out.push_reserved(&[27]);
    push_string(out, session_bind());
    push_string(out, host_key);
    push_string(out, session);
    push_string(out, signature);
    out.push_reserved(&[u8::from(forwarding)]);
    Ok(())
}
