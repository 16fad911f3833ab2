//! Answers one request of the agent with a frame (docs/PROTOCOL.md).

ghost use Rattle.std.specs.Prelude.{◌≡◌, ◌++◌, IfOk, OnOk, List, option_map};
ghost use Rattle.child_msg.specs.ChildFrames.{from_child_body};
ghost use Rattle.standin_core.specs.Answers.{IsAnswered, answer_of, is_signed_with, host_secret, signed_with};
ghost use Rattle.standin_core.specs.Hosts.{Host, ArePairs};
ghost use Rattle.standin_core.specs.Requests.{signing, verification, verdict_of};
ghost use Rattle.standin_core.specs.Keys.{tag_of};
ghost use Rattle.wire_text.specs.Wire.{string};

use crate::hosts::find_secret;
use crate::keys::{secret_in, signature, tag_in};
use child_msg::{FromChild, ToChild, read_to_child, write_from_child};
use secret_buf::ScrubBuf;
use std::alloc::AllocError;

/// Appends the frame of the answer, and says whether the body is a request to a helper.
pub fn put_answer(pairs: &[u8], body: &[u8], out: &mut ScrubBuf) -> Result<bool, AllocError>
    ensures { (hosts : List Host) → ArePairs pairs.now hosts → IfOk result (λ answered.
        IsAnswered answered (answer_of hosts body.now) out.old.live out.new.live) }
{
    match read_to_child(body) {
        Ok(
            ToChild::Sign {
                ask,
                private,
                blob,
                message,
                ..
            },
        ) => put_signature(ask, secret_in(private, blob), message, out)?,
        Ok(
            ToChild::Verify {
                ask,
                host_key,
                signature,
                session,
            },
        ) => put_verdict(ask, is_signed(pairs, host_key, signature, session), out)?,
        Ok(ToChild::Confirm { .. }) => return Ok(false),
        Err(_) => return Ok(false),
    }
    Ok(true)
}

fn put_signature(
    ask: u64,
    secret: Option<&[u8]>,
    message: &[u8],
    out: &mut ScrubBuf,
) -> Result<(), AllocError>
    ensures { OnOk result (out.new.live ≡ out.old.live ++ string (from_child_body
        (signed_with (option_map (λ secret. secret.now) secret.entry) (signing ask message.now)))) }
{
    let Some(secret) = secret else {
        return write_from_child(out, &FromChild::Refused { ask });
    };
    let signature = signature(secret, message);
    write_from_child(
        out,
        &FromChild::Signed {
            ask,
            signature: &signature,
        },
    )
}

// The host key is a stand-in key of the data file, and made the signature.
fn is_signed(pairs: &[u8], host_key: &[u8], signed: &[u8], session: &[u8]) -> bool
    ensures { (hosts : List Host) → ArePairs pairs.now hosts
        → result ≡ is_signed_with (host_secret hosts (tag_of host_key.now))
        (verification signed.now session.now) }
{
    let Some(tag) = tag_in(host_key) else {
        return false;
    };
    let Some(secret) = find_secret(pairs, tag) else {
        return false;
    };
    signed == signature(secret, session).as_slice()
}

fn put_verdict(ask: u64, is_signed: bool, out: &mut ScrubBuf) -> Result<(), AllocError>
    ensures { OnOk result (out.new.live
        ≡ out.old.live ++ string (from_child_body (verdict_of ask is_signed))) }
{
    let verdict = if is_signed {
        FromChild::True { ask }
    } else {
        FromChild::False { ask }
    };
    write_from_child(out, &verdict)
}
