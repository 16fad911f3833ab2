//! What becomes of a client's request.

ghost use Rattle.std.specs.Prelude.{◌≡◌, ◌&&◌, IfOk, Ok};
ghost use Rattle.agent_msg.specs.Requests.{client_request};
ghost use Rattle.key_purposes.specs.Messages.{may_be_for};
ghost use Rattle.filter_model.specs.Looking.{fate_of, is_listed, waits_by, waits_for};
ghost use Rattle.filter_core.specs.Slots.{listed_of, purposes_of};

use crate::listed::Listed;
use agent_msg::{MsgFault, Request, read_request};
use filter_model::Waits;
use key_purposes::{Purpose, suit};
use std::alloc::{AllocError, Global};

// Whether no purposes are given, or they suit the message, signed with these flags.
fn may_be_for(purposes: &Option<Vec<Purpose>>, message: &[u8], blob: &[u8], flags: u32) -> bool
    ensures { result ≡ may_be_for (purposes_of purposes.now) message.now blob.now flags }
{
    match purposes {
        Some(purposes) => suit(purposes, message, blob, flags),
        None => true,
    }
}

// Whether the key of this blob is listed, and its purposes suit the message, where there are any.
fn may_sign(listed: &Listed, blob: &[u8], message: &[u8], flags: u32) -> bool
    ensures { result ≡ (is_listed blob.now listed.now.blobs
        && may_be_for (purposes_of listed.now.purposes) message.now blob.now flags) }
{
    listed.blobs.has(blob) && may_be_for(&listed.purposes, message, blob, flags)
}

/// What a pair waits for after this body: nothing where the request is refused. Only a list, a signature by a key that
/// is listed, for one of its purposes, and a bind pass.
pub fn fate_of(alloc: Global, listed: &Listed, body: &[u8]) -> Result<Waits, AllocError>
    ensures { IfOk result (λ waits. waits ≡ fate_of (listed_of listed.now) body.now) }
{
    match read_request(alloc, body) {
        Ok(request) => Ok(waits_for(listed, request)),
        Err(MsgFault::Memory) => Err(AllocError),
        Err(_) => Ok(Waits::Nothing),
    }
}

// What a pair waits for after this request.
fn waits_for(listed: &Listed, request: Request<'_>) -> Waits
    ensures { result ≡ waits_for (listed_of listed.now) (Ok (client_request request.entry)) }
{
    match request {
        Request::List => Waits::OnList,
        Request::Sign {
            blob,
            message,
            flags,
        } => waits_by(may_sign(listed, blob, message, flags)),
        Request::Bind { .. } => Waits::OnBind,
        _ => Waits::Nothing,
    }
}

// A reply, where the key may sign.
fn waits_by(may_sign: bool) -> Waits
    ensures { result ≡ waits_by may_sign }
{
    if may_sign {
        Waits::OnReply
    } else {
        Waits::Nothing
    }
}
