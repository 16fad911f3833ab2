//! Requests and replies, as a log reads them.

ghost use Rattle.std.specs.Prelude.{◌≡◌, IfOk};
ghost use Rattle.std.specs.Option.{option_map};
ghost use Rattle.agent_msg.specs.Reading.{request_of};
ghost use Rattle.log_book.specs.Requests.{asked_by, first_byte, next_in};

use crate::told::Asked;
use agent_msg::{MsgFault, Request, read_request};
use frame_core::{Front, LONGEST_BODY, first};
use plain_lists::Bytes;
use std::alloc::{AllocError, Global};

/// A copy of these bytes.
pub fn copied(alloc: Global, bytes: &[u8]) -> Result<Bytes, AllocError>
    ensures { IfOk result (λ copy. copy ≡ bytes.now) }
{
    Ok(Bytes::from_vec(Vec::from_slice(alloc, bytes)?))
}

/// What the body of a request asks for.
pub fn asked_in(alloc: Global, body: &[u8]) -> Result<Asked, AllocError>
    ensures { IfOk result (λ asked. asked ≡ asked_by (request_of body.now)) }
{
    match read_request(alloc, body) {
        Ok(Request::Sign { blob, message, .. }) => {
            let blob = copied(alloc, blob)?;
            let message = copied(alloc, message)?;
            Ok(Asked::Signing { blob, message })
        }
        Ok(Request::Add { key, comment, .. }) => {
            let blob = copied(alloc, key.blob.as_slice())?;
            let comment = copied(alloc, comment)?;
            Ok(Asked::Adding { blob, comment })
        }
        Ok(_) => Ok(Asked::Other),
        Err(MsgFault::Memory) => Err(AllocError),
        Err(_) => Ok(Asked::Other),
    }
}

/// The body of the message that stands whole in front of these bytes, and the bytes behind it.
#[tactic(auto, unfolding(crate::specs::Requests::next_in))]
pub fn next_in(bytes: &[u8]) -> Option<(&[u8], &[u8])>
    ensures { option_map (λ next. (next.0.now, next.1.now)) result ≡ next_in bytes.now }
{
    match first(bytes, LONGEST_BODY) {
        Front::Whole { body, rest } => Some((body, rest)),
        Front::Bad { .. } => None,
        Front::More => None,
    }
}

/// The first byte of a body, which is the message's number.
pub fn first_byte(body: &[u8]) -> u8
    ensures { result ≡ first_byte body.now }
{
    match body {
        [] => 0,
        [number, ..] => *number,
    }
}
