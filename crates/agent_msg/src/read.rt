//! The reader of requests.

ghost use Rattle.std.specs.Prelude.{◌≡◌, ◌≢◌, ◌⊎◌, [], Ok, Err, IfOk, IsTrue, MatchResult};
ghost use Rattle.agent_msg.specs.declared.fault.MsgFault.TheVariants.{Trailing, Memory};
ghost use Rattle.agent_msg.specs.Reading.{is_addition, text_at_end, sign_at, bind_at, extension_at, request_of, request_of_number};
ghost use Rattle.agent_msg.specs.Requests.{ClientRequest, client_request, IsRequest};
ghost use Rattle.wire_core.specs.Readings.{IsAnswer, IsAnswerUnless};

use crate::bind::session_bind;
use crate::fault::MsgFault;
use crate::request::Request;
use constraint_rec::{Terms, read_constraints};
use key_blob::read_added;
use std::alloc::Global;
use wire_core::Cursor;

/// The request that `body` is. Only an added key takes memory.
///
/// An extension of any name is read, and so is a request of any number; the agent refuses them.
/// So is a request to bind with any bytes as its host key.
pub fn read_request<'a>(alloc: Global, body: &'a [u8]) -> Result<Request<'a>, MsgFault>
    ensures found { IfOk result (λ read. IsRequest body.now (client_request read)) }
    ensures only { (request : ClientRequest) → IsRequest body.now request
        → MatchResult result (λ read. client_request read ≡ request) (λ fault. fault ≡ Memory) }
    ensures exact { IsAnswerUnless Memory client_request result (request_of body.now) }
    ensures memory { result ≡ Err Memory → IsTrue (is_addition body.now) }
{
    request_in(alloc, body)
}

#[tactic(auto, unfolding(crate::specs::Reading::request_of, crate::specs::Reading::is_addition))]
fn request_in<'a>(alloc: Global, body: &'a [u8]) -> Result<Request<'a>, MsgFault>
    ensures exact { IsAnswerUnless Memory client_request result (request_of body.now) }
    ensures memory { result ≡ Err Memory → IsTrue (is_addition body.now) }
{
    let mut cursor = Cursor::new(body);
    let Ok(number) = cursor.take_u8() else {
        return Err(MsgFault::Empty);
    };
    let contents = cursor.rest();
    match number {
        17 => read_addition(alloc, contents),
        25 => read_constrained(alloc, contents),
        _ => read_plain(number, contents),
    }
}

/// Reads what follows the number of a request that is no addition.
#[tactic(auto, unfolding(crate::specs::Reading::request_of_number))]
fn read_plain(number: u8, bytes: &[u8]) -> Result<Request<'_>, MsgFault>
    requires plain { number ≢ 17 }
    requires unconstrained { number ≢ 25 }
    ensures { IsAnswer client_request result (request_of_number number bytes.now) }
{
    match number {
        11 => {
            end(&Cursor::new(bytes))?;
            Ok(Request::List)
        }
        13 => read_sign(bytes),
        18 => Ok(Request::Remove {
            blob: read_text(bytes)?,
        }),
        19 => {
            end(&Cursor::new(bytes))?;
            Ok(Request::RemoveAll)
        }
        22 => Ok(Request::Lock {
            passphrase: read_text(bytes)?,
        }),
        23 => Ok(Request::Unlock {
            passphrase: read_text(bytes)?,
        }),
        27 => read_extension(bytes),
        _ => Ok(Request::Unsupported { number }),
    }
}

fn end(cursor: &Cursor<'_>) -> Result<(), MsgFault>
    ensures { MatchResult result (λ _. cursor.now ≡ [])
        (λ fault. (fault ≡ Trailing) × (cursor.now ≢ [])) }
{
    if cursor.at_end() {
        Ok(())
    } else {
        Err(MsgFault::Trailing)
    }
}

fn read_text(bytes: &[u8]) -> Result<&[u8], MsgFault>
    ensures { MatchResult result (λ text. text_at_end bytes.now ≡ Ok text.now)
        (λ fault. text_at_end bytes.now ≡ Err fault) }
{
    let mut cursor = Cursor::new(bytes);
    let text = cursor.take_string()?;
    end(&cursor)?;
    Ok(text)
}

fn read_sign(bytes: &[u8]) -> Result<Request<'_>, MsgFault>
    ensures { IsAnswer client_request result (sign_at bytes.now) }
{
    let mut cursor = Cursor::new(bytes);
    let blob = cursor.take_string()?;
    let message = cursor.take_string()?;
    let flags = cursor.take_u32()?;
    end(&cursor)?;
    Ok(Request::Sign {
        blob,
        message,
        flags,
    })
}

fn read_extension(bytes: &[u8]) -> Result<Request<'_>, MsgFault>
    ensures { IsAnswer client_request result (extension_at bytes.now) }
{
    let mut cursor = Cursor::new(bytes);
    let name = cursor.take_string()?;
    if name == session_bind() {
        read_bind(cursor.rest())
    } else {
        Ok(Request::OtherExtension { name })
    }
}

fn read_bind(bytes: &[u8]) -> Result<Request<'_>, MsgFault>
    ensures { IsAnswer client_request result (bind_at bytes.now) }
{
    let mut cursor = Cursor::new(bytes);
    let host_key = cursor.take_string()?;
    let session = cursor.take_string()?;
    let signature = cursor.take_string()?;
    let forwarding = cursor.take_bool()?;
    end(&cursor)?;
    Ok(Request::Bind {
        host_key,
        session,
        signature,
        forwarding,
    })
}

/// Reads what follows the number of an addition without constraints.
#[tactic(auto, unfolding(crate::specs::Reading::request_of_number))]
fn read_addition<'a>(alloc: Global, bytes: &'a [u8]) -> Result<Request<'a>, MsgFault>
    ensures { IsAnswerUnless Memory client_request result (request_of_number 17 bytes.now) }
{
    let mut cursor = Cursor::new(bytes);
    let key = read_added(alloc, &mut cursor)?;
    let comment = cursor.take_string()?;
    end(&cursor)?;
    let terms = Terms::new(alloc);
    Ok(Request::Add {
        key,
        comment,
        terms,
    })
}

/// Reads what follows the number of an addition with constraints.
#[tactic(auto, unfolding(crate::specs::Reading::request_of_number))]
fn read_constrained<'a>(alloc: Global, bytes: &'a [u8]) -> Result<Request<'a>, MsgFault>
    ensures { IsAnswerUnless Memory client_request result (request_of_number 25 bytes.now) }
{
    let mut cursor = Cursor::new(bytes);
    let key = read_added(alloc, &mut cursor)?;
    let comment = cursor.take_string()?;
    let terms = read_constraints(alloc, &mut cursor)?;
    Ok(Request::Add {
        key,
        comment,
        terms,
    })
}
