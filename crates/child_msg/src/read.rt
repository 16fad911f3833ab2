//! Readers of the two directions.

ghost use Rattle.std.specs.Prelude.{◌≡◌, ◌≢◌, [], Ok, Err, IfOk, IsOkAnd, MatchResult, length};
ghost use Rattle.child_msg.specs.ChildFrames.{IsFromChild, IsToChild};
ghost use Rattle.child_msg.specs.Messages.{FromChildMessage, ToChildMessage, from_child_message, to_child_message};
ghost use Rattle.child_msg.specs.Reading.{from_child_of, to_child_of, hello_at, signed_at, sign_at, verify_at, confirm_at, number_at_end};
ghost use Rattle.wire_core.specs.Readings.{IsAnswer};

use crate::fault::ChildFault;
use crate::message::{FromChild, ToChild};
use wire_core::Cursor;

/// The message of a child process that `body` is. Takes no memory.
pub fn read_from_child(body: &[u8]) -> Result<FromChild<'_>, ChildFault>
    ensures found { IfOk result (λ read. IsFromChild body.now (from_child_message read)) }
    ensures only { (message : FromChildMessage) → IsFromChild body.now message
        → IsOkAnd result (λ read. from_child_message read ≡ message) }
    ensures exact { IsAnswer from_child_message result (from_child_of body.now) }
{
    from_child(body)
}

/// The message to a child process that `body` is. Takes no memory.
pub fn read_to_child(body: &[u8]) -> Result<ToChild<'_>, ChildFault>
    ensures found { IfOk result (λ read. IsToChild body.now (to_child_message read)) }
    ensures only { (message : ToChildMessage) → IsToChild body.now message
        → IsOkAnd result (λ read. to_child_message read ≡ message) }
    ensures exact { IsAnswer to_child_message result (to_child_of body.now) }
{
    to_child(body)
}

#[tactic(auto, unfolding(crate::specs::Reading::from_child_of, crate::specs::Reading::from_child_of_kind))]
fn from_child(body: &[u8]) -> Result<FromChild<'_>, ChildFault>
    ensures { IsAnswer from_child_message result (from_child_of body.now) }
{
    let mut cursor = Cursor::new(body);
    match cursor.take_u8()? {
        1 => read_hello(cursor.rest()),
        101 => read_signed(cursor.rest()),
        102 => Ok(FromChild::Refused {
            ask: read_number(cursor.rest())?,
        }),
        103 => Ok(FromChild::True {
            ask: read_number(cursor.rest())?,
        }),
        104 => Ok(FromChild::False {
            ask: read_number(cursor.rest())?,
        }),
        105 => Ok(FromChild::Granted {
            job: read_number(cursor.rest())?,
        }),
        106 => Ok(FromChild::Denied {
            job: read_number(cursor.rest())?,
        }),
        _ => Err(ChildFault::Kind),
    }
}

#[tactic(auto, unfolding(crate::specs::Reading::to_child_of, crate::specs::Reading::to_child_of_kind))]
fn to_child(body: &[u8]) -> Result<ToChild<'_>, ChildFault>
    ensures { IsAnswer to_child_message result (to_child_of body.now) }
{
    let mut cursor = Cursor::new(body);
    match cursor.take_u8()? {
        1 => read_sign(cursor.rest()),
        2 => read_verify(cursor.rest()),
        3 => read_confirm(cursor.rest()),
        _ => Err(ChildFault::Kind),
    }
}

fn end(cursor: &Cursor<'_>) -> Result<(), ChildFault>
    ensures { MatchResult result (λ _. cursor.now ≡ [])
        (λ fault. (fault ≡ ChildFault.Trailing) × (cursor.now ≢ [])) }
{
    if cursor.at_end() {
        Ok(())
    } else {
        Err(ChildFault::Trailing)
    }
}

fn read_number(bytes: &[u8]) -> Result<u64, ChildFault>
    ensures { MatchResult result (λ number. number_at_end bytes.now ≡ Ok number)
        (λ fault. number_at_end bytes.now ≡ Err fault) }
{
    let mut cursor = Cursor::new(bytes);
    let number = cursor.take_u64()?;
    end(&cursor)?;
    Ok(number)
}

fn read_hello(bytes: &[u8]) -> Result<FromChild<'_>, ChildFault>
    ensures { IsAnswer from_child_message result (hello_at bytes.now) }
{
    let mut cursor = Cursor::new(bytes);
    let job = cursor.take_u64()?;
    let ticket = ticket_of(cursor.take_string()?)?;
    end(&cursor)?;
    Ok(FromChild::Hello { job, ticket })
}

fn ticket_of(text: &[u8]) -> Result<[u8; 16], ChildFault>
    ensures { MatchResult result (λ ticket. ticket ≡ text.now)
        (λ fault. (fault ≡ ChildFault.TicketLength) × (length text.now ≢ 16)) }
{
    if text.len() != 16 {
        return Err(ChildFault::TicketLength);
    }
    let mut ticket = [0; 16];
    ticket.copy_from_slice(text);
    Ok(ticket)
}

fn read_signed(bytes: &[u8]) -> Result<FromChild<'_>, ChildFault>
    ensures { IsAnswer from_child_message result (signed_at bytes.now) }
{
    let mut cursor = Cursor::new(bytes);
    let ask = cursor.take_u64()?;
    let signature = cursor.take_string()?;
    end(&cursor)?;
    Ok(FromChild::Signed { ask, signature })
}

fn read_sign(bytes: &[u8]) -> Result<ToChild<'_>, ChildFault>
    ensures { IsAnswer to_child_message result (sign_at bytes.now) }
{
    let mut cursor = Cursor::new(bytes);
    let ask = cursor.take_u64()?;
    let private = cursor.take_string()?;
    let blob = cursor.take_string()?;
    let message = cursor.take_string()?;
    let flags = cursor.take_u32()?;
    end(&cursor)?;
    Ok(ToChild::Sign {
        ask,
        private,
        blob,
        message,
        flags,
    })
}

fn read_verify(bytes: &[u8]) -> Result<ToChild<'_>, ChildFault>
    ensures { IsAnswer to_child_message result (verify_at bytes.now) }
{
    let mut cursor = Cursor::new(bytes);
    let ask = cursor.take_u64()?;
    let host_key = cursor.take_string()?;
    let signature = cursor.take_string()?;
    let session = cursor.take_string()?;
    end(&cursor)?;
    Ok(ToChild::Verify {
        ask,
        host_key,
        signature,
        session,
    })
}

fn read_confirm(bytes: &[u8]) -> Result<ToChild<'_>, ChildFault>
    ensures { IsAnswer to_child_message result (confirm_at bytes.now) }
{
    let mut cursor = Cursor::new(bytes);
    let job = cursor.take_u64()?;
    let prompt = cursor.take_string()?;
    end(&cursor)?;
    Ok(ToChild::Confirm { job, prompt })
}
