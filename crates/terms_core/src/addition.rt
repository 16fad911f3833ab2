//! The frame of a request, behind whose constraints terms stand where it adds a key.

ghost use Rattle.std.specs.Prelude.{◌≡◌, ◌+◌, ◌≤◌, ◌++◌, ◌∷◌, [], length, OnOk, MatchResult, Err};
ghost use Rattle.agent_msg.specs.Reading.{request_of};
ghost use Rattle.agent_msg.specs.declared.fault.MsgFault.TheVariants as why;
ghost use Rattle.terms_core.specs.Additions.{Refuses, adds, refusal, repeat_by, repeat_in, too_long, with_terms};
ghost use Rattle.terms_core.specs.declared.fault.BodyFault.TheVariants.{Memory};
ghost use Rattle.wire_text.specs.Bounds.{longest_body};
ghost use Rattle.wire_text.specs.Wire.{string};

use crate::fault::BodyFault;
use agent_msg::{MsgFault, read_request};
use constraint_rec::TermFault;
use frame_core::{LONGEST_BODY, push_u32, put_frame};
use secret_buf::ScrubBuf;
use std::alloc::Global;

/// Puts the frame of what the request becomes into an empty buffer.
pub fn put_request(
    alloc: Global,
    out: &mut ScrubBuf,
    terms: &[u8],
    body: &[u8],
) -> Result<(), BodyFault>
    requires empty { out.old.live ≡ [] }
    requires terms { length terms.now ≤ longest_body }
    requires body { length body.now ≤ longest_body }
    ensures frame { OnOk result (out.new.live ≡ string (with_terms terms.now body.now)) }
    ensures refused { Refuses result (refusal terms.now body.now) }
{
    match put_becoming(out, terms, body) {
        Ok(()) => refuse_repeat(alloc, &out.live()[4..]),
        Err(fault) => Err(fault),
    }
}

// Refuses what the agent would refuse because a constraint of one kind comes again.
fn refuse_repeat(alloc: Global, body: &[u8]) -> Result<(), BodyFault>
    ensures { Refuses result (repeat_in (request_of body.now)) }
{
    let fault = match read_request(alloc, body) {
        Ok(_) => return Ok(()),
        Err(fault) => fault,
    };
    refuse_by(fault)
}

// Whatever else the agent would refuse it is to refuse itself.
fn refuse_by(fault: MsgFault) -> Result<(), BodyFault>
    ensures refused { Refuses result (repeat_by fault) }
    ensures memory { fault ≡ why.Memory → result ≡ Err Memory }
{
    match fault {
        MsgFault::Terms(TermFault::Twice) => Err(BodyFault::Twice),
        MsgFault::Memory => Err(BodyFault::Memory),
        _ => Ok(()),
    }
}

// Appends the frame of what the request becomes, unless that is too long.
fn put_becoming(out: &mut ScrubBuf, terms: &[u8], body: &[u8]) -> Result<(), BodyFault>
    requires terms { length terms.now ≤ longest_body }
    requires body { length body.now ≤ longest_body }
    ensures frame { OnOk result (out.new.live ≡ out.old.live ++ string (with_terms terms.now body.now)) }
    ensures refused { Refuses result (too_long terms.now body.now) }
{
    match body.split_first() {
        Some((number, fields)) if adds(*number) => put_addition(out, terms, fields),
        _ => Ok(put_frame(out, body)?),
    }
}

// A request with this number adds a key.
fn adds(number: u8) -> bool
    ensures { result ≡ adds number }
{
    number == 17 || number == 25
}

// Appends the frame of an addition with constraints, which has these fields and then the terms.
#[tactic(auto, unfolding(wire_text::specs::Wire::string))]
fn put_addition(out: &mut ScrubBuf, terms: &[u8], fields: &[u8]) -> Result<(), BodyFault>
    requires terms { length terms.now ≤ longest_body }
    requires fields { length fields.now ≤ longest_body }
    ensures frame { OnOk result
        (out.new.live ≡ out.old.live ++ string (25 ∷ (fields.now ++ terms.now))) }
    ensures refused { Refuses result (too_long terms.now (25 ∷ fields.now)) }
{
    let len = 1 + fields.len() + terms.len();
    if len > LONGEST_BODY as usize {
        return Err(BodyFault::TooLong);
    }
    out.reserve(4 + len)?;
    push_u32(out, len as u32);
    out.push_reserved(&[25]);
    out.push_reserved(fields);
    out.push_reserved(terms);
    Ok(())
}
