//! What the helper behind is asked, and which of its replies counts.

ghost use Rattle.std.specs.Prelude.{◌≡◌, ◌≤◌, ◌++◌, if◌then◌else◌, ℕ, List, Option, Some, length, IfSome, MatchResult, OnOk, option_map};
ghost use Rattle.child_msg.specs.ChildFrames.{from_child_body, from_child_length};
ghost use Rattle.child_msg.specs.Messages.{from_child_message};
ghost use Rattle.helper_core.specs.Routes.{counted, is_to, reply_message, signed_under, verdict_under, given_up_by};
ghost use Rattle.helper_core.specs.declared.asked.Asked.TheVariants.{Signature, Verdict};
ghost use Rattle.helper_core.specs.Serving.{IsHandedOn, IsMaybeHandedOn};
ghost use Rattle.wire_text.specs.Bounds.{longest_body};
ghost use Rattle.wire_text.specs.Wire.{string};
ghost use Rattle.world_ports.specs.Causes.{next_count};

use crate::asked::Asked;
use crate::behind::HelperBehind;
use child_msg::{FromChild, read_from_child, write_from_child};
use secret_buf::ScrubBuf;
use std::alloc::{AllocError, Global};

/// Hands a request on, and appends the frame of the answer: that of the reply, where it counts, and
/// else REFUSED or FALSE. A helper whose reply is none to what it was asked is given up, and no other.
pub fn hand_on<B: HelperBehind>(
    alloc: Global,
    asked: Asked,
    request: &[u8],
    behind: &mut B,
    out: &mut ScrubBuf,
) -> Result<(), AllocError>
    ensures { MatchResult result
        (λ _. IsHandedOn asked request.now (B.seen behind.old) (B.seen behind.new)
        (B.given_up behind.old) (B.given_up behind.new) out.old.live out.new.live)
        (λ _. IsMaybeHandedOn asked request.now (B.seen behind.old) (B.seen behind.new)
        (B.given_up behind.old) (B.given_up behind.new)) }
{
    let reply = behind.ask(alloc, request)?;
    match &reply {
        Some(body) => take(asked, body.live(), behind, out),
        None => put(&answer_by(asked, None), out),
    }
}

// Appends the frame of the answer that a reply gives, and parts with a helper whose reply is none to
// what it was asked.
fn take<B: HelperBehind>(
    asked: Asked,
    body: &[u8],
    behind: &mut B,
    out: &mut ScrubBuf,
) -> Result<(), AllocError>
    requires { length body.now ≤ longest_body }
    ensures same { B.seen behind.new ≡ B.seen behind.old }
    ensures parted { B.given_up behind.new ≡ given_up_by asked (Some body.now) (B.given_up behind.old) }
    ensures frame { OnOk result
        (out.new.live ≡ out.old.live ++ string (from_child_body (counted asked (Some body.now)))) }
{
    let taken = answer_by(asked, message_of(body));
    mind(taken.is_to, behind);
    put(&taken, out)
}

// Parts with a helper whose message is no reply to what it was asked.
fn mind<B: HelperBehind>(is_to: bool, behind: &mut B)
    ensures same { B.seen behind.new ≡ B.seen behind.old }
    ensures parted { B.given_up behind.new
        ≡ (if is_to then B.given_up behind.old else next_count (B.given_up behind.old)) }
{
    if !is_to {
        behind.give_up();
    }
}

// The message of a reply, where it is one.
fn message_of(body: &[u8]) -> Option<FromChild<'_>>
    requires { length body.now ≤ longest_body }
    ensures is { option_map from_child_message result ≡ reply_message (Some body.now) }
    ensures small { IfSome result (λ message. from_child_length (from_child_message message) ≤ longest_body) }
{
    match read_from_child(body) {
        Ok(message) => Some(message),
        Err(_) => None,
    }
}

// The answer that a message gives, and whether the message is a reply to what was asked.
#[derive(Clone, Copy)]
struct Taken<'a> {
    answer: FromChild<'a>,
    is_to: bool,
}

// Appends the frame of the answer.
fn put(taken: &Taken<'_>, out: &mut ScrubBuf) -> Result<(), AllocError>
    requires { from_child_length (from_child_message taken.now.answer) ≤ longest_body }
    ensures { OnOk result
        (out.new.live ≡ out.old.live ++ string (from_child_body (from_child_message taken.now.answer))) }
{
    write_from_child(out, &taken.answer)
}

// Takes a message for an answer.
fn answer_by(asked: Asked, message: Option<FromChild<'_>>) -> Taken<'_>
    requires { IfSome message (λ message. from_child_length (from_child_message message) ≤ longest_body) }
    ensures answer { (reply : Option (List ℕ)) → reply_message reply ≡ option_map from_child_message message.entry
        → from_child_message result.answer ≡ counted asked reply }
    ensures is_to { result.is_to ≡ is_to asked (option_map from_child_message message.entry) }
    ensures small { from_child_length (from_child_message result.answer) ≤ longest_body }
{
    match asked {
        Asked::Signature { ask } => signed_under(ask, message),
        Asked::Verdict { ask } => verdict_under(ask, message),
    }
}

fn signed_under(ask: u64, message: Option<FromChild<'_>>) -> Taken<'_>
    requires { IfSome message (λ message. from_child_length (from_child_message message) ≤ longest_body) }
    ensures answer { from_child_message result.answer
        ≡ signed_under ask (option_map from_child_message message.entry) }
    ensures is_to { result.is_to ≡ is_to (Signature ask) (option_map from_child_message message.entry) }
    ensures small { from_child_length (from_child_message result.answer) ≤ longest_body }
{
    match message {
        Some(
            FromChild::Signed {
                ask: number,
                signature,
            },
        ) if number == ask => Taken {
            answer: FromChild::Signed { ask, signature },
            is_to: true,
        },
        Some(FromChild::Refused { ask: number }) => Taken {
            answer: FromChild::Refused { ask },
            is_to: number == ask,
        },
        _ => Taken {
            answer: FromChild::Refused { ask },
            is_to: false,
        },
    }
}

fn verdict_under(ask: u64, message: Option<FromChild<'_>>) -> Taken<'_>
    ensures answer { from_child_message result.answer
        ≡ verdict_under ask (option_map from_child_message message.entry) }
    ensures is_to { result.is_to ≡ is_to (Verdict ask) (option_map from_child_message message.entry) }
    ensures small { from_child_length (from_child_message result.answer) ≤ longest_body }
{
    match message {
        Some(FromChild::True { ask: number }) if number == ask => Taken {
            answer: FromChild::True { ask },
            is_to: true,
        },
        Some(FromChild::False { ask: number }) => Taken {
            answer: FromChild::False { ask },
            is_to: number == ask,
        },
        _ => Taken {
            answer: FromChild::False { ask },
            is_to: false,
        },
    }
}
