//! Writers of the two directions. Each makes room for the whole frame first.

ghost use Rattle.std.specs.Prelude.{◌≡◌, ◌+◌, ◌≤◌, ◌++◌, IsOk, OnErr, OnOk, length};
ghost use Rattle.secret_buf.specs.Buffers.{KeepsRoom};
ghost use Rattle.wire_text.specs.Bounds.{longest_body, longest_to_child};
ghost use Rattle.wire_text.specs.Wire.{string};
ghost use Rattle.child_msg.specs.ChildFrames.{from_child_body, to_child_body, from_child_length, to_child_length, FromChildFits, ToChildFits};
ghost use Rattle.child_msg.specs.Messages.{from_child_message, to_child_message};
ghost use Rattle.child_msg.specs.Writing.{IsFromChildWriting, IsToChildWriting};

use crate::fields::push_head;
use crate::message::{FromChild, ToChild};
use frame_core::{push_string, push_u32};
use secret_buf::ScrubBuf;
use std::alloc::AllocError;

/// The longest body of a message to a child process, in bytes (ours).
pub const LONGEST_TO_CHILD: u32 = 1_048_576;

/// Appends the frame of what a child process sends.
#[tactic(auto, using(crate::proofs::WriteLemmas::written), unfolding(wire_text::specs::Wire::string))]
pub fn write_from_child(out: &mut ScrubBuf, message: &FromChild<'_>) -> Result<(), AllocError>
    requires { from_child_length (from_child_message message.now) ≤ longest_body }
    ensures ok { OnOk result
        (out.new.live ≡ out.old.live ++ string (from_child_body (from_child_message message.now))) }
    ensures err { OnErr result (out.new ≡ out.old) }
    ensures enough { 4 + from_child_length (from_child_message message.now) ≤ out.old.spare
        → IsOk result }
    ensures written { OnOk result (IsFromChildWriting (from_child_message message.now)) }
    ensures keeps_room { KeepsRoom out.old out.new }
{
    let body_len = from_child_len(message);
    out.reserve(4 + body_len)?;
    push_u32(out, body_len as u32);
    push_from_child(out, message);
    Ok(())
}

/// Appends the frame of what a child process is sent.
///
/// The private key in a SIGN frame goes straight into `out`, which wipes it.
#[tactic(auto, using(crate::proofs::WriteLemmas::written), unfolding(wire_text::specs::Wire::string))]
pub fn write_to_child(out: &mut ScrubBuf, message: &ToChild<'_>) -> Result<(), AllocError>
    requires { to_child_length (to_child_message message.now) ≤ longest_to_child }
    ensures ok { OnOk result
        (out.new.live ≡ out.old.live ++ string (to_child_body (to_child_message message.now))) }
    ensures err { OnErr result (out.new ≡ out.old) }
    ensures enough { 4 + to_child_length (to_child_message message.now) ≤ out.old.spare
        → IsOk result }
    ensures written { OnOk result (IsToChildWriting (to_child_message message.now)) }
    ensures keeps_room { KeepsRoom out.old out.new }
{
    let body_len = to_child_len(message);
    out.reserve(4 + body_len)?;
    push_u32(out, body_len as u32);
    push_to_child(out, message);
    Ok(())
}

fn from_child_len(message: &FromChild<'_>) -> usize
    requires { from_child_length (from_child_message message.now) ≤ longest_body }
    ensures { result ≡ from_child_length (from_child_message message.now) }
{
    match message {
        FromChild::Hello { ticket, .. } => 13 + ticket.as_slice().len(),
        FromChild::Signed { signature, .. } => 13 + signature.len(),
        _ => 9,
    }
}

fn to_child_len(message: &ToChild<'_>) -> usize
    requires { to_child_length (to_child_message message.now) ≤ longest_to_child }
    ensures { result ≡ to_child_length (to_child_message message.now) }
{
    match message {
        ToChild::Sign {
            private,
            blob,
            message,
            ..
        } => 25 + private.len() + blob.len() + message.len(),
        ToChild::Verify {
            host_key,
            signature,
            session,
            ..
        } => 21 + host_key.len() + signature.len() + session.len(),
        ToChild::Confirm { prompt, .. } => 13 + prompt.len(),
    }
}

#[tactic(auto, using(crate::proofs::WriteLemmas::written))]
fn push_from_child(out: &mut ScrubBuf, message: &FromChild<'_>)
    requires small { from_child_length (from_child_message message.now) ≤ longest_body }
    requires room { from_child_length (from_child_message message.now) ≤ out.old.spare }
    ensures live { out.new.live ≡ out.old.live ++ from_child_body (from_child_message message.now) }
    ensures fits { FromChildFits (from_child_message message.now) }
    ensures keeps_room { KeepsRoom out.old out.new }
{
    match message {
        FromChild::Hello { job, ticket } => {
            push_head(out, 1, *job);
            push_string(out, ticket);
        }
        FromChild::Signed { ask, signature } => {
            push_head(out, 101, *ask);
            push_string(out, signature);
        }
        FromChild::Refused { ask } => push_head(out, 102, *ask),
        FromChild::True { ask } => push_head(out, 103, *ask),
        FromChild::False { ask } => push_head(out, 104, *ask),
        FromChild::Granted { job } => push_head(out, 105, *job),
        FromChild::Denied { job } => push_head(out, 106, *job),
    }
}

#[tactic(auto, using(crate::proofs::WriteLemmas::written))]
fn push_to_child(out: &mut ScrubBuf, message: &ToChild<'_>)
    requires small { to_child_length (to_child_message message.now) ≤ longest_to_child }
    requires room { to_child_length (to_child_message message.now) ≤ out.old.spare }
    ensures live { out.new.live ≡ out.old.live ++ to_child_body (to_child_message message.now) }
    ensures fits { ToChildFits (to_child_message message.now) }
    ensures keeps_room { KeepsRoom out.old out.new }
{
    match message {
        ToChild::Sign {
            ask,
            private,
            blob,
            message,
            flags,
        } => {
            push_head(out, 1, *ask);
            push_string(out, private);
            push_string(out, blob);
            push_string(out, message);
            push_u32(out, *flags);
        }
        ToChild::Verify {
            ask,
            host_key,
            signature,
            session,
        } => {
            push_head(out, 2, *ask);
            push_string(out, host_key);
            push_string(out, signature);
            push_string(out, session);
        }
        ToChild::Confirm { job, prompt } => {
            push_head(out, 3, *job);
            push_string(out, prompt);
        }
    }
}
