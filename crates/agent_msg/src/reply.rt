//! Writers of replies. Each makes room for what it appends first.

ghost use Rattle.std.specs.Prelude.{◌≡◌, ◌+◌, ◌^◌, ◌<◌, ◌≤◌, ◌++◌, IsOk, OnErr, OnOk, length};
ghost use Rattle.wire_text.specs.Bounds.{longest_body};
ghost use Rattle.secret_buf.specs.Buffers.{KeepsRoom};
ghost use Rattle.agent_msg.specs.Replies.{status, entry, list_head, sign_response};

use frame_core::{push_string, push_u32};
use secret_buf::ScrubBuf;
use std::alloc::AllocError;

/// Appends SUCCESS or FAILURE. Takes no memory.
#[tactic(auto, unfolding(wire_text::specs::Wire::string, wire_text::specs::Wire::uint32))]
pub fn put_status(out: &mut ScrubBuf, success: bool)
    requires { 5 ≤ out.old.spare }
    ensures live { out.new.live ≡ out.old.live ++ status success }
    ensures spare { out.new.spare + 5 ≡ out.old.spare }
    ensures keeps_room { KeepsRoom out.old out.new }
{
    let number = if success { 6 } else { 5 };
    out.push_reserved(&[0, 0, 0, 1, number]);
}

/// Appends the front of a list of identities: the length of its body, its number and the count.
///
/// Makes room for the whole list, so that its entries take no memory.
pub fn put_list_head(out: &mut ScrubBuf, body: u32, count: u32) -> Result<(), AllocError>
    requires { body ≤ longest_body }
    ensures ok { OnOk result (out.new.live ≡ out.old.live ++ list_head body count) }
    ensures room { OnOk result (body ≤ out.new.spare + 5) }
    ensures err { OnErr result (out.new ≡ out.old) }
    ensures enough { 9 ≤ out.old.spare → 4 + body ≤ out.old.spare → IsOk result }
    ensures keeps_room { KeepsRoom out.old out.new }
{
    out.reserve(4 + body.max(5) as usize)?;
    push_u32(out, body);
    out.push_reserved(&[12]);
    push_u32(out, count);
    Ok(())
}

/// Appends an identity of a list: its public key blob and its comment.
pub fn put_list_entry(out: &mut ScrubBuf, blob: &[u8], comment: &[u8]) -> Result<(), AllocError>
    requires blob_fits { length blob.now < 2 ^ 32 }
    requires comment_fits { length comment.now < 2 ^ 32 }
    ensures ok { OnOk result (out.new.live ≡ out.old.live ++ entry (blob.now, comment.now)) }
    ensures err { OnErr result (out.new ≡ out.old) }
    ensures enough { 8 + length blob.now + length comment.now ≤ out.old.spare → IsOk result }
    ensures keeps_room { KeepsRoom out.old out.new }
{
    out.reserve(8 + blob.len() + comment.len())?;
    push_string(out, blob);
    push_string(out, comment);
    Ok(())
}

/// Appends SIGN_RESPONSE.
#[tactic(auto, using(crate::proofs::ReplyLemmas::appended), unfolding(wire_text::specs::Wire::string))]
pub fn put_signature(out: &mut ScrubBuf, signature: &[u8]) -> Result<(), AllocError>
    requires { 5 + length signature.now ≤ longest_body }
    ensures ok { OnOk result (out.new.live ≡ out.old.live ++ sign_response signature.now) }
    ensures err { OnErr result (out.new ≡ out.old) }
    ensures enough { 9 + length signature.now ≤ out.old.spare → IsOk result }
    ensures keeps_room { KeepsRoom out.old out.new }
{
    out.reserve(9 + signature.len())?;
    push_u32(out, 5 + signature.len() as u32);
    out.push_reserved(&[14]);
    push_string(out, signature);
    Ok(())
}
