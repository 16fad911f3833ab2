//! The reader of replies.

ghost use Rattle.std.specs.Prelude.{◌≡◌, ◌≢◌, ◌⊎◌, ℕ, List, [], IfOk, MatchResult, Ok, Err, map};
ghost use Rattle.agent_msg.specs.declared.agent_reply.ReplyFault.TheVariants.{Trailing, Memory};
ghost use Rattle.agent_msg.specs.ReplyReading.{AgentReply, Failure, Success, Identities, Signature, agent_reply, lent, reply_body, Fits, IsReply, entry_at, entries_at, identities_at, signature_at, reply_of};
ghost use Rattle.agent_msg.specs.Replies.{failure, success, identities_answer, sign_response};
ghost use Rattle.wire_text.specs.Wire.{string};
ghost use Rattle.wire_core.specs.Readings.{IsAnswer, IsAnswerUnless};

use crate::agent_reply::{Reply, ReplyFault};
use std::alloc::Global;
use wire_core::Cursor;

/// The reply that `body` is. Only a list of identities takes memory.
pub fn read_reply<'a>(alloc: Global, body: &'a [u8]) -> Result<Reply<'a>, ReplyFault>
    ensures found { IfOk result (λ read. IsReply body.now (agent_reply read)) }
    ensures only { (reply : AgentReply) → IsReply body.now reply
        → MatchResult result (λ read. agent_reply read ≡ reply) (λ fault. fault ≡ Memory) }
    ensures exact { IsAnswerUnless Memory agent_reply result (reply_of body.now) }
{
    reply_in(alloc, body)
}

#[tactic(auto, unfolding(crate::specs::ReplyReading::reply_of))]
fn reply_in<'a>(alloc: Global, body: &'a [u8]) -> Result<Reply<'a>, ReplyFault>
    ensures { IsAnswerUnless Memory agent_reply result (reply_of body.now) }
{
    let mut cursor = Cursor::new(body);
    let Ok(number) = cursor.take_u8() else {
        return Err(ReplyFault::Empty);
    };
    match number {
        5 => {
            end(&cursor)?;
            Ok(Reply::Failure)
        }
        6 => {
            end(&cursor)?;
            Ok(Reply::Success)
        }
        12 => read_identities(alloc, cursor.rest()),
        14 => read_signature(cursor.rest()),
        _ => Err(ReplyFault::Number),
    }
}

fn end(cursor: &Cursor<'_>) -> Result<(), ReplyFault>
    ensures { MatchResult result (λ _. cursor.now ≡ [])
        (λ fault. (fault ≡ Trailing) × (cursor.now ≢ [])) }
{
    if cursor.at_end() {
        Ok(())
    } else {
        Err(ReplyFault::Trailing)
    }
}

fn read_signature(bytes: &[u8]) -> Result<Reply<'_>, ReplyFault>
    ensures { IsAnswer agent_reply result (signature_at bytes.now) }
{
    let mut cursor = Cursor::new(bytes);
    let signature = cursor.take_string()?;
    end(&cursor)?;
    Ok(Reply::Signature(signature))
}

/// Takes a public key blob and its comment.
///
/// A refused call may have moved the cursor.
fn take_entry<'a>(from: &mut Cursor<'a>) -> Result<(&'a [u8], &'a [u8]), ReplyFault>
    ensures { MatchResult result (λ identity. entry_at from.old ≡ Ok (lent identity, from.new))
        (λ fault. entry_at from.old ≡ Err fault) }
{
    let blob = from.take_string()?;
    let comment = from.take_string()?;
    Ok((blob, comment))
}

/// Takes so many identities.
///
/// A refused call may have moved the cursor.
fn take_entries<'a>(
    alloc: Global,
    from: &mut Cursor<'a>,
    count: u32,
) -> Result<Vec<(&'a [u8], &'a [u8])>, ReplyFault>
    ensures { MatchResult result
        (λ identities. entries_at count from.old ≡ Ok (map lent identities.items, from.new))
        (λ fault. (fault ≡ Memory) ⊎ (entries_at count from.old ≡ Err fault)) }
{
    let mut identities = Vec::new(alloc);
    for _ in 0..count {
        identities.push(take_entry(from)?)?;
    }
    Ok(identities)
}

fn read_identities<'a>(alloc: Global, bytes: &'a [u8]) -> Result<Reply<'a>, ReplyFault>
    ensures { IsAnswerUnless Memory agent_reply result (identities_at bytes.now) }
{
    let mut cursor = Cursor::new(bytes);
    let count = cursor.take_u32()?;
    let identities = take_entries(alloc, &mut cursor, count)?;
    end(&cursor)?;
    Ok(Reply::Identities(identities))
}

/// The bodies of replies are those of the frames that the writers append, and each is read back.
pub fn a_written_reply_is_read_back()
    ensures read { (reply : AgentReply) → Fits reply → reply_of (reply_body reply) ≡ Ok reply }
    ensures failure { string (reply_body Failure) ≡ failure }
    ensures success { string (reply_body Success) ≡ success }
    ensures identities { (identities : List (List ℕ × List ℕ))
        → string (reply_body (Identities identities)) ≡ identities_answer identities }
    ensures signature { (signature : List ℕ)
        → string (reply_body (Signature signature)) ≡ sign_response signature }
{}
