//! The list of keys, cut to those that are listed.

ghost use Rattle.std.specs.Prelude.{◌≡◌, ℕ, ◌+◌, ◌≤◌, ◌++◌, ◌&&◌, Bool, IfOk, IsTrue, List, OnOk, Some, length, map, is_some, Ok};
ghost use Rattle.wire_core.specs.Fields.{uint32_at};
ghost use Rattle.wire_text.specs.Frames.{Whole, front, front_body};
ghost use Rattle.wire_text.specs.Wire.{string};
ghost use Rattle.wire_text.specs.Bounds.{longest_body};
ghost use Rattle.agent_msg.specs.Replies.{entries, entries_length, entry, identities_answer};
ghost use Rattle.agent_msg.specs.ReplyReading.{agent_reply, entry_at, lent, reply_of};
ghost use Rattle.filter_model.specs.Looking.{cut_reply, only_listed};
ghost use Rattle.filter_core.specs.Cuts.{FitsBody, are_listed_at, is_list_listed, is_listed_then};
ghost use Rattle.filter_core.specs.Slots.{owes_reply, taken_for};

use crate::blobs::Blobs;
use crate::buffers::{Buffers, hand_on};
use agent_msg::{Reply, ReplyFault, put_list_entry, put_list_head, read_reply};
use secret_buf::ScrubBuf;
use std::alloc::{AllocError, Global};
use wire_core::Cursor;

// Keeps those of the identities whose blobs are listed.
fn keep_listed(identities: &mut Vec<(&[u8], &[u8])>, listed: &Blobs)
    ensures { map lent identities.new.items ≡ only_listed listed.now (map lent identities.old.items) }
{
    identities.retain(|identity| listed.has(identity.0));
}

// The length of some entries with one more.
fn with_entry(len: usize, identity: &(&[u8], &[u8])) -> usize
    requires { len + (8 + length identity.now.0.now + length identity.now.1.now) ≤ longest_body }
    ensures { result ≡ len + (8 + length identity.now.0.now + length identity.now.1.now) }
{
    len + (8 + identity.0.len() + identity.1.len())
}

// How many bytes the entries of these identities take.
fn entries_len(identities: &[(&[u8], &[u8])]) -> usize
    requires { entries_length (map lent identities.now) ≤ longest_body }
    ensures { result ≡ entries_length (map lent identities.now) }
{
    let mut len = 0;
    for identity in identities {
        len = with_entry(len, identity);
    }
    len
}

// Appends an entry.
fn put_entry(out: &mut ScrubBuf, identity: &(&[u8], &[u8])) -> Result<(), AllocError>
    requires { 8 + length identity.now.0.now + length identity.now.1.now ≤ longest_body }
    ensures { OnOk result (out.new.live ≡ out.old.live ++ entry (lent identity.now)) }
{
    put_list_entry(out, identity.0, identity.1)
}

// Appends the entries of these identities.
fn put_entries(out: &mut ScrubBuf, identities: &[(&[u8], &[u8])]) -> Result<(), AllocError>
    requires { entries_length (map lent identities.now) ≤ longest_body }
    ensures { OnOk result (out.new.live ≡ out.old.live ++ entries (map lent identities.now)) }
{
    for identity in identities {
        put_entry(out, identity)?;
    }
    Ok(())
}

/// Appends the list of these identities.
pub fn put_list(out: &mut ScrubBuf, identities: &[(&[u8], &[u8])]) -> Result<(), AllocError>
    requires { 5 + entries_length (map lent identities.now) ≤ longest_body }
    ensures { OnOk result (out.new.live ≡ out.old.live ++ identities_answer (map lent identities.now)) }
{
    let entries = entries_len(identities);
    let body = 5 + entries;
    let count = identities.len();
    out.reserve(4 + body)?;
    put_list_head(out, body as u32, count as u32)?;
    put_entries(out, identities)?;
    Ok(())
}

// Takes the identity at the front; tells whether there is one, and its key is listed.
#[tactic(auto, using(crate::proofs::CutLemmas::entry_there, crate::proofs::CutLemmas::no_blob, crate::proofs::CutLemmas::no_comment))]
fn next_is_listed(listed: &Blobs, from: &mut Cursor<'_>) -> bool
    ensures { (later : List ℕ → Bool)
        → is_listed_then listed.now later (entry_at from.old) ≡ (result && later from.new) }
{
    match from.take_string() {
        Ok(blob) => match from.take_string() {
            Ok(_) => listed.has(blob),
            Err(_) => false,
        },
        Err(_) => false,
    }
}

// Whether so many identities stand there and nothing behind them, each of whose keys is listed.
fn are_listed(listed: &Blobs, from: &mut Cursor<'_>, count: u32) -> bool
    ensures { result ≡ are_listed_at count listed.now from.old }
{
    'entries: for _ in 0..count {
        if !next_is_listed(listed, from) {
            return false;
        }
    }
    from.at_end()
}

// Whether a count stands there and so many identities behind it, each of whose keys is listed.
fn counts_listed(listed: &Blobs, from: &mut Cursor<'_>) -> bool
    ensures { result ≡ is_list_listed listed.now (uint32_at from.old) }
{
    match from.take_u32() {
        Ok(count) => are_listed(listed, from, count),
        Err(_) => false,
    }
}

// Whether the answer is a list of nothing but listed keys. Takes no memory.
fn lists_listed(listed: &Blobs, answer: &[u8]) -> bool
    ensures { IsTrue result → cut_reply listed.now (reply_of answer.now) ≡ Some (string answer.now) }
{
    let mut cursor = Cursor::new(answer);
    match cursor.take_u8() {
        Ok(number) => number == 12 && counts_listed(listed, &mut cursor),
        Err(_) => false,
    }
}

/// Takes the answer to the client's list, and owes the client what it makes, cut to what is listed; tells whether it
/// makes anything.
#[tactic(auto, using(crate::proofs::CutLemmas::taken_none, crate::proofs::CutLemmas::taken_some))]
pub fn hand_list_on(
    alloc: Global,
    from: &mut Buffers,
    client: &mut Buffers,
    listed: &Blobs,
    body_len: u32,
) -> Result<bool, AllocError>
    requires { front longest_body from.old.heard ≡ Whole body_len }
    ensures is_one { IfOk result (λ is_one. is_one
        ≡ is_some (cut_reply listed.now (reply_of (front_body body_len from.old.heard)))) }
    ensures taken { OnOk result (from.new
        ≡ taken_for (cut_reply listed.now (reply_of (front_body body_len from.old.heard))) body_len from.old) }
    ensures owed { OnOk result (client.new
        ≡ owes_reply (cut_reply listed.now (reply_of (front_body body_len from.old.heard))) client.old) }
{
    if lists_listed(listed, from.body(body_len)) {
        hand_on(from, client, body_len)?;
        return Ok(true);
    }
    if !owe_cut(alloc, client, listed, from.body(body_len))? {
        return Ok(false);
    }
    from.take(body_len);
    Ok(true)
}

/// Owes the client the answer to its list, cut to what is listed; tells whether the answer is one.
pub fn owe_cut(
    alloc: Global,
    client: &mut Buffers,
    listed: &Blobs,
    answer: &[u8],
) -> Result<bool, AllocError>
    requires { length answer.now ≤ longest_body }
    ensures is_one { IfOk result (λ is_one. is_one
        ≡ is_some (cut_reply listed.now (reply_of answer.now))) }
    ensures owed { OnOk result (client.new
        ≡ owes_reply (cut_reply listed.now (reply_of answer.now)) client.old) }
{
    match read_reply(alloc, answer) {
        Ok(reply) => owe_read(client, listed, reply),
        Err(ReplyFault::Memory) => Err(AllocError),
        Err(_) => Ok(false),
    }
}

// Owes the client what the reply of this answer makes, cut to what is listed; tells whether it answers a list.
fn owe_read(client: &mut Buffers, listed: &Blobs, reply: Reply<'_>) -> Result<bool, AllocError>
    requires { FitsBody (agent_reply reply) }
    ensures is_one { IfOk result (λ is_one. is_one
        ≡ is_some (cut_reply listed.now (Ok (agent_reply reply.entry)))) }
    ensures owed { OnOk result (client.new
        ≡ owes_reply (cut_reply listed.now (Ok (agent_reply reply.entry))) client.old) }
{
    match reply {
        Reply::Failure => {
            client.owe_failure()?;
            Ok(true)
        }
        Reply::Identities(identities) => {
            owe_listed(client, listed, identities)?;
            Ok(true)
        }
        Reply::Success => Ok(false),
        Reply::Signature(_) => Ok(false),
    }
}

// Owes the list of those of these identities that are listed.
fn owe_listed(
    client: &mut Buffers,
    listed: &Blobs,
    identities: Vec<(&[u8], &[u8])>,
) -> Result<(), AllocError>
    requires { 5 + entries_length (map lent identities.items) ≤ longest_body }
    ensures { OnOk result (client.new ≡ owes_reply
        (Some (identities_answer (only_listed listed.now (map lent identities.entry.items)))) client.old) }
{
    let mut kept = identities;
    keep_listed(&mut kept, listed);
    client.owe_list(&kept)
}
