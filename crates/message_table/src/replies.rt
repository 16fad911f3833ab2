//! Replies of agents.

use crate::input::number;
use agent_msg::{Reply, put_list_entry, put_list_head, put_signature, put_status, read_reply};
use bstr::ByteSlice;
use secret_buf::ScrubBuf;
use std::alloc::Global;

/// The longest field that is written.
const LONGEST: usize = 1000;

/// What a body says, or its first fault.
pub(crate) fn read(alloc: Global, body: &[u8]) -> Option<String> {
    match read_reply(alloc, body) {
        Ok(reply) => said(alloc, &reply),
        Err(fault) => format!(in alloc; "{fault:?}").ok(),
    }
}

fn said(alloc: Global, reply: &Reply<'_>) -> Option<String> {
    match reply {
        Reply::Failure => String::from_str(alloc, "failure").ok(),
        Reply::Success => String::from_str(alloc, "success").ok(),
        Reply::Signature(signature) => {
            format!(in alloc; "signature '{}'", signature.escape_bytes()).ok()
        }
        Reply::Identities(all) => said_identities(alloc, all),
    }
}

fn said_identities(alloc: Global, all: &[(&[u8], &[u8])]) -> Option<String> {
    let mut said = String::from_str(alloc, "identities").ok()?;
    for (blob, comment) in all {
        let one = format!(in alloc;
            " '{}' '{}'",
            blob.escape_bytes(),
            comment.escape_bytes()
        ).ok()?;
        said.push_str(&one).ok()?;
    }
    Some(said)
}

/// `success`, `failure`, `signature BYTES`, or `list LENGTH COUNT` and blobs with their comments: the frame.
pub(crate) fn written(alloc: Global, words: &[Vec<u8>]) -> Option<String> {
    let (verb, rest) = words.split_first()?;
    let mut out = ScrubBuf::new(alloc);
    put(&mut out, verb, rest)?;
    format!(in alloc; "{}", out.live().escape_bytes()).ok()
}

fn put(out: &mut ScrubBuf, verb: &[u8], words: &[Vec<u8>]) -> Option<()> {
    match (verb, words) {
        (b"success", []) => put_answer(out, true),
        (b"failure", []) => put_answer(out, false),
        (b"signature", [signature]) if signature.len() <= LONGEST => {
            put_signature(out, signature).ok()
        }
        (b"list", [len, count, entries @ ..]) => put_list(
            out,
            number(len)?,
            number(count)?,
            entries,
        ),
        _ => None,
    }
}

fn put_answer(out: &mut ScrubBuf, success: bool) -> Option<()> {
    out.reserve(5).ok()?;
    put_status(out, success);
    Some(())
}

fn put_list(out: &mut ScrubBuf, len: u32, count: u32, entries: &[Vec<u8>]) -> Option<()> {
    if len > 262_144 {
        return None;
    }
    put_list_head(out, len, count).ok()?;
    for entry in entries.chunks(2) {
        put_entry(out, entry)?;
    }
    Some(())
}

fn put_entry(out: &mut ScrubBuf, entry: &[Vec<u8>]) -> Option<()> {
    let [blob, comment] = entry else {
        return None;
    };
    if blob.len() > LONGEST || comment.len() > LONGEST {
        return None;
    }
    put_list_entry(out, blob, comment).ok()
}
