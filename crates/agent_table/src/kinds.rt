//! What the calls on a world were.

use world_ports::{Entry, Wrote};

/// The kinds of calls that may fail.
#[derive(Clone, Copy, Debug, PartialEq, Eq)]
pub(crate) enum Call {
    Bind,
    Poll,
    Accept,
    Read,
    Write,
    Start,
}

/// The kind of a call; a close and a reading of the clocks can't fail.
pub(crate) fn call_of(entry: &Entry) -> Option<Call> {
    match entry {
        Entry::Bind { .. } => Some(Call::Bind),
        Entry::Poll { .. } => Some(Call::Poll),
        Entry::Accept { .. } => Some(Call::Accept),
        Entry::Read { .. } => Some(Call::Read),
        Entry::Write { .. } => Some(Call::Write),
        Entry::Start { .. } => Some(Call::Start),
        Entry::Close { .. } | Entry::Now { .. } => None,
    }
}

/// The kind of the call with this number, from 1.
pub(crate) fn kind_of(journal: &[Entry], number: u64) -> Option<Call> {
    let mut at: u64 = 0;
    for entry in journal {
        if let Some(call) = call_of(entry) {
            at = at.saturating_add(1);
            if at == number {
                return Some(call);
            }
        }
    }
    None
}

/// How many calls of a kind there were.
pub(crate) fn count_of(journal: &[Entry], kind: Call) -> usize {
    let mut count: usize = 0;
    for entry in journal {
        if call_of(entry) == Some(kind) {
            count = count.saturating_add(1);
        }
    }
    count
}

/// What a write brought to a port, nothing of any other call.
pub(crate) fn written_to(entry: &Entry, port: u64) -> &[u8] {
    match entry {
        Entry::Write {
            port: at,
            offered,
            answer: Ok(Wrote::Took(count)),
        } if *at == port => front(offered.as_slice(), *count as usize),
        _ => b"",
    }
}

fn front(bytes: &[u8], count: usize) -> &[u8] {
    if count <= bytes.len() {
        &bytes[..count]
    } else {
        b""
    }
}

/// Whether a port was closed.
pub(crate) fn is_closed(journal: &[Entry], port: u64) -> bool {
    for entry in journal {
        if is_close(entry, port) {
            return true;
        }
    }
    false
}

fn is_close(entry: &Entry, port: u64) -> bool {
    match entry {
        Entry::Close { port: at, .. } => *at == port,
        _ => false,
    }
}

/// Whether what a port took is the front of these bytes.
pub(crate) fn takes_front(journal: &[Entry], port: u64, bytes: &[u8]) -> bool {
    let mut rest = bytes;
    for entry in journal {
        match rest.strip_prefix(written_to(entry, port)) {
            Some(left) => rest = left,
            None => return false,
        }
    }
    true
}
