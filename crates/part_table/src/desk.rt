//! Confirmations.

ghost use Rattle.std.specs.Prelude.{IsTrue};
ghost use Rattle.confirm_desk.specs.Confirmations.{AreRaisedBy};

use crate::input::{number, short};
use bstr::ByteSlice;
use confirm_desk::{Desk, DeskFault, Held, Pending, Verdict};
use plain_lists::Bytes;
use std::alloc::Global;

/// The longest question.
const LONGEST: usize = 1000;

pub(crate) fn of_desk(
    alloc: Global,
    desk: &mut Desk,
    verb: &str,
    words: &[Vec<u8>],
) -> Option<String> {
    match verb {
        "new" => {
            *desk = Desk::new(alloc);
            String::from_str(alloc, "new").ok()
        }
        "raise" => said_raised(alloc, raise(alloc, desk, words)?),
        "link" => link(alloc, desk, words),
        "tell" => tell(alloc, desk, words),
        "took" => took(alloc, desk, words),
        "lose" => said_held(alloc, desk.lose(number(words.first()?)?)),
        _ => about_desk(alloc, desk, verb, number(words.first()?)),
    }
}

fn about_desk(alloc: Global, desk: &Desk, verb: &str, word: Option<u64>) -> Option<String> {
    match verb {
        "count" => format!(in alloc; "{}", desk.as_slice().len()).ok(),
        "oldest" => format!(in alloc; "{:?}", desk.oldest()).ok(),
        "next" => format!(in alloc; "{:?}", desk.next_owed(word?)).ok(),
        "at" => said_one(alloc, desk.find_linked(word?)),
        "of" => said_one(alloc, desk.find_asker(word?)),
        _ => None,
    }
}

/// Whether a confirmation may be raised in this second.
fn may_raise(desk: &Desk, now: u64) -> bool
    ensures { IsTrue result → AreRaisedBy now desk.now }
{
    match desk.as_slice().last() {
        None => true,
        Some(newest) => newest.raised_at() <= now,
    }
}

/// `JOB ASKER ADDITION MESSAGE FLAGS QUESTION NOW`
fn raise(alloc: Global, desk: &mut Desk, words: &[Vec<u8>]) -> Option<Result<(), DeskFault>> {
    let [job, asker, addition, message, flags, question, now] = words else {
        return None;
    };
    let (job, asker, now) = (number(job)?, number(asker)?, number(now)?);
    let (addition, flags) = (number(addition)?, short(flags)?);
    if desk.find_job(job).is_some() || desk.find_asker(asker).is_some() {
        return None;
    }
    if question.len() > LONGEST || !may_raise(desk, now) {
        return None;
    }
    let held = Held {
        asker,
        addition,
        message: Bytes::from_vec(Vec::from_slice(alloc, message).ok()?),
        flags,
    };
    Some(desk.raise(job, held, question, now))
}

fn said_raised(alloc: Global, raised: Result<(), DeskFault>) -> Option<String> {
    format!(in alloc; "{raised:?}").ok()
}

/// `JOB PORT`
fn link(alloc: Global, desk: &mut Desk, words: &[Vec<u8>]) -> Option<String> {
    let [job, port] = words else {
        return None;
    };
    let (job, port) = (number(job)?, number(port)?);
    if desk.find_linked(port).is_some() || desk.find_job(job)?.port().is_some() {
        return None;
    }
    desk.linked(job, port);
    String::from_str(alloc, "linked").ok()
}

/// `PORT PIECE`
fn tell(alloc: Global, desk: &mut Desk, words: &[Vec<u8>]) -> Option<String> {
    let [port, piece] = words else {
        return None;
    };
    let port = number(port)?;
    if desk.find_linked(port).is_none() {
        return String::from_str(alloc, "none there").ok();
    }
    said_verdict(alloc, &desk.told(port, piece).ok()?)
}

fn said_verdict(alloc: Global, verdict: &Verdict) -> Option<String> {
    match verdict {
        Verdict::NotYet => String::from_str(alloc, "not yet").ok(),
        Verdict::Granted(held) => said(alloc, "granted ", held),
        Verdict::Denied(held) => said(alloc, "denied ", held),
    }
}

/// `PORT COUNT`
fn took(alloc: Global, desk: &mut Desk, words: &[Vec<u8>]) -> Option<String> {
    let [port, count] = words else {
        return None;
    };
    let (port, count) = (number(port)?, number(count)? as usize);
    if count > desk.find_linked(port)?.owed().len() {
        return None;
    }
    desk.took(port, count);
    String::from_str(alloc, "took").ok()
}

fn said_held(alloc: Global, held: Option<Held>) -> Option<String> {
    match held {
        None => String::from_str(alloc, "none").ok(),
        Some(held) => said(alloc, "", &held),
    }
}

fn said(alloc: Global, what: &str, held: &Held) -> Option<String> {
    format!(in alloc;
        "{what}asker {} addition {} message '{}' flags {}",
        held.asker,
        held.addition,
        held.message.as_slice().escape_bytes(),
        held.flags
    )
    .ok()
}

fn said_one(alloc: Global, one: Option<&Pending>) -> Option<String> {
    match one {
        None => String::from_str(alloc, "none").ok(),
        Some(one) => format!(in alloc;
            "job {} port {:?} owed '{}'",
            one.job(),
            one.port(),
            one.owed().escape_bytes()
        )
        .ok(),
    }
}
