//! Jobs, and what waits for them.

ghost use Rattle.std.specs.Prelude.{◌≤◌, IsTrue, length};

use crate::input::{number, short};
use bstr::ByteSlice;
use identity_table::{Identity, Table};
use std::alloc::Global;
use under_way::{TimeLimits, UnderWay, Verification};

/// The longest field of an ask.
const LONGEST: usize = 1000;

/// No limits of time.
pub(crate) const ENDLESS: TimeLimits = TimeLimits {
    ask: None,
    confirmation: None,
};

pub(crate) fn of_jobs(
    alloc: Global,
    jobs: &mut UnderWay,
    table: &Table,
    verb: &str,
    words: &[Vec<u8>],
) -> Option<String> {
    match verb {
        "new" => {
            *jobs = UnderWay::new(alloc, ENDLESS);
            String::from_str(alloc, "new").ok()
        }
        "sign" => said_put(alloc, sign(jobs, table, words)?),
        "verify" => said_put(alloc, verify(jobs, words)?),
        "ask" => said_put(alloc, ask(jobs, table, words)?),
        "take" => said_verification(alloc, jobs.take_verification(number(words.first()?)?)),
        "end" => end(alloc, jobs, number(words.first()?)?),
        _ => about_jobs(alloc, jobs, verb),
    }
}

fn about_jobs(alloc: Global, jobs: &UnderWay, verb: &str) -> Option<String> {
    match verb {
        "starts" => format!(in alloc; "{:?}", jobs.starts()).ok(),
        "link" => {
            format!(in alloc; "{:?} faults: {}", jobs.link_state(), jobs.link_faults()).ok()
        }
        "owed" => format!(in alloc; "'{}'", jobs.owed().escape_bytes()).ok(),
        "confirmer" => format!(in alloc; "{:?}", jobs.next_confirmer_owed(0)).ok(),
        _ => None,
    }
}

fn said_put(alloc: Global, put: Option<u64>) -> Option<String> {
    format!(in alloc; "{put:?}").ok()
}

fn is_short(key: &Identity, message: &[u8]) -> bool
    ensures private { IsTrue result → length key.now.private ≤ 1000 }
    ensures blob { IsTrue result → length key.now.blob ≤ 1000 }
    ensures message { IsTrue result → length message.now ≤ 1000 }
{
    key.private().len() <= LONGEST && key.blob().len() <= LONGEST && message.len() <= LONGEST
}

/// `BLOB ASKER MESSAGE FLAGS`
fn sign(jobs: &mut UnderWay, table: &Table, words: &[Vec<u8>]) -> Option<Option<u64>> {
    let [blob, asker, message, flags] = words else {
        return None;
    };
    let key = table.find(blob)?;
    let (asker, flags) = (number(asker)?, short(flags)?);
    if !is_short(key, message) {
        return None;
    }
    jobs.put_sign(asker, key, message, flags).ok()
}

/// `ASKER HOST_KEY SESSION SIGNATURE`, forwarded and new.
fn verify(jobs: &mut UnderWay, words: &[Vec<u8>]) -> Option<Option<u64>> {
    let [asker, host_key, session, signature] = words else {
        return None;
    };
    let asker = number(asker)?;
    if host_key.len() > LONGEST || session.len() > LONGEST || signature.len() > LONGEST {
        return None;
    }
    jobs.put_verify(asker, host_key, session, signature, true, true)
        .ok()
}

fn said_verification(alloc: Global, one: Option<Verification>) -> Option<String> {
    match one {
        None => String::from_str(alloc, "none").ok(),
        Some(one) => format!(in alloc;
            "'{}' session '{}' forwarding: {} new: {}",
            one.host_key.as_slice().escape_bytes(),
            one.session.as_slice().escape_bytes(),
            one.forwarding,
            one.is_new
        )
        .ok(),
    }
}

/// `BLOB ASKER MESSAGE FLAGS`: none where the asker waits already.
fn ask(jobs: &mut UnderWay, table: &Table, words: &[Vec<u8>]) -> Option<Option<u64>> {
    let [blob, asker, message, flags] = words else {
        return None;
    };
    let key = table.find(blob)?;
    let (asker, flags) = (number(asker)?, short(flags)?);
    if message.len() > LONGEST {
        return None;
    }
    if jobs.find_asker(asker).is_some() {
        return Some(None);
    }
    jobs.ask_user(asker, key, None, message, flags).ok()
}

/// The addition that the confirmation of this job was for.
fn end(alloc: Global, jobs: &mut UnderWay, job: u64) -> Option<String> {
    if jobs.find_confirmation(job).is_none() {
        return String::from_str(alloc, "none").ok();
    }
    format!(in alloc; "addition {}", jobs.end_confirmation(job).addition).ok()
}
