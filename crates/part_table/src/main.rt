//! Answers a table of calls on the parts of the agent, a line each: identities and the lock, the link to the helper,
//! confirmations, jobs, and logins under destination constraints.
//!
//! A line is a part, a verb and words. A part lives until its line `new`. Lines that begin with `#` are written again as
//! they are, so that both tables have the same headings.
#![tactic(auto)]

mod desk;
mod identities;
mod input;
mod jobs;
mod link;
mod logins;
mod prompts;
mod streams;

use crate::input::words_of;
use crate::jobs::ENDLESS;
use crate::logins::Way;
use confirm_desk::Desk;
use helper_link::Link;
use identity_table::{Lock, Table};
use std::alloc::Global;
use std::io;
use under_way::UnderWay;

/// What lines of the table are about.
#[derive(Drop)]
struct Parts {
    table: Table,
    lock: Lock,
    link: Link,
    desk: Desk,
    jobs: UnderWay,
    way: Way,
}

fn new_parts(alloc: Global) -> Parts {
    Parts {
        table: Table::new(alloc, None),
        lock: Lock::new(),
        link: Link::new(alloc),
        desk: Desk::new(alloc),
        jobs: UnderWay::new(alloc, ENDLESS),
        way: Way::new(alloc),
    }
}

fn main(rt: HostRuntime) -> io::Result<()> {
    let mut parts = new_parts(rt.alloc());
    answer_all(&rt, &mut parts)
}

fn answer_all(rt: &HostRuntime, parts: &mut Parts) -> io::Result<()> {
    for line in rt.lines(rt.alloc()) {
        let line = line?;
        match answer(rt.alloc(), parts, line.as_str()) {
            Some(text) => println!(rt; "{text}")?,
            None => println!(rt; "not a line")?,
        }
    }
    Ok(())
}

/// The answer to a line, or `None` where it is none of the table's, or can't be asked for.
fn answer(alloc: Global, parts: &mut Parts, line: &str) -> Option<String> {
    if line.starts_with('#') || line.is_empty() {
        return String::from_str(alloc, line).ok();
    }
    let (part, rest) = line.split_once(' ')?;
    let (verb, rest) = rest.split_once(' ').unwrap_or((rest, ""));
    let words = words_of(alloc, rest)?;
    answer_of(alloc, parts, part, verb, &words)
}

fn answer_of(
    alloc: Global,
    parts: &mut Parts,
    part: &str,
    verb: &str,
    words: &[Vec<u8>],
) -> Option<String> {
    match part {
        "table" => identities::of_table(alloc, &mut parts.table, verb, words),
        "lock" => identities::of_lock(alloc, &mut parts.lock, verb, words),
        "link" => link::of_link(alloc, &mut parts.link, verb, words),
        "desk" => desk::of_desk(alloc, &mut parts.desk, verb, words),
        "prompt" => prompts::of_prompt(alloc, verb, words),
        "jobs" => jobs::of_jobs(alloc, &mut parts.jobs, &parts.table, verb, words),
        "way" => logins::of_way(alloc, &mut parts.way, verb, words),
        _ => None,
    }
}
