//! Answers a table of messages, a line each: requests and replies, constraints, what is signed for a file, and bodies
//! without their secrets.
//!
//! A line is a verb and its words. Lines that begin with `#` are written again as they are, so that both tables have the
//! same headings.
#![tactic(auto)]

mod constraints;
mod input;
mod redaction;
mod replies;
mod requests;
mod signatures;

use crate::input::words_of;
use std::alloc::Global;
use std::io;

fn main(rt: HostRuntime) -> io::Result<()> {
    for line in rt.lines(rt.alloc()) {
        let line = line?;
        match answer(rt.alloc(), line.as_str()) {
            Some(text) => println!(rt; "{text}")?,
            None => println!(rt; "not a line")?,
        }
    }
    Ok(())
}

/// The answer to a line, or `None` where it is none of the table's.
fn answer(alloc: Global, line: &str) -> Option<String> {
    if line.starts_with('#') || line.is_empty() {
        return String::from_str(alloc, line).ok();
    }
    let (verb, rest) = line.split_once(' ')?;
    let words = words_of(alloc, rest)?;
    answer_of(alloc, verb, words.first()?, &words)
}

fn answer_of(alloc: Global, verb: &str, first: &[u8], words: &[Vec<u8>]) -> Option<String> {
    match verb {
        "request" => requests::read(alloc, first),
        "private" => requests::is_private(alloc, words),
        "binds" => requests::binds(alloc, first),
        "write" => requests::written(alloc, words),
        "reply" => replies::read(alloc, first),
        "answer" => replies::written(alloc, words),
        _ => answer_of_fields(alloc, verb, first, words),
    }
}

fn answer_of_fields(alloc: Global, verb: &str, first: &[u8], words: &[Vec<u8>]) -> Option<String> {
    match verb {
        "constraints" => constraints::read(alloc, first),
        "destinations" => constraints::destinations(alloc, first),
        "again" => constraints::again(alloc, first),
        "file" => signatures::read(alloc, first),
        "redact" => redaction::redacted(alloc, words),
        _ => None,
    }
}
