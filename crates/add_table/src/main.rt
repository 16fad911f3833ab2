//! Answers a table of files of keys, of known hosts, and of runs of the tool that adds keys, a line each.
//!
//! A line is a verb and its words, or sets what later lines read and is written again. A text has the escapes of
//! Rust's byte strings. Lines that begin with `#` are written again as they are, so that both tables have the same
//! headings.
#![tactic(auto)]

mod given;
mod hosts;
mod keys;
mod tool;

use given::{Given, Settings};
use std::alloc::{AllocError, Global};
use std::io;

fn main(rt: HostRuntime) -> io::Result<()> {
    let mut given = Given::new(rt.alloc());
    answer_all(&rt, &mut given)
}

fn answer_all(rt: &HostRuntime, given: &mut Given) -> io::Result<()> {
    let mut settings = Settings::NONE;
    for line in rt.lines(rt.alloc()) {
        let line = line?;
        answer(rt, given, &mut settings, line.as_str())?;
    }
    Ok(())
}

fn answer(
    rt: &HostRuntime,
    given: &mut Given,
    settings: &mut Settings,
    line: &str,
) -> io::Result<()> {
    let (verb, text) = line.split_once(' ').unwrap_or((line, ""));
    match verb {
        "body" => keys::say_body(rt, text),
        "bytes" => keys::say_bytes(rt, text),
        "holds" => keys::say_holds(rt, text),
        "line" => keys::say_line(rt, text),
        "typed" => keys::say_typed(rt, text),
        "decoded" => keys::say_decoded(rt, text),
        "fingerprint" => keys::say_fingerprint(rt, text),
        "find" => hosts::say_found(rt, &given.hosts, text),
        "tool" => tool::say_run(rt, given, *settings, text),
        _ => say_set(rt, given, settings, line),
    }
}

/// A line that sets something is written again.
fn say_set(
    rt: &HostRuntime,
    given: &mut Given,
    settings: &mut Settings,
    line: &str,
) -> io::Result<()> {
    if is_set(rt.alloc(), given, settings, line)? {
        println!(rt; "{line}")
    } else {
        println!(rt; "not a line")
    }
}

fn is_set(
    alloc: Global,
    given: &mut Given,
    settings: &mut Settings,
    line: &str,
) -> Result<bool, AllocError> {
    if line.starts_with('#') || line.is_empty() {
        return Ok(true);
    }
    let (verb, text) = line.split_once(' ').unwrap_or((line, ""));
    if settings.set(verb, text) {
        return Ok(true);
    }
    given.set(alloc, verb, text)
}
