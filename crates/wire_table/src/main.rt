//! Answers a table of keys, certificates, lines of schedules and of their output, words of `serve` and lifetimes, a line each.
//!
//! A line is a verb and its words. A word is bytes with the escapes of Rust's byte strings, a space in it as
//! `\x20`, or `base64:` and base64. Lines that begin with `#` are written again as they are, so that both tables
//! have the same headings.
#![tactic(auto)]

mod certificates;
mod input;
mod keys;
mod schedules;
mod serve;
mod written;

use std::alloc::Global;
use std::io;

fn main(rt: HostRuntime) -> io::Result<()> {
    for line in rt.lines(rt.alloc()) {
        let line = line?;
        match answer(rt.alloc(), line.as_str())? {
            Some(text) => println!(rt; "{text}")?,
            None => println!(rt; "not a line")?,
        }
    }
    Ok(())
}

/// The answer to a line, or `None` where it is none of the table's.
fn answer(alloc: Global, line: &str) -> io::Result<Option<String>> {
    if line.starts_with('#') || line.is_empty() {
        return Ok(Some(String::from_str(alloc, line)?));
    }
    let (verb, rest) = line.split_once(' ').unwrap_or((line, ""));
    let (first, second) = rest.split_once(' ').unwrap_or((rest, ""));
    match verb {
        "key" => keys::shown(alloc, first),
        "blob" => keys::fault_of_blob(alloc, first),
        "fronts" => keys::short_fronts(alloc, first),
        "added" => keys::fault_of_addition(alloc, first),
        "addition" => keys::added(alloc, first, second),
        "certificate" => certificates::parts(alloc, first),
        "plain" => certificates::beside_plain(alloc, first, second),
        "fits" => certificates::fitting(alloc, first, second),
        "hosts" => certificates::good_for(alloc, first, second),
        "line" => schedules::step_of(alloc, rest),
        "long" => schedules::step_of_long(alloc, first, second),
        "step" => written::step_line(alloc, rest),
        "deed" => written::deed_line(alloc, rest),
        "words" => serve::words_of(alloc, rest),
        "life" => serve::life_of(alloc, first),
        _ => Ok(None),
    }
}
