//! What the scripts of `bench/` time, a word each: they take the time and compare, this does the work.
#![tactic(auto)]

mod buffer;
mod link;
mod rules;

use known_hosts::host_keys;
use pattern_core::matches;
use std::rt::Files;
use std::{env, fs, io};

/// A number of the command line.
fn number(word: &str) -> io::Result<u64> {
    let Ok(number) = word.parse::<u64>() else {
        return Err(io::ErrorKind::InvalidInput.into());
    };
    Ok(number)
}

/// Pieces through a ScrubBuf.
fn run_buffer(rt: &(impl AllocGlobal + Print), pieces: u64) -> io::Result<()> {
    let sum = buffer::through_a_buffer(rt.alloc(), pieces)?;
    println!(rt; "{pieces} pieces through a buffer, first bytes {sum}")
}

/// The same pieces, copied to the end of a plain vector.
fn run_vector(rt: &(impl AllocGlobal + Print), pieces: u64) -> io::Result<()> {
    let sum = buffer::through_a_vector(rt.alloc(), pieces)?;
    println!(rt; "{pieces} pieces through a vector, first bytes {sum}")
}

/// One search for a pattern in a text of so many letters `a`.
fn run_pattern(rt: &(impl AllocGlobal + Print), len: u64, pattern: &str) -> io::Result<()> {
    let text = vec![in rt.alloc(); b'a'; len.min(u32::MAX as u64) as usize]?;
    let answer = matches(&text, pattern.as_bytes());
    println!(rt; "{answer}")
}

/// Batches of asks to a link, and their answers.
fn run_link(rt: &(impl AllocGlobal + Print), batches: u64) -> io::Result<()> {
    let answers = link::answered(rt.alloc(), batches)?;
    println!(rt; "{batches} batches of asks, {answers} answers")
}

/// A signature judged over 16 bindings and 961 host keys, so often.
fn run_rules(rt: &(impl AllocGlobal + Print), times: u64) -> io::Result<()> {
    let permitted = rules::permitted(rt.alloc(), times)?;
    println!(rt; "{permitted} of {times} permitted")
}

/// One look for a host in a file of known hosts.
fn run_hosts(rt: &(impl Files + AllocGlobal + Print), file: &str, host: &str) -> io::Result<()> {
    let text = fs::read(rt, file)?;
    let keys = host_keys(rt.alloc(), &text, host.as_bytes())?;
    println!(rt; "{} keys", keys.len())
}

/// Each of them once, over little.
fn run_all(rt: &(impl Files + AllocGlobal + Print), file: &str, host: &str) -> io::Result<()> {
    run_buffer(rt, 100)?;
    run_vector(rt, 100)?;
    run_pattern(rt, 1000, "*a*a*a*b")?;
    run_link(rt, 3)?;
    run_rules(rt, 3)?;
    run_hosts(rt, file, host)
}

fn main(rt: HostRuntime) -> io::Result<()> {
    let mut words = env::args(&rt)?.skip(1);
    let (Some(word), Some(first)) = (words.next(), words.next()) else {
        return Err(io::ErrorKind::InvalidInput.into());
    };
    let second = words.next();
    match (word.as_str(), second) {
        ("buffer", None) => run_buffer(&rt, number(first.as_str())?),
        ("vector", None) => run_vector(&rt, number(first.as_str())?),
        ("pattern", Some(text)) => run_pattern(&rt, number(first.as_str())?, text.as_str()),
        ("link", None) => run_link(&rt, number(first.as_str())?),
        ("rules", None) => run_rules(&rt, number(first.as_str())?),
        ("hosts", Some(host)) => run_hosts(&rt, first.as_str(), host.as_str()),
        ("all", Some(host)) => run_all(&rt, first.as_str(), host.as_str()),
        _ => Err(io::ErrorKind::InvalidInput.into()),
    }
}
