//! What lines ask of the last run.

use crate::kinds::{Call, count_of, is_closed, kind_of, written_to};
use crate::stage::{Stage, unescaped};
use bstr::ByteSlice;
use std::alloc::{AllocError, Global};
use std::io;
use world_ports::{Entry, Got};

/// Answers what is asked of the input or the output, and says whether that is.
pub(crate) fn say_output(
    rt: &HostRuntime,
    stage: &Stage,
    verb: &str,
    text: &str,
) -> io::Result<bool> {
    match verb {
        "output" => say_text(rt, &stage.output)?,
        "output-but" => {
            let kept = without(rt.alloc(), &stage.output, text)?;
            say_text(rt, &kept)?;
        }
        "left" => say_text(rt, stage.input.get(stage.taken..).unwrap_or(b""))?,
        "ended" => say_bool(rt, stage.ended)?,
        "late-reads" => say_count(rt, stage.late_reads as usize)?,
        _ => return Ok(false),
    }
    Ok(true)
}

/// Answers what is asked of the world, and says whether that is.
pub(crate) fn say_done(
    rt: &HostRuntime,
    stage: &Stage,
    verb: &str,
    text: &str,
) -> io::Result<bool> {
    let Some(world) = &stage.world else {
        return Ok(false);
    };
    say_of(rt, world.journal(), verb, text)
}

fn say_of(rt: &HostRuntime, journal: &[Entry], verb: &str, text: &str) -> io::Result<bool> {
    let (first, second) = text.split_once(' ').unwrap_or((text, ""));
    let number = first.parse::<u64>().unwrap_or(0);
    match verb {
        "took" => {
            let taken = taken(rt.alloc(), journal, number)?;
            say_text(rt, &taken)?;
        }
        "all-took" => {
            let bytes = unescaped(rt.alloc(), second)?;
            say_count(rt, count_that_took(rt.alloc(), journal, number, &bytes)?)?;
        }
        "closed" => say_bool(rt, is_closed(journal, number))?,
        "kind" => say_kind(rt, kind_of(journal, number))?,
        "polls" => say_count(rt, count_of(journal, Call::Poll))?,
        "starts" => say_count(rt, count_of(journal, Call::Start))?,
        "wait" => say_wait(rt, wait_of(journal, number))?,
        "polls-before" => {
            let bytes = unescaped(rt.alloc(), second)?;
            say_count(rt, polls_before(journal, number, &bytes))?;
        }
        "rounds" => {
            let order = read_order(rt.alloc(), journal)?;
            say_count(rt, rounds(&order, number))?;
        }
        _ => return Ok(false),
    }
    Ok(true)
}

fn say_text(rt: &HostRuntime, text: &[u8]) -> io::Result<()> {
    println!(rt; "'{}'", text.escape_bytes())
}

fn say_count(rt: &HostRuntime, count: usize) -> io::Result<()> {
    println!(rt; "{count}")
}

fn say_bool(rt: &HostRuntime, holds: bool) -> io::Result<()> {
    println!(rt; "{holds}")
}

fn say_kind(rt: &HostRuntime, kind: Option<Call>) -> io::Result<()> {
    println!(rt; "{kind:?}")
}

fn say_wait(rt: &HostRuntime, wait: Option<u64>) -> io::Result<()> {
    println!(rt; "{wait:?}")
}

// The lines of an output but what these ports are told.
fn without(alloc: Global, output: &[u8], ports: &str) -> Result<Vec<u8>, AllocError> {
    let mut kept = Vec::new(alloc);
    for line in output.split_inclusive(|byte| *byte == b'\n') {
        if !is_told(line, ports) {
            kept.extend_from_slice(line)?;
        }
    }
    Ok(kept)
}

fn is_told(line: &[u8], ports: &str) -> bool {
    let Some(told) = line.strip_prefix(b"to ") else {
        return false;
    };
    for port in ports.split(' ') {
        match told.strip_prefix(port.as_bytes()) {
            Some([b' ', ..]) => return true,
            _ => {}
        }
    }
    false
}

// What a port took, in order.
fn taken(alloc: Global, journal: &[Entry], port: u64) -> Result<Vec<u8>, AllocError> {
    let mut all = Vec::new(alloc);
    for entry in journal {
        all.extend_from_slice(written_to(entry, port))?;
    }
    Ok(all)
}

// How many of the ports from 1 to the last one took these bytes and no others.
fn count_that_took(
    alloc: Global,
    journal: &[Entry],
    last: u64,
    bytes: &[u8],
) -> Result<usize, AllocError> {
    let mut count: usize = 0;
    for port in 0..last {
        let taken = taken(alloc, journal, port.saturating_add(1))?;
        if taken.as_slice() == bytes {
            count = count.saturating_add(1);
        }
    }
    Ok(count)
}

// How long the poll with this number, from 1, may wait.
fn wait_of(journal: &[Entry], number: u64) -> Option<u64> {
    let mut polls: u64 = 0;
    for entry in journal {
        if let Entry::Poll { wait, .. } = entry {
            polls = polls.saturating_add(1);
            if polls == number {
                return *wait;
            }
        }
    }
    None
}

// How many polls there were before these bytes were offered to a port.
fn polls_before(journal: &[Entry], port: u64, bytes: &[u8]) -> usize {
    let mut polls: usize = 0;
    for entry in journal {
        match entry {
            Entry::Poll { .. } => polls = polls.saturating_add(1),
            Entry::Write {
                port: at,
                offered,
                ..
            } if *at == port && offered.as_slice() == bytes => return polls,
            _ => {}
        }
    }
    polls
}

// The ports that were read, in order, where bytes came.
fn read_order(alloc: Global, journal: &[Entry]) -> Result<Vec<u64>, AllocError> {
    let mut ports = Vec::new(alloc);
    for entry in journal {
        if let Entry::Read {
            port,
            answer: Ok(Got::Bytes(_)),
            ..
        } = entry
        {
            ports.push(*port)?;
        }
    }
    Ok(ports)
}

// How many rounds there were, each of the ports from 1 to the last one once, in any order; 0 where one isn't so.
fn rounds(order: &[u64], last: u64) -> usize {
    let mut count: usize = 0;
    for round in order.chunks((last as usize).max(1)) {
        if !is_round(round, last) {
            return 0;
        }
        count = count.saturating_add(1);
    }
    count
}

fn is_round(round: &[u64], last: u64) -> bool {
    for port in 0..last {
        if !round.contains(&port.saturating_add(1)) {
            return false;
        }
    }
    true
}
