//! The cues of a turn, with bars between them: `connect`, `child`, `send PORT TEXT`, `fill PORT COUNT TEXT`, `shut PORT`,
//! `clock SECOND` and `ticket TEXT`; `crowd COUNT TEXT` are so many clients who each send that.

use crate::stage::unescaped;
use plain_lists::Bytes;
use std::alloc::{AllocError, Global};
use world_ports::{Cue, Door};

/// The turns of these lines.
pub(crate) fn turns_of(alloc: Global, lines: &[String]) -> Result<Vec<Vec<Cue>>, AllocError> {
    let mut turns = Vec::new(alloc);
    for line in lines {
        turns.push(turn_of(alloc, line.as_str())?)?;
    }
    Ok(turns)
}

fn turn_of(alloc: Global, line: &str) -> Result<Vec<Cue>, AllocError> {
    let mut cues = Vec::new(alloc);
    for text in line.split(" | ") {
        add(alloc, &mut cues, text)?;
    }
    Ok(cues)
}

// Adds what a text says, nothing where it isn't known.
fn add(alloc: Global, cues: &mut Vec<Cue>, text: &str) -> Result<(), AllocError> {
    let (verb, rest) = text.split_once(' ').unwrap_or((text, ""));
    let (first, second) = rest.split_once(' ').unwrap_or((rest, ""));
    let number = first.parse::<u64>().unwrap_or(0);
    match verb {
        "connect" => push(cues, Cue::Connect(Door::Clients)),
        "child" => push(cues, Cue::Connect(Door::Children)),
        "send" => push(cues, send(number, unescaped(alloc, second)?)),
        "fill" => push(cues, send(number, filled(alloc, second)?)),
        "shut" => push(cues, Cue::Shut { port: number }),
        "clock" => push(cues, clock(number)),
        "ticket" => push(cues, Cue::Ticket(ticket(alloc, first)?)),
        "crowd" => crowd(alloc, cues, number, second),
        _ => Ok(()),
    }
}

fn push(cues: &mut Vec<Cue>, cue: Cue) -> Result<(), AllocError> {
    cues.push(cue)?;
    Ok(())
}

fn send(port: u64, bytes: Vec<u8>) -> Cue {
    Cue::Send {
        port,
        bytes: Bytes::from_vec(bytes),
    }
}

fn clock(second: u64) -> Cue {
    Cue::Clock {
        mono: second,
        wall: second,
    }
}

// A text, and zeros behind it up to this length: `COUNT TEXT`.
fn filled(alloc: Global, text: &str) -> Result<Vec<u8>, AllocError> {
    let (count, text) = text.split_once(' ').unwrap_or((text, ""));
    let count = count.parse::<usize>().unwrap_or(0);
    let mut bytes = unescaped(alloc, text)?;
    for _ in bytes.len()..count {
        bytes.push(0)?;
    }
    Ok(bytes)
}

fn ticket(alloc: Global, text: &str) -> Result<[u8; 16], AllocError> {
    let bytes = unescaped(alloc, text)?;
    let mut ticket = [0; 16];
    if bytes.len() == 16 {
        ticket.copy_from_slice(&bytes);
    }
    Ok(ticket)
}

fn crowd(alloc: Global, cues: &mut Vec<Cue>, count: u64, text: &str) -> Result<(), AllocError> {
    for _ in 0..count {
        push(cues, Cue::Connect(Door::Clients))?;
    }
    for port in 0..count {
        push(cues, send(port.saturating_add(1), unescaped(alloc, text)?))?;
    }
    Ok(())
}
