//! Lines of schedules and of their output, as they are written.

ghost use Rattle.std.specs.Prelude.{◌≢◌, IfSome};

use crate::input::bytes_of;
use bstr::ByteSlice;
use plain_lists::Bytes;
use schedule_text::{Deed, LineFault, Step, put_deed, put_step};
use std::alloc::{AllocError, Global};
use std::io;
use world_ports::{Door, Job, JobKind, Moment};

/// The line of a step: `skip`, `format2`, `at MONO WALL`, `client` or `child` for one that joins, `hear PORT BYTES` of 1 to
/// 1000 bytes, `end PORT`, `hold PORT`, `free PORT`, `take PORT COUNT`, `started JOB TICKET` and `failed JOB`.
pub(crate) fn step_line(alloc: Global, text: &str) -> io::Result<Option<String>> {
    let (verb, rest) = text.split_once(' ').unwrap_or((text, ""));
    let (first, second) = rest.split_once(' ').unwrap_or((rest, ""));
    let number = first.parse::<u64>().unwrap_or(0);
    let mut out = Vec::new(alloc);
    match verb {
        "hear" => put_hear(&mut out, number, bytes_of(alloc, second)?)?,
        "started" => put_started(&mut out, number, &bytes_of(alloc, second)?)?,
        "at" | "take" => put_two(&mut out, verb, number, second.parse::<u64>().unwrap_or(0))?,
        "end" | "hold" | "free" | "failed" => put_one(&mut out, verb, number)?,
        _ => put_none(&mut out, verb)?,
    }
    said_line(alloc, &out)
}

fn put_hear(out: &mut Vec<u8>, port: u64, bytes: Vec<u8>) -> Result<(), AllocError> {
    if bytes.is_empty() || bytes.len() > 1000 {
        return Ok(());
    }
    let bytes = Bytes::from_vec(bytes);
    put_step(out, &Step::Hear { port, bytes })
}

fn put_started(out: &mut Vec<u8>, job: u64, bytes: &[u8]) -> Result<(), AllocError> {
    let mut ticket = [0; 16];
    if bytes.len() != 16 {
        return Ok(());
    }
    ticket.copy_from_slice(bytes);
    put_step(out, &Step::Started { job, ticket })
}

fn put_two(out: &mut Vec<u8>, verb: &str, first: u64, second: u64) -> Result<(), AllocError> {
    if verb == "at" {
        let (mono, wall) = (first, second);
        put_step(out, &Step::At(Moment { mono, wall }))
    } else if second != 0 {
        let (port, count) = (first, second);
        put_step(out, &Step::Take { port, count })
    } else {
        Ok(())
    }
}

fn put_one(out: &mut Vec<u8>, verb: &str, number: u64) -> Result<(), AllocError> {
    match verb {
        "end" => put_step(out, &Step::End(number)),
        "hold" => put_step(out, &Step::Hold(number)),
        "free" => put_step(out, &Step::Free(number)),
        _ => put_step(out, &Step::Failed(number)),
    }
}

fn put_none(out: &mut Vec<u8>, verb: &str) -> Result<(), AllocError> {
    match verb {
        "skip" => put_step(out, &Step::Skip),
        "format2" => put_step(out, &Step::Format2),
        "client" => put_step(out, &Step::Join(Door::Clients)),
        "child" => put_step(out, &Step::Join(Door::Children)),
        _ => Ok(()),
    }
}

/// The line of what a run prints: `to PORT BYTES`, `close PORT`, `helper JOB` or `confirm JOB` for a start, `end`, and
/// `refused LINE FAULT`, a fault as Rust names it.
pub(crate) fn deed_line(alloc: Global, text: &str) -> io::Result<Option<String>> {
    let (verb, rest) = text.split_once(' ').unwrap_or((text, ""));
    let (first, second) = rest.split_once(' ').unwrap_or((rest, ""));
    let number = first.parse::<u64>().unwrap_or(0);
    let mut out = Vec::new(alloc);
    match verb {
        "to" => {
            let bytes = bytes_of(alloc, second)?;
            let port = number;
            put_deed(
                &mut out,
                &Deed::To {
                    port,
                    bytes: &bytes,
                },
            )?;
        }
        "close" => put_deed(&mut out, &Deed::Close(number))?,
        "helper" => put_start(&mut out, number, JobKind::Helper)?,
        "confirm" => put_start(&mut out, number, JobKind::Confirm)?,
        "refused" => put_refused(&mut out, number, second)?,
        "end" => put_deed(&mut out, &Deed::End)?,
        _ => {}
    }
    said_line(alloc, &out)
}

fn put_start(out: &mut Vec<u8>, number: u64, kind: JobKind) -> Result<(), AllocError> {
    put_deed(out, &Deed::Start(Job { number, kind }))
}

// Nothing where there is no such fault.
fn put_refused(out: &mut Vec<u8>, line: u64, word: &str) -> Result<(), AllocError> {
    match fault_of(word) {
        Some(fault) => put_deed(out, &Deed::Refused { line, fault }),
        None => Ok(()),
    }
}

fn fault_of(word: &str) -> Option<LineFault>
    ensures { IfSome result (λ fault. fault ≢ LineFault.Memory) }
{
    match word {
        "Word" => Some(LineFault::Word),
        "Number" => Some(LineFault::Number),
        "Hex" => Some(LineFault::Hex),
        "UnknownPort" => Some(LineFault::UnknownPort),
        "Order" => Some(LineFault::Order),
        "TooLong" => Some(LineFault::TooLong),
        _ => None,
    }
}

// None where nothing was written.
fn said_line(alloc: Global, line: &[u8]) -> io::Result<Option<String>> {
    if line.is_empty() {
        return Ok(None);
    }
    Ok(Some(format!(in alloc; "'{}'", line.escape_bytes())?))
}
