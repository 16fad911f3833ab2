//! Lines of schedules.

use crate::input::bytes_of;
use schedule_text::{Step, read_line};
use std::alloc::{AllocError, Global};
use std::io;

/// The step that a line asks for, written as Rust has it, or the first fault of the line.
pub(crate) fn step_of(alloc: Global, text: &str) -> io::Result<Option<String>> {
    let line = bytes_of(alloc, text)?;
    match read_line(alloc, &line) {
        Ok(step) => Ok(Some(said_step(alloc, &step)?)),
        Err(fault) => Ok(Some(format!(in alloc; "{fault:?}")?)),
    }
}

/// The same of a line of so many bytes: behind the length a byte that fills it, the text before these and the one behind.
/// Of bytes that are all the same their value and number.
pub(crate) fn step_of_long(alloc: Global, length: &str, texts: &str) -> io::Result<Option<String>> {
    let (filling, around) = texts.split_once(' ').unwrap_or((texts, ""));
    let (front, back) = around.split_once(' ').unwrap_or((around, ""));
    let line = filled(alloc, length, filling, front, back)?;
    match read_line(alloc, &line) {
        Ok(step) => Ok(Some(said_long_step(alloc, &step)?)),
        Err(fault) => Ok(Some(format!(in alloc; "{fault:?}")?)),
    }
}

fn filled(
    alloc: Global,
    length: &str,
    filling: &str,
    front: &str,
    back: &str,
) -> io::Result<Vec<u8>> {
    let length = length.parse::<usize>().unwrap_or(0);
    let filling = bytes_of(alloc, filling)?;
    let mut line = bytes_of(alloc, front)?;
    let back = bytes_of(alloc, back)?;
    for _ in line.len()..length.saturating_sub(back.len()) {
        line.extend_from_slice(&filling)?;
    }
    line.extend_from_slice(&back)?;
    Ok(line)
}

fn said_long_step(alloc: Global, step: &Step) -> Result<String, AllocError> {
    match step {
        Step::Hear { port, bytes } if is_one_byte(bytes.as_slice()) => {
            let (byte, count) = (bytes.as_slice().first().copied().unwrap_or(0), bytes.len());
            format!(in alloc; "Hear {{ port: {port}, bytes: [{byte}; {count}] }}")
        }
        _ => said_step(alloc, step),
    }
}

/// A step has no `Debug`, since a real one may hold what is private.
fn said_step(alloc: Global, step: &Step) -> Result<String, AllocError> {
    match step {
        Step::Skip => String::from_str(alloc, "Skip"),
        Step::Format2 => String::from_str(alloc, "Format2"),
        Step::At(moment) => format!(in alloc; "At({moment:?})"),
        Step::Join(door) => format!(in alloc; "Join({door:?})"),
        Step::Hear { port, bytes } => {
            format!(in alloc; "Hear {{ port: {}, bytes: {:?} }}", port, bytes.as_slice())
        }
        Step::End(port) => format!(in alloc; "End({port})"),
        Step::Hold(port) => format!(in alloc; "Hold({port})"),
        Step::Free(port) => format!(in alloc; "Free({port})"),
        Step::Take { port, count } => format!(in alloc; "Take {{ port: {port}, count: {count} }}"),
        Step::Started { job, ticket } => {
            format!(in alloc; "Started {{ job: {job}, ticket: {ticket:?} }}")
        }
        Step::Failed(job) => format!(in alloc; "Failed({job})"),
    }
}

fn is_one_byte(bytes: &[u8]) -> bool {
    let Some(first) = bytes.first() else {
        return false;
    };
    for byte in bytes {
        if byte != first {
            return false;
        }
    }
    true
}
