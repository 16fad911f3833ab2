//! Writing a line of a schedule.

ghost use Rattle.std.specs.Prelude.{◌≡◌, ◌++◌, OnOk, OnErr, length, take};
ghost use Rattle.schedule_text.specs.Steps.{HasLine, bytes_text, door_word, one_text, step_line, step_text, two_text};

use crate::Step;
use crate::texts::{put_hex, put_number};
use std::alloc::AllocError;
use world_ports::Door;

/// Appends the line of a step with its LF, or leaves `out` as it was.
///
/// A skipped line is written as the empty line. What is heard is one byte at least, and so is what
/// is taken, and the line has at most 65536 bytes without its LF.
pub fn put_step(out: &mut Vec<u8>, step: &Step) -> Result<(), AllocError>
    requires { HasLine step.now }
    ensures ok { OnOk result (out.new.items ≡ out.old.items ++ step_line step.now) }
    ensures err { OnErr result (out.new.items ≡ out.old.items) }
{
    let start = out.len();
    let put = put_line(out, step);
    if put.is_err() {
        out.truncate(start);
    }
    put
}

/// Appends the line of a step. Where memory runs out, a part of it may have been appended.
#[tactic(auto, unfolding(crate::specs::Steps::step_line))]
fn put_line(out: &mut Vec<u8>, step: &Step) -> Result<(), AllocError>
    ensures ok { OnOk result (out.new.items ≡ out.old.items ++ step_line step.now) }
    ensures err { OnErr result (take (length out.old.items) out.new.items ≡ out.old.items) }
{
    put_text(out, step)?;
    out.extend_from_slice(b"\n")
}

/// The same without the LF.
fn put_text(out: &mut Vec<u8>, step: &Step) -> Result<(), AllocError>
    ensures ok { OnOk result (out.new.items ≡ out.old.items ++ step_text step.now) }
    ensures err { OnErr result (take (length out.old.items) out.new.items ≡ out.old.items) }
{
    match step {
        Step::Skip => Ok(()),
        Step::Format2 => out.extend_from_slice(b"schedule 2"),
        Step::At(moment) => put_two(out, b"at", moment.mono, moment.wall),
        Step::Join(door) => put_join(out, *door),
        Step::Hear { port, bytes } => put_bytes(out, b"hear", *port, bytes.as_slice()),
        Step::End(port) => put_one(out, b"end", *port),
        Step::Hold(port) => put_one(out, b"hold", *port),
        Step::Free(port) => put_one(out, b"free", *port),
        Step::Take { port, count } => put_two(out, b"take", *port, *count),
        Step::Started { job, ticket } => put_bytes(out, b"started", *job, ticket),
        Step::Failed(job) => put_one(out, b"failed", *job),
    }
}

fn put_join(out: &mut Vec<u8>, door: Door) -> Result<(), AllocError>
    ensures ok { OnOk result (out.new.items ≡ out.old.items ++ step_text (Step.Join door)) }
    ensures err { OnErr result (take (length out.old.items) out.new.items ≡ out.old.items) }
{
    out.extend_from_slice(b"join ")?;
    out.extend_from_slice(word_of_door(door))
}

fn word_of_door(door: Door) -> &'static [u8]
    ensures { result.now ≡ door_word door }
{
    match door {
        Door::Clients => b"client",
        Door::Children => b"child",
    }
}

/// A word, and a number behind it.
fn put_one(out: &mut Vec<u8>, word: &[u8], number: u64) -> Result<(), AllocError>
    ensures ok { OnOk result (out.new.items ≡ out.old.items ++ one_text word.now number) }
    ensures err { OnErr result (take (length out.old.items) out.new.items ≡ out.old.items) }
{
    out.extend_from_slice(word)?;
    out.extend_from_slice(b" ")?;
    put_number(out, number)
}

/// A word, and two numbers behind it.
fn put_two(out: &mut Vec<u8>, word: &[u8], first: u64, second: u64) -> Result<(), AllocError>
    ensures ok { OnOk result (out.new.items ≡ out.old.items ++ two_text word.now first second) }
    ensures err { OnErr result (take (length out.old.items) out.new.items ≡ out.old.items) }
{
    put_one(out, word, first)?;
    out.extend_from_slice(b" ")?;
    put_number(out, second)
}

/// A word, and behind it a number and bytes.
fn put_bytes(out: &mut Vec<u8>, word: &[u8], number: u64, bytes: &[u8]) -> Result<(), AllocError>
    ensures ok { OnOk result (out.new.items ≡ out.old.items ++ bytes_text word.now number bytes.now) }
    ensures err { OnErr result (take (length out.old.items) out.new.items ≡ out.old.items) }
{
    put_one(out, word, number)?;
    out.extend_from_slice(b" ")?;
    put_hex(out, bytes)
}
