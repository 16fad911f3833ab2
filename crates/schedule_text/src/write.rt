//! Writing an output line.

ghost use Rattle.std.specs.Prelude.{◌≡◌, ◌≢◌, ◌++◌, OnOk, OnErr, length, take};
ghost use Rattle.schedule_text.specs.Deeds.{IsPrintable, close_line, end_line, fault_word, kind_word, output_line, refused_line, start_line, to_line};

use crate::texts::{put_hex, put_number};
use crate::{Deed, LineFault};
use std::alloc::AllocError;
use world_ports::{Job, JobKind};

/// Appends one output line with its LF, or leaves `out` as it was.
pub fn put_deed(out: &mut Vec<u8>, deed: &Deed<'_>) -> Result<(), AllocError>
    requires { IsPrintable deed.now }
    ensures ok { OnOk result (out.new.items ≡ out.old.items ++ output_line deed.now) }
    ensures err { OnErr result (out.new.items ≡ out.old.items) }
{
    let start = out.len();
    let put = put_line(out, deed);
    if put.is_err() {
        out.truncate(start);
    }
    put
}

/// Appends one output line. Where memory runs out, a part of it may have been appended.
#[tactic(auto, unfolding(crate::specs::Deeds::end_line))]
fn put_line(out: &mut Vec<u8>, deed: &Deed<'_>) -> Result<(), AllocError>
    requires { IsPrintable deed.now }
    ensures ok { OnOk result (out.new.items ≡ out.old.items ++ output_line deed.now) }
    ensures err { OnErr result (take (length out.old.items) out.new.items ≡ out.old.items) }
{
    match *deed {
        Deed::To { port, bytes } => put_to(out, port, bytes),
        Deed::Close(port) => put_close(out, port),
        Deed::Start(job) => put_start(out, job),
        Deed::Refused { line, fault } => put_refused(out, line, fault),
        Deed::End => out.extend_from_slice(b"end\n"),
    }
}

#[tactic(auto, unfolding(crate::specs::Deeds::to_line))]
fn put_to(out: &mut Vec<u8>, port: u64, bytes: &[u8]) -> Result<(), AllocError>
    ensures ok { OnOk result (out.new.items ≡ out.old.items ++ to_line port bytes.now) }
    ensures err { OnErr result (take (length out.old.items) out.new.items ≡ out.old.items) }
{
    out.extend_from_slice(b"to ")?;
    put_number(out, port)?;
    out.extend_from_slice(b" ")?;
    put_hex(out, bytes)?;
    out.extend_from_slice(b"\n")
}

#[tactic(auto, unfolding(crate::specs::Deeds::close_line))]
fn put_close(out: &mut Vec<u8>, port: u64) -> Result<(), AllocError>
    ensures ok { OnOk result (out.new.items ≡ out.old.items ++ close_line port) }
    ensures err { OnErr result (take (length out.old.items) out.new.items ≡ out.old.items) }
{
    out.extend_from_slice(b"close ")?;
    put_number(out, port)?;
    out.extend_from_slice(b"\n")
}

#[tactic(auto, unfolding(crate::specs::Deeds::start_line))]
fn put_start(out: &mut Vec<u8>, job: Job) -> Result<(), AllocError>
    ensures ok { OnOk result (out.new.items ≡ out.old.items ++ start_line job) }
    ensures err { OnErr result (take (length out.old.items) out.new.items ≡ out.old.items) }
{
    out.extend_from_slice(b"start ")?;
    put_number(out, job.number)?;
    out.extend_from_slice(b" ")?;
    out.extend_from_slice(word_of_kind(job.kind))?;
    out.extend_from_slice(b"\n")
}

#[tactic(auto, unfolding(crate::specs::Deeds::refused_line))]
fn put_refused(out: &mut Vec<u8>, line: u64, fault: LineFault) -> Result<(), AllocError>
    requires { fault ≢ LineFault.Memory }
    ensures ok { OnOk result (out.new.items ≡ out.old.items ++ refused_line line fault) }
    ensures err { OnErr result (take (length out.old.items) out.new.items ≡ out.old.items) }
{
    out.extend_from_slice(b"refused ")?;
    put_number(out, line)?;
    out.extend_from_slice(b" ")?;
    out.extend_from_slice(word_of_fault(fault))?;
    out.extend_from_slice(b"\n")
}

fn word_of_kind(kind: JobKind) -> &'static [u8]
    ensures { result.now ≡ kind_word kind }
{
    match kind {
        JobKind::Helper => b"helper",
        JobKind::Confirm => b"confirm",
    }
}

fn word_of_fault(fault: LineFault) -> &'static [u8]
    requires { fault ≢ LineFault.Memory }
    ensures { result.now ≡ fault_word fault }
{
    match fault {
        LineFault::Word => b"word",
        LineFault::Number => b"number",
        LineFault::Hex => b"hex",
        LineFault::UnknownPort => b"port",
        LineFault::Order => b"order",
        LineFault::TooLong => b"long",
        LineFault::Memory => unreachable!(),
    }
}
