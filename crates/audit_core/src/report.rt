//! The lines of a report: those of signing requests, and those of a word and a number.

ghost use Rattle.std.specs.Prelude.{◌≡◌, ◌++◌, OnOk};
ghost use Rattle.audit_core.specs.Reports.{ask_part, key_part, number_line, port_part, put_line};

use crate::Put;
use schedule_text::{put_hex, put_number};
use std::alloc::AllocError;

// Appends the line of a signing request from the word of its key on, of its port, and of its ask.
fn put_key(out: &mut Vec<u8>, put: &Put) -> Result<(), AllocError>
    ensures { OnOk result (out.new.items ≡ out.old.items ++ key_part put.now) }
{
    out.extend_from_slice(b" key ")?;
    put_hex(out, put.blob.as_slice())?;
    out.extend_from_slice(b"\n")
}

fn put_port(out: &mut Vec<u8>, put: &Put) -> Result<(), AllocError>
    ensures { OnOk result (out.new.items ≡ out.old.items ++ port_part put.now) }
{
    out.extend_from_slice(b" port ")?;
    put_number(out, put.port)?;
    put_key(out, put)
}

fn put_ask(out: &mut Vec<u8>, put: &Put) -> Result<(), AllocError>
    ensures { OnOk result (out.new.items ≡ out.old.items ++ ask_part put.now) }
{
    out.extend_from_slice(b" ask ")?;
    put_number(out, put.ask)?;
    put_port(out, put)
}

/// Appends the line of a signing request. Refused memory may leave a front of it.
#[tactic(auto, unfolding(crate::specs::Reports::put_line))]
pub fn put_sign(out: &mut Vec<u8>, put: &Put) -> Result<(), AllocError>
    ensures { OnOk result (out.new.items ≡ out.old.items ++ put_line put.now) }
{
    out.extend_from_slice(b"sign ")?;
    put_number(out, put.line)?;
    put_ask(out, put)
}

/// Appends a line of a word, with the space behind it, and a number. Refused memory may leave a front of it.
#[tactic(auto, unfolding(crate::specs::Reports::number_line))]
pub fn put_total(out: &mut Vec<u8>, word: &[u8], number: u64) -> Result<(), AllocError>
    ensures { OnOk result (out.new.items ≡ out.old.items ++ number_line word.now number) }
{
    out.extend_from_slice(word)?;
    put_number(out, number)?;
    out.extend_from_slice(b"\n")
}
