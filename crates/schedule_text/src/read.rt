//! Reading a line.

ghost use Rattle.std.specs.Prelude.{◌≡◌, IfOk, IfErr};
ghost use Rattle.schedule_text.specs.Fields.{fields_of};
ghost use Rattle.schedule_text.specs.Lines.{IsFaultOf, bytes_field, count_field, number_field, only_number};
ghost use Rattle.schedule_text.specs.Lines.{at_step, format_step, hear_step, join_step, started_step, take_step, step_of};
ghost use Rattle.schedule_text.specs.Lines.{step_of_fields, ticket_field};

use crate::fields::Fields;
use crate::numbers::number;
use crate::{LineFault, Step};
use hex::FromHexError;
use plain_lists::Bytes;
use std::alloc::Global;
use world_ports::{Door, Moment};

/// How long a line may be, in bytes without its LF.
const MAX_LINE: usize = 65536;

/// Reads one line, given without its LF.
///
/// `UnknownPort` and `Order` are never answered: the run finds them.
#[tactic(auto, unfolding(crate::specs::Lines::step_of))]
pub fn read_line(alloc: Global, line: &[u8]) -> Result<Step, LineFault>
    ensures found { IfOk result (λ step. step_of line.now ≡ Ok step) }
    ensures exact { IfErr result (IsFaultOf (step_of line.now)) }
{
    if line.len() > MAX_LINE {
        return Err(LineFault::TooLong);
    }
    match line {
        [] | [b'#', ..] => Ok(Step::Skip),
        _ => read_fields(alloc, line),
    }
}

fn read_fields(alloc: Global, line: &[u8]) -> Result<Step, LineFault>
    ensures found { IfOk result (λ step. step_of_fields (fields_of line.now) ≡ Ok step) }
    ensures exact { IfErr result (IsFaultOf (step_of_fields (fields_of line.now))) }
{
    let mut fields = Fields::of(line);
    let Some(word) = fields.next_field() else {
        return Err(LineFault::Word);
    };
    if word == b"at".as_slice() {
        read_at(fields)
    } else if word == b"join".as_slice() {
        read_join(fields)
    } else if word == b"hear".as_slice() {
        read_hear(alloc, fields)
    } else if word == b"end".as_slice() {
        Ok(Step::End(read_only_number(fields)?))
    } else if word == b"hold".as_slice() {
        Ok(Step::Hold(read_only_number(fields)?))
    } else if word == b"free".as_slice() {
        Ok(Step::Free(read_only_number(fields)?))
    } else if word == b"take".as_slice() {
        read_take(fields)
    } else if word == b"started".as_slice() {
        read_started(fields)
    } else if word == b"failed".as_slice() {
        Ok(Step::Failed(read_only_number(fields)?))
    } else if word == b"schedule".as_slice() {
        read_format(fields)
    } else {
        Err(LineFault::Word)
    }
}

/// The rest of the line `schedule 2`.
fn read_format(mut fields: Fields<'_>) -> Result<Step, LineFault>
    ensures { result ≡ format_step fields.entry }
{
    let (Some(format), None) = (fields.next_field(), fields.next_field()) else {
        return Err(LineFault::Word);
    };
    match format {
        b"2" => Ok(Step::Format2),
        _ => Err(LineFault::Word),
    }
}

/// The rest of a line `at MONO WALL`.
fn read_at(mut fields: Fields<'_>) -> Result<Step, LineFault>
    ensures { result ≡ at_step fields.entry }
{
    let (Some(mono), Some(wall), None) = (
        fields.next_field(),
        fields.next_field(),
        fields.next_field(),
    ) else {
        return Err(LineFault::Word);
    };
    let mono = read_number(mono)?;
    let wall = read_number(wall)?;
    Ok(Step::At(Moment { mono, wall }))
}

/// The rest of a line `join NAME`.
fn read_join(mut fields: Fields<'_>) -> Result<Step, LineFault>
    ensures { result ≡ join_step fields.entry }
{
    let (Some(name), None) = (fields.next_field(), fields.next_field()) else {
        return Err(LineFault::Word);
    };
    match name {
        b"client" => Ok(Step::Join(Door::Clients)),
        b"child" => Ok(Step::Join(Door::Children)),
        _ => Err(LineFault::Word),
    }
}

/// The rest of a line `hear PORT HEX`.
fn read_hear(alloc: Global, mut fields: Fields<'_>) -> Result<Step, LineFault>
    ensures found { IfOk result (λ step. hear_step fields.entry ≡ Ok step) }
    ensures exact { IfErr result (IsFaultOf (hear_step fields.entry)) }
{
    let (Some(port), Some(bytes), None) = (
        fields.next_field(),
        fields.next_field(),
        fields.next_field(),
    ) else {
        return Err(LineFault::Word);
    };
    Ok(Step::Hear {
        port: read_number(port)?,
        bytes: read_bytes(alloc, bytes)?,
    })
}

/// The rest of a line `take PORT N`.
fn read_take(mut fields: Fields<'_>) -> Result<Step, LineFault>
    ensures { result ≡ take_step fields.entry }
{
    let (Some(port), Some(count), None) = (
        fields.next_field(),
        fields.next_field(),
        fields.next_field(),
    ) else {
        return Err(LineFault::Word);
    };
    let port = read_number(port)?;
    let count = read_count(count)?;
    Ok(Step::Take { port, count })
}

/// The rest of a line `started JOB HEX`.
fn read_started(mut fields: Fields<'_>) -> Result<Step, LineFault>
    ensures { result ≡ started_step fields.entry }
{
    let (Some(job), Some(ticket), None) = (
        fields.next_field(),
        fields.next_field(),
        fields.next_field(),
    ) else {
        return Err(LineFault::Word);
    };
    let job = read_number(job)?;
    let ticket = read_ticket(ticket)?;
    Ok(Step::Started { job, ticket })
}

/// The rest of a line of a word and one number.
fn read_only_number(mut fields: Fields<'_>) -> Result<u64, LineFault>
    ensures { result ≡ only_number fields.entry }
{
    let (Some(field), None) = (fields.next_field(), fields.next_field()) else {
        return Err(LineFault::Word);
    };
    read_number(field)
}

fn read_number(field: &[u8]) -> Result<u64, LineFault>
    ensures { result ≡ number_field field.now }
{
    number(field).ok_or(LineFault::Number)
}

fn read_count(field: &[u8]) -> Result<u64, LineFault>
    ensures { result ≡ count_field field.now }
{
    match read_number(field)? {
        0 => Err(LineFault::Number),
        count => Ok(count),
    }
}

fn read_ticket(field: &[u8]) -> Result<[u8; 16], LineFault>
    ensures { result ≡ ticket_field field.now }
{
    let mut ticket = [0; 16];
    match hex::decode_to_slice(field, &mut ticket) {
        Ok(()) => Ok(ticket),
        Err(_) => Err(LineFault::Hex),
    }
}

fn read_bytes(alloc: Global, field: &[u8]) -> Result<Bytes, LineFault>
    ensures found { IfOk result (λ bytes. bytes_field field.now ≡ Ok bytes) }
    ensures exact { IfErr result (IsFaultOf (bytes_field field.now)) }
{
    if field.is_empty() {
        return Err(LineFault::Hex);
    }
    match hex::decode(alloc, field) {
        Ok(bytes) => Ok(Bytes::from_vec(bytes)),
        Err(FromHexError::OutOfMemory) => Err(LineFault::Memory),
        Err(_) => Err(LineFault::Hex),
    }
}
