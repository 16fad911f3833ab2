//! Writes the lines `hold` and `hear` of a record, the latter in pieces of at most 16384 bytes.

ghost use Rattle.std.specs.Prelude.{◌≡◌, ◌++◌, ◌<◌, IfOk, OnOk, drop, length, take};
ghost use Rattle.schedule_text.specs.declared.step.Step.TheVariants as steps;
ghost use Rattle.schedule_text.specs.Steps.{step_line};
ghost use Rattle.record_world.specs.Recording.{hear_steps, hold_steps, hold_text, lines, longest_piece};

use schedule_text::{put_hex, put_number};
use std::alloc::AllocError;

/// The most bytes that a line tells of.
const LONGEST_PIECE: usize = 16384;

/// Appends the lines of bytes that leave a port, which is held before its first.
#[tactic(auto, using(crate::proofs::HearLemmas::hold_ok))]
pub fn put_hearing(
    text: &mut Vec<u8>,
    is_held: bool,
    port: u64,
    bytes: &[u8],
) -> Result<(), AllocError>
    ensures { OnOk result (text.new.items ≡ text.old.items ++ lines (hold_steps is_held port bytes.now)) }
{
    if bytes.is_empty() {
        return Ok(());
    }
    put_hold(text, is_held, port)?;
    put_hears(text, port, bytes)
}

// Appends the line that holds a port, unless it is held.
#[tactic(auto, unfolding(schedule_text::specs::Steps::step_line))]
fn put_hold(text: &mut Vec<u8>, is_held: bool, port: u64) -> Result<(), AllocError>
    ensures { OnOk result (text.new.items ≡ text.old.items ++ hold_text is_held port) }
{
    if is_held {
        return Ok(());
    }
    text.extend_from_slice(b"hold ")?;
    put_number(text, port)?;
    text.extend_from_slice(b"\n")
}

#[tactic(auto, using(crate::proofs::HearLemmas::hears_next, crate::proofs::HearLemmas::hears_end))]
fn put_hears(text: &mut Vec<u8>, port: u64, bytes: &[u8]) -> Result<(), AllocError>
    ensures { OnOk result (text.new.items ≡ text.old.items ++ lines (hear_steps port bytes.now)) }
{
    let mut rest = bytes;
    'pieces: while !rest.is_empty() {
        let later = put_next(text, port, rest)?;
        rest = later;
    }
    Ok(())
}

// Appends the line of the first piece, and answers what follows that.
#[tactic(auto, using(crate::proofs::HearLemmas::cut_front, crate::proofs::HearLemmas::cut_rest))]
fn put_next<'r>(text: &mut Vec<u8>, port: u64, rest: &'r [u8]) -> Result<&'r [u8], AllocError>
    requires { 0 < length rest.now }
    ensures some { 0 < length rest.now }
    ensures later { IfOk result (λ later. later.now ≡ drop longest_piece rest.now) }
    ensures fewer { IfOk result (λ later. length later.now < length rest.now) }
    ensures text { OnOk result (text.new.items
        ≡ text.old.items ++ step_line (steps.Hear port (take longest_piece rest.now))) }
{
    let len = rest.len().min(LONGEST_PIECE);
    let (piece, later) = rest.split_at(len);
    put_hear(text, port, piece)?;
    Ok(later)
}

#[tactic(auto, unfolding(schedule_text::specs::Steps::step_line))]
fn put_hear(text: &mut Vec<u8>, port: u64, piece: &[u8]) -> Result<(), AllocError>
    ensures { OnOk result (text.new.items ≡ text.old.items ++ step_line (steps.Hear port piece.now)) }
{
    text.extend_from_slice(b"hear ")?;
    put_number(text, port)?;
    text.extend_from_slice(b" ")?;
    put_hex(text, piece)?;
    text.extend_from_slice(b"\n")
}
