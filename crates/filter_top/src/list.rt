//! Reads the text of a list of public keys, one a line, into the set of their blobs.

ghost use Rattle.std.specs.Prelude.{◌≡◌, ◌==◌, ◌∷◌, [], List, ℕ, Ok, MatchOption, MatchResult, position, suc};
ghost use Rattle.key_file.specs.PublicLines.{parts};
ghost use Rattle.filter_core.specs.Slots.{blobs_of};
ghost use Rattle.filter_top.specs.Lists.{IsRefusal, Puts, blobs_in, blobs_onto, with_blob};
ghost use Rattle.filter_top.specs.declared.list.ListFault.TheVariants.{Memory};

use key_file::{PubFault, read_pub_line};
use std::alloc::Global;
use std::collections::BTreeSet;
use std::marker::Model;

/// Why a list is refused.
#[derive(Clone, Copy, Debug, PartialEq, Eq)]
pub enum ListFault {
    /// This line, counted from 1, is no public key's.
    Line { line: u64, fault: PubFault },
    /// Memory ran out.
    Memory,
}

/// The lines of a text that are left.
#[derive(Drop)]
struct Lines<'a> {
    // What stands behind the LF that ended the last line, and `None` where none did.
    rest: Option<&'a [u8]>,
}

impl<'a> Model for Lines<'a> {
    ghost use Rattle.std.specs.Prelude.{List, ℕ};
    ghost use Rattle.filter_top.specs.Lists.{lines_left};

    ghost Value = { List (List ℕ) };

    ghost view = { λ lines. lines_left lines.rest };
}

// Whether the byte ends a line.
fn ends_line(byte: u8) -> bool
    ensures { result ≡ (byte == 10) }
{
    byte == b'\n'
}

// The place of the first LF.
fn end_of_line(text: &[u8]) -> Option<usize>
    ensures { result ≡ position (λ byte. byte == 10) text.now }
{
    text.iter().position(|byte| ends_line(*byte))
}

impl<'a> Lines<'a> {
    fn of(text: &'a [u8]) -> Lines<'a>
        ensures { result ≡ parts 10 text.now }
    {
        Lines { rest: Some(text) }
    }

    // Takes the next line.
    fn next_line(&mut self) -> Option<&'a [u8]>
        ensures { MatchOption result
            ((self.old ≡ []) × (self.new ≡ []))
            (λ line. self.old ≡ line.now ∷ self.new) }
    {
        let rest = self.rest?;
        match end_of_line(rest) {
            Some(end) => {
                self.rest = Some(&rest[end + 1..]);
                Some(&rest[..end])
            }
            None => {
                self.rest = None;
                Some(rest)
            }
        }
    }
}

// Puts the blob that the line of this number stands for: none where it is empty.
fn put_line(
    alloc: Global,
    blobs: &mut BTreeSet<Vec<u8>>,
    number: u64,
    line: &[u8],
) -> Result<(), ListFault>
    ensures { (lines : List (List ℕ)) → Puts result
        (blobs_onto (blobs_of blobs.old) number (line.now ∷ lines))
        (blobs_onto (blobs_of blobs.new) (suc number) lines) }
{
    if line.is_empty() {
        return Ok(());
    }
    match read_pub_line(alloc, line) {
        Ok(blob) => put(blobs, blob),
        Err(PubFault::Memory) => Err(ListFault::Memory),
        Err(fault) => Err(ListFault::Line {
            line: number,
            fault,
        }),
    }
}

// Puts a blob in its place.
fn put(blobs: &mut BTreeSet<Vec<u8>>, blob: Vec<u8>) -> Result<(), ListFault>
    ensures { MatchResult result
        (λ _. blobs_of blobs.new ≡ with_blob (blobs_of blobs.old) blob.items)
        (λ fault. fault ≡ Memory) }
{
    let Ok(_) = blobs.insert(blob) else {
        return Err(ListFault::Memory);
    };
    Ok(())
}

/// The blobs of the keys of a list.
pub fn read_list(alloc: Global, text: &[u8]) -> Result<BTreeSet<Vec<u8>>, ListFault>
    ensures { MatchResult result
        (λ blobs. blobs_in text.now ≡ Ok (blobs_of blobs))
        (λ fault. IsRefusal fault (blobs_in text.now)) }
{
    let mut blobs = BTreeSet::new(alloc);
    let mut number = 1;
    let mut lines = Lines::of(text);
    'lines: while let Some(line) = lines.next_line() {
        put_line(alloc, &mut blobs, number, line)?;
        // No text in memory has so many lines.
        number = number.checked_add(1).ok_or(ListFault::Memory)?;
    }
    Ok(blobs)
}
