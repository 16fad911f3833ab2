//! What a record prints, compared with deeds piece by piece, and where they first differ.

ghost use Rattle.std.specs.Prelude.{◌≡◌, ◌≤◌, ◌<◌, ◌+◌, ◌-◌, ◌^◌, ◌==◌, ◌++◌, ◌∷◌, List, ℕ, IfOk, [], false, if◌then◌else◌, suc};
ghost use Rattle.agent_core.specs.Parts.{settings_of};
ghost use Rattle.audit_core.specs.Passes.{difference, finding_by, finding_of};
ghost use Rattle.audit_core.specs.Reports.{verdict_of};

use crate::lines::{put_end, run_next};
use agent_core::Settings;
use replay_run::Replay;
use std::alloc::{AllocError, Global};

/// What a record and deeds were found to be.
#[derive(Clone, Copy, Debug, PartialEq, Eq)]
pub enum Finding {
    /// The record is run to its end, and prints the deeds.
    Agrees,
    /// The deeds differ, first at this line.
    Differs { line: u64 },
    /// This line of the record is refused.
    IsBad { line: u64 },
}

/// How far a text was compared: the bytes and the line up to which it agrees, and whether it differs there.
#[derive(Clone, Copy, Debug)]
pub struct Matching {
    pub at: usize,
    pub line: u64,
    pub differs: bool,
}

impl Matching {
    fn new() -> Matching
        ensures { result ≡ record { at = 0; line = 1; differs = false } }
    {
        Matching {
            at: 0,
            line: 1,
            differs: false,
        }
    }

    // One more byte.
    fn take(self, byte: u8, deeds: &[u8]) -> Matching
        requires { self.line ≤ self.at + 1 }
        ensures line { result.line ≤ result.at + 1 }
        ensures same { (more : List ℕ) → difference result more deeds.now
            ≡ difference self (byte ∷ more) deeds.now }
    {
        if self.differs {
            return self;
        }
        match deeds.get(self.at) {
            Some(other) if *other == byte => Matching {
                at: self.at + 1,
                line: next_line(self.line, byte),
                differs: false,
            },
            _ => Matching {
                at: self.at,
                line: self.line,
                differs: true,
            },
        }
    }

    // The first difference, where no more bytes come.
    fn end(self, deeds: &[u8]) -> Option<u64>
        ensures { result ≡ difference self [] deeds.now }
    {
        if self.differs {
            return Some(self.line);
        }
        match deeds.get(self.at) {
            Some(_) => Some(self.line),
            None => None,
        }
    }
}

// A line is behind its LF.
fn next_line(line: u64, byte: u8) -> u64
    requires { line < 2 ^ 64 - 1 }
    ensures { result ≡ (if byte == 10 then suc line else line) }
{
    if byte == b'\n' { line + 1 } else { line }
}

// More bytes.
fn take_all(matching: Matching, bytes: &[u8], deeds: &[u8]) -> Matching
    requires { matching.line ≤ matching.at + 1 }
    ensures line { result.line ≤ result.at + 1 }
    ensures same { (more : List ℕ) → difference result more deeds.now
        ≡ difference matching (bytes.now ++ more) deeds.now }
{
    let mut matching = matching;
    'bytes: for byte in bytes {
        matching = matching.take(*byte, deeds);
    }
    matching
}

// What was found, at the end of a run.
fn found(run: &Replay, difference: Option<u64>) -> Finding
    ensures { result ≡ finding_by run.now.refused difference run.now.line }
{
    match run.refused() {
        Some(_) => Finding::IsBad { line: run.line() },
        None => match difference {
            Some(line) => Finding::Differs { line },
            None => Finding::Agrees,
        },
    }
}

/// Runs the record to its end, or to the first line that is refused, and compares what it prints with the deeds.
pub fn compare(
    alloc: Global,
    settings: Settings,
    text: &[u8],
    deeds: &[u8],
) -> Result<Finding, AllocError>
    ensures { IfOk result (λ found. found ≡ finding_of (verdict_of (settings_of settings) text.now deeds.now)) }
{
    let mut run = Replay::new(alloc, settings);
    let mut out = Vec::new(alloc);
    let mut matching = Matching::new();
    let mut rest = text;
    'lines: while let Some(size) = run_next(&mut run, rest, &mut out)? {
        matching = take_all(matching, &out, deeds);
        out.clear();
        rest = &rest[size..];
    }
    put_end(&run, &mut out)?;
    let matching = take_all(matching, &out, deeds);
    Ok(found(&run, matching.end(deeds)))
}
