//! A report that is written after the record was compared, as a second run puts its lines.

ghost use Rattle.std.specs.Prelude.{◌≡◌, ◌+◌, ◌++◌, codes, IfErr, IfOk, OnOk, [], length};
ghost use Rattle.std.specs.List.{flat_map};
ghost use Rattle.agent_core.specs.Parts.{settings_of};
ghost use Rattle.audit_core.specs.Puts.{puts, puts_from};
ghost use Rattle.audit_core.specs.Reports.{number_line, put_line};
ghost use Rattle.audit_core.specs.Writing.{Lists, Writes, report_by, yes_report};
ghost use Rattle.audit_core.specs.declared.writing.Stop.TheVariants as stops;
ghost use Rattle.replay_run.specs.Counts.{IsCounted};
ghost use Rattle.replay_run.specs.Replay.{parts_of};
ghost use Rattle.world_ports.specs.Streams.{OnlyWrites};

use crate::Put;
use crate::comparison::Finding;
use crate::lines::run_next;
use crate::noting::Noting;
use crate::report::{put_sign, put_total};
use agent_core::Settings;
use replay_run::Replay;
use std::alloc::{AllocError, Global};
use world_ports::{Sink, write_all};

/// Why not all of a report was written.
#[derive(Clone, Copy, Debug, PartialEq, Eq)]
pub enum Stop {
    /// Memory ran out. Says nothing of the record.
    Memory,
    /// A write failed. The sink counted that.
    Write,
}

// Writes a text.
fn write_text<O: Sink>(text: &[u8], output: &mut O) -> Result<(), Stop>
    ensures writes { Writes result text.now (O.seen output.old) (O.seen output.new) }
    ensures only { OnlyWrites (O.seen output.old) (O.seen output.new) }
{
    match write_all(output, text) {
        Ok(()) => Ok(()),
        Err(_) => Err(Stop::Write),
    }
}

// Appends the lines of these requests.
fn put_signs(out: &mut Vec<u8>, puts: &[Put]) -> Result<(), AllocError>
    ensures { OnOk result (out.new.items ≡ out.old.items ++ flat_map put_line puts.now) }
{
    'puts: for put in puts {
        put_sign(out, put)?;
    }
    Ok(())
}

// Writes the lines of these requests.
fn write_signs<O: Sink>(alloc: Global, puts: &[Put], output: &mut O) -> Result<(), Stop>
    ensures writes { Writes result (flat_map put_line puts.now)
        (O.seen output.old) (O.seen output.new) }
    ensures only { OnlyWrites (O.seen output.old) (O.seen output.new) }
{
    let mut text = Vec::new(alloc);
    match put_signs(&mut text, puts) {
        Ok(()) => write_text(&text, output),
        Err(_) => Err(Stop::Memory),
    }
}

// Writes a line of a word, with the space behind it, and a number.
fn write_total<O: Sink>(alloc: Global, word: &[u8], number: u64, output: &mut O) -> Result<(), Stop>
    ensures writes { Writes result (number_line word.now number)
        (O.seen output.old) (O.seen output.new) }
    ensures only { OnlyWrites (O.seen output.old) (O.seen output.new) }
{
    let mut text = Vec::new(alloc);
    match put_total(&mut text, word, number) {
        Ok(()) => write_text(&text, output),
        Err(_) => Err(Stop::Memory),
    }
}

// Counts on. No record in memory puts so many that it can't.
fn counted(count: u64, more: usize) -> Result<u64, Stop>
    ensures ok { IfOk result (λ total. total ≡ count + more) }
    ensures err { IfErr result (λ stop. stop ≡ stops.Memory) }
{
    count.checked_add(more as u64).ok_or(Stop::Memory)
}

// Writes the lines of these requests, and counts them on.
fn list_puts<O: Sink>(alloc: Global, puts: &[Put], count: u64, output: &mut O) -> Result<u64, Stop>
    ensures lists { Lists result count puts.now (O.seen output.old) (O.seen output.new) }
    ensures only { OnlyWrites (O.seen output.old) (O.seen output.new) }
{
    match write_signs(alloc, puts, output) {
        Ok(()) => counted(count, puts.len()),
        Err(stop) => Err(stop),
    }
}

// Runs a record on, and writes the line of each request that it puts. Gives how many there are.
fn list_run<O: Sink>(
    alloc: Global,
    run: &mut Replay,
    recording: &[u8],
    output: &mut O,
) -> Result<u64, Stop>
    requires { IsCounted run.old }
    ensures lists { Lists result 0 (puts_from run.old (parts_of recording.now))
        (O.seen output.old) (O.seen output.new) }
    ensures only { OnlyWrites (O.seen output.old) (O.seen output.new) }
{
    let mut noting = Noting::new(alloc);
    let mut rest = recording;
    let mut count = 0;
    'lines: loop {
        match run_next(run, rest, &mut noting) {
            Ok(Some(size)) => {
                count = list_puts(alloc, &noting.puts, count, output)?;
                noting.puts.clear();
                rest = &rest[size..];
            }
            Ok(None) => return list_puts(alloc, &noting.puts, count, output),
            Err(_) => return Err(Stop::Memory),
        }
    }
}

// Runs a record anew, and writes the line of each request that it puts, and how many there are.
fn write_yes<O: Sink>(
    alloc: Global,
    settings: Settings,
    recording: &[u8],
    output: &mut O,
) -> Result<(), Stop>
    ensures writes { Writes result (yes_report (puts (settings_of settings) recording.now))
        (O.seen output.old) (O.seen output.new) }
    ensures only { OnlyWrites (O.seen output.old) (O.seen output.new) }
{
    let mut run = Replay::new(alloc, settings);
    match list_run(alloc, &mut run, recording, output) {
        Ok(count) => write_total(alloc, b"yes ", count, output),
        Err(stop) => Err(stop),
    }
}

/// Writes the report of what was found of a record.
pub fn write_report<O: Sink>(
    alloc: Global,
    settings: Settings,
    recording: &[u8],
    finding: Finding,
    output: &mut O,
) -> Result<(), Stop>
    ensures writes { Writes result (report_by finding (puts (settings_of settings) recording.now))
        (O.seen output.old) (O.seen output.new) }
    ensures only { OnlyWrites (O.seen output.old) (O.seen output.new) }
{
    match finding {
        Finding::Agrees => write_yes(alloc, settings, recording, output),
        Finding::Differs { line } => write_total(alloc, b"no ", line, output),
        Finding::IsBad { line } => write_total(alloc, b"bad ", line, output),
    }
}
