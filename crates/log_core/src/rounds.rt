//! The loop over reads.

ghost use Rattle.std.specs.Prelude.{◌≡◌, ◌<◌, IfOk, MatchOption, None, length};
ghost use Rattle.agent_core.specs.Parts.{settings_of};
ghost use Rattle.agent_model.specs.State.{Settings as Chosen};
ghost use Rattle.log_core.specs.Logging.{IsLonger, IsReady, IsUnderWay};
ghost use Rattle.log_core.specs.Program.{Logs};
ghost use Rattle.replay_run.specs.Claims.{Seen};
ghost use Rattle.world_ports.specs.Streams.{OnlyReads, OnlyWrites};

use crate::log_run::LogRun;
use crate::status::LogStatus;
use agent_core::Settings;
use std::alloc::{AllocError, Global};
use world_ports::{Pulled, Sink, Source};

// How many bytes are read at once at the most.
const ROOM: usize = 65_536;

// Room for reads.
fn zeros(alloc: Global, size: usize) -> Result<Vec<u8>, AllocError>
    ensures { IfOk result (λ room. length room.items ≡ size) }
{
    vec![in alloc; 0; size]
}

// Reads once, and runs what was read.
fn run_round<I: Source, O: Sink>(
    log: &mut LogRun,
    room: &mut [u8],
    input: &mut I,
    output: &mut O,
) -> Option<LogStatus>
    requires room { 0 < length room.old }
    requires ready { IsReady log.old }
    ensures round { (chosen : Chosen) (start : Seen) →
        IsUnderWay chosen start (record { input = I.seen input.old; output = O.seen output.old }) log.old →
        MatchOption result
        (IsUnderWay chosen start (record { input = I.seen input.new; output = O.seen output.new }) log.new
        × IsLonger log.old log.new)
        (λ ended. Logs chosen ended start
        (record { input = I.seen input.new; output = O.seen output.new })) }
    ensures input_only { OnlyReads (I.seen input.old) (I.seen input.new) }
    ensures output_only { OnlyWrites (O.seen output.old) (O.seen output.new) }
{
    match input.read(room) {
        Ok(Pulled::Bytes(n)) => log.run_piece(&room[..n as usize], output),
        Ok(Pulled::End) => Some(log.finish(output)),
        Err(_) => Some(LogStatus::ReadFault),
    }
}

// Reads into this room until the log ends.
fn run_rounds<I: Source, O: Sink>(
    alloc: Global,
    settings: Settings,
    room: &mut [u8],
    input: &mut I,
    output: &mut O,
) -> LogStatus
    requires { 0 < length room.old }
    ensures logs { Logs (settings_of settings) result
        (record { input = I.seen input.old; output = O.seen output.old })
        (record { input = I.seen input.new; output = O.seen output.new }) }
    ensures input_only { OnlyReads (I.seen input.old) (I.seen input.new) }
    ensures output_only { OnlyWrites (O.seen output.old) (O.seen output.new) }
{
    let mut log = LogRun::new(alloc, settings);
    'rounds: loop {
        if let Some(ended) = run_round(&mut log, room, input, output) {
            return ended;
        }
    }
}

/// Writes the log of the record that the source gives, whose agent has these settings: `Logs` of specs/Program.antt says
/// what each end means.
///
/// The record's lines are run as they are read, and the line of a request is written once the line of the record that
/// brought its fate was run. What is held is what open clients sent that isn't answered, the keys that were added, the
/// front of a line and what one read brought.
pub fn write_log<I: Source, O: Sink>(
    alloc: Global,
    settings: Settings,
    input: &mut I,
    output: &mut O,
) -> LogStatus
    ensures logs { Logs (settings_of settings) result
        (record { input = I.seen input.old; output = O.seen output.old })
        (record { input = I.seen input.new; output = O.seen output.new }) }
    ensures input_only { OnlyReads (I.seen input.old) (I.seen input.new) }
    ensures output_only { OnlyWrites (O.seen output.old) (O.seen output.new) }
{
    let Ok(mut room) = zeros(alloc, ROOM) else {
        return LogStatus::Memory;
    };
    run_rounds(alloc, settings, &mut room, input, output)
}
