//! The loop over reads.

ghost use Rattle.std.specs.Prelude.{◌≡◌, ◌<◌, IfOk, MatchOption, length, vec_len};
ghost use Rattle.agent_core.specs.Parts.{settings_of};
ghost use Rattle.agent_model.specs.State.{Settings as Chosen};
ghost use Rattle.replay_run.specs.Claims.{Seen, Ends, HandsBack};
ghost use Rattle.replay_run.specs.Feeding.{IsReady};
ghost use Rattle.replay_run.specs.Finishing.{agent_at, state_left};
ghost use Rattle.replay_run.specs.Rounds.{IsLonger, IsUnderWay};
ghost use Rattle.world_ports.specs.Streams.{OnlyReads, OnlyWrites};

use crate::limits::ROOM;
use crate::{Feed, RunEnd};
use agent_core::{Agent, Settings};
use std::alloc::{AllocError, Global};
use world_ports::{Pulled, Sink, Source};

// Room for reads.
fn zeros(alloc: Global, size: usize) -> Result<Vec<u8>, AllocError>
    ensures { IfOk result (λ room. length room.items ≡ size) }
{
    vec![in alloc; 0; size]
}

// Reads once, and runs what was read.
fn run_round<I: Source, O: Sink>(
    feed: &mut Feed,
    room: &mut [u8],
    input: &mut I,
    output: &mut O,
) -> Option<RunEnd>
    requires room { 0 < length room.old }
    requires ready { IsReady feed.old }
    ensures round { (chosen : Chosen) (start : Seen) →
        IsUnderWay chosen start (record { input = I.seen input.old; output = O.seen output.old }) feed.old →
        MatchOption result
        (IsUnderWay chosen start (record { input = I.seen input.new; output = O.seen output.new }) feed.new
        × IsLonger feed.old feed.new)
        (λ end. Ends chosen end start (record { input = I.seen input.new; output = O.seen output.new })
        × HandsBack chosen end (agent_at end feed.new.run) start
        (record { input = I.seen input.new; output = O.seen output.new })) }
    ensures input_only { OnlyReads (I.seen input.old) (I.seen input.new) }
    ensures output_only { OnlyWrites (O.seen output.old) (O.seen output.new) }
{
    match input.read(room) {
        Ok(Pulled::Bytes(n)) => feed.run_piece(&room[..n as usize], output),
        Ok(Pulled::End) => Some(feed.finish(output)),
        Err(_) => Some(RunEnd::ReadFault),
    }
}

// Reads into this room until the run ends.
fn run_rounds<I: Source, O: Sink>(
    alloc: Global,
    settings: Settings,
    room: &mut [u8],
    input: &mut I,
    output: &mut O,
) -> (RunEnd, Option<Agent>)
    requires { 0 < length room.old }
    ensures ends { Ends (settings_of settings) result.0
        (record { input = I.seen input.old; output = O.seen output.old })
        (record { input = I.seen input.new; output = O.seen output.new }) }
    ensures agent { HandsBack (settings_of settings) result.0 (state_left result.1)
        (record { input = I.seen input.old; output = O.seen output.old })
        (record { input = I.seen input.new; output = O.seen output.new }) }
    ensures input_only { OnlyReads (I.seen input.old) (I.seen input.new) }
    ensures output_only { OnlyWrites (O.seen output.old) (O.seen output.new) }
{
    let mut feed = Feed::new(alloc, settings);
    'rounds: loop {
        if let Some(end) = run_round(&mut feed, room, input, output) {
            return (end, feed.into_agent(end));
        }
    }
}

/// Runs the schedule that the source gives, and writes to the sink what it prints: `Ends` of
/// specs/Claims.antt says what each end means.
///
/// Lines are run as they are read, and what they print is written before the next read. A line may
/// have 65536 bytes, and a schedule 2^60. Reading stops at the first refused line, and nothing is
/// written after a failed write. The limits of `settings` are those of format 2 alone. The agent is handed back at `Done` and `Refused`, as the last line that was run left it.
pub fn run_replay<I: Source, O: Sink>(
    alloc: Global,
    settings: Settings,
    input: &mut I,
    output: &mut O,
) -> (RunEnd, Option<Agent>)
    ensures ends { Ends (settings_of settings) result.0
        (record { input = I.seen input.old; output = O.seen output.old })
        (record { input = I.seen input.new; output = O.seen output.new }) }
    ensures agent { HandsBack (settings_of settings) result.0 (state_left result.1)
        (record { input = I.seen input.old; output = O.seen output.old })
        (record { input = I.seen input.new; output = O.seen output.new }) }
    ensures input_only { OnlyReads (I.seen input.old) (I.seen input.new) }
    ensures output_only { OnlyWrites (O.seen output.old) (O.seen output.new) }
{
    let Ok(mut room) = zeros(alloc, ROOM) else {
        return (RunEnd::Memory, None);
    };
    run_rounds(alloc, settings, &mut room, input, output)
}
