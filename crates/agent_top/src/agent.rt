//! The command `replay`.

ghost use Rattle.std.specs.Prelude.{◌≡◌, ◌≢◌, ◌↔◌, None};
ghost use Rattle.agent_model.specs.State.{Settings};
ghost use Rattle.agent_top.specs.Program.{ReplaysExactly, Completes, RunsLawfully, status_of};
ghost use Rattle.agent_top.specs.Words.{IsReplay, replay_settings, texts_of};
ghost use Rattle.replay_run.specs.Claims.{Seen};
ghost use Rattle.world_ports.specs.Streams.{OnlyReads, OnlyWrites};

use crate::status::Status;
use crate::words::read_replay;
use replay_run::{RunEnd, run_replay};
use std::alloc::Global;
use world_ports::{Sink, Source};

// The status of a run that ended so.
pub fn status_of_end(end: RunEnd) -> Status
    ensures { result ≡ status_of end }
{
    match end {
        RunEnd::Done => Status::Done,
        RunEnd::Refused { line, fault } => Status::ScheduleRefused { line, fault },
        RunEnd::Memory => Status::Memory,
        RunEnd::ReadFault => Status::ReadFault,
        RunEnd::WriteFault => Status::WriteFault,
    }
}

// Runs the schedule that the input gives, where the words are those of `replay`, and does nothing where they aren't.
pub fn replay_main<I: Source, O: Sink>(
    alloc: Global,
    words: &[String],
    input: &mut I,
    output: &mut O,
) -> Status
    ensures replays { (chosen : Settings) → IsReplay words.now chosen → ReplaysExactly chosen result
        (record { input = I.seen input.old; output = O.seen output.old })
        (record { input = I.seen input.new; output = O.seen output.new }) }
    ensures completes { (chosen : Settings) → IsReplay words.now chosen → Completes chosen result
        (record { input = I.seen input.old; output = O.seen output.old })
        (record { input = I.seen input.new; output = O.seen output.new }) }
    ensures lawful { (chosen : Settings) → IsReplay words.now chosen → RunsLawfully chosen
        (record { input = I.seen input.old; output = O.seen output.old })
        (record { input = I.seen input.new; output = O.seen output.new }) }
    ensures usage { (result ≡ Status.Usage) ↔ (replay_settings (texts_of words.now) ≡ None) }
    ensures unused { replay_settings (texts_of words.now) ≡ None
        → (input.new ≡ input.old) × (output.new ≡ output.old) }
    ensures no_socket { (result ≢ Status.BindFault) × (result ≢ Status.PollFault) }
    ensures input_only { OnlyReads (I.seen input.old) (I.seen input.new) }
    ensures output_only { OnlyWrites (O.seen output.old) (O.seen output.new) }
{
    let Some(settings) = read_replay(words) else {
        return Status::Usage;
    };
    let (end, _) = run_replay(alloc, settings, input, output);
    status_of_end(end)
}
