//! The program over any input and any output.
ghost use Rattle.std.specs.Prelude.{◌≡◌, ◌↔◌};
ghost use Rattle.agent_model.specs.State.{Settings};
ghost use Rattle.log_core.specs.Program.{Logs};
ghost use Rattle.log_core.specs.Words.{IsAsked, IsUsage};
ghost use Rattle.log_core.specs.declared.status.LogStatus.TheVariants as status;
ghost use Rattle.replay_run.specs.Claims.{Seen};
ghost use Rattle.world_ports.specs.Streams.{OnlyReads, OnlyWrites};

use crate::rounds::write_log;
use crate::status::LogStatus;
use replay_run::read_settings;
use std::alloc::Global;
use world_ports::{Sink, Source};

/// The program: `words` are those of the command line after the program's name: none, `LIFE`, or more.
///
/// Runs the whole lines of the record that the source gives again, as they come, and writes a line for each request for
/// a signature that was read in it, in the order in which fates came, and behind them those without a fate. A last line
/// without its LF is left out, and a refused line ends the run; both are told by the status. With LIFE identities that
/// are added without a lifetime live so long: parts as in `1h30m`, or seconds; 0 stands for no lifetime. With
/// `--confirm-limit SECONDS` a question to the user stays open for so long in a schedule of format 2. With any other words
/// it touches nothing.
///
/// `logs` says of each end what the record is and what was written: the log, or a front of it.
pub fn log_main<I: Source, O: Sink>(
    alloc: Global,
    words: &[String],
    input: &mut I,
    output: &mut O,
) -> LogStatus
    ensures logs { (chosen : Settings) → IsAsked words.now chosen → Logs chosen result
        (record { input = I.seen input.old; output = O.seen output.old })
        (record { input = I.seen input.new; output = O.seen output.new }) }
    ensures usage { (result ≡ status.Usage) ↔ IsUsage words.now }
    ensures unused { IsUsage words.now → (input.new ≡ input.old) × (output.new ≡ output.old) }
    ensures input_only { OnlyReads (I.seen input.old) (I.seen input.new) }
    ensures output_only { OnlyWrites (O.seen output.old) (O.seen output.new) }
{
    let Some(settings) = read_settings(words) else {
        return LogStatus::Usage;
    };
    write_log(alloc, settings, input, output)
}
