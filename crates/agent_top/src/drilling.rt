//! The command `drill`.

ghost use Rattle.std.specs.Prelude.{◌≡◌, ◌≢◌, ◌≤◌};
ghost use Rattle.agent_top.specs.DrillProgram.{DrillCompletes, DrillsExactly};
ghost use Rattle.world_ports.specs.Streams.{OnlyWrites};

use crate::agent::status_of_end;
use crate::status::Status;
use crate::words::DrillWords;
use replay_run::run_drill;
use std::alloc::Global;
use world_ports::Sink;

// Runs the drill that the words ask for.
pub fn drill_by<O: Sink>(alloc: Global, words: DrillWords, output: &mut O) -> Status
    requires { words.rounds ≤ 100000 }
    ensures drills { DrillsExactly (record { rounds = words.rounds; seed = words.seed }) result
        (O.seen output.old) (O.seen output.new) }
    ensures completes { DrillCompletes result (O.seen output.old) (O.seen output.new) }
    ensures no_usage { result ≢ Status.Usage }
    ensures no_socket { (result ≢ Status.BindFault) × (result ≢ Status.PollFault) }
    ensures output_only { OnlyWrites (O.seen output.old) (O.seen output.new) }
{
    let (end, _) = run_drill(alloc, words.rounds, words.seed, output);
    status_of_end(end)
}
