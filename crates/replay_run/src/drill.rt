//! A schedule that is made as it is run, of requests that a seed draws.

ghost use Rattle.std.specs.Prelude.{◌≡◌, ◌≤◌};
ghost use Rattle.replay_run.specs.Drill.{agent_of, drilled, start_drill};
ghost use Rattle.replay_run.specs.DrillClaims.{DrillEnds, left_at};
ghost use Rattle.replay_run.specs.Drilling.{kept};
ghost use Rattle.replay_run.specs.Finishing.{state_left};
ghost use Rattle.world_ports.specs.Streams.{OnlyWrites};

mod asking;
mod counts;
mod draws;
mod drilled;
mod texts;

use crate::RunEnd;
use crate::drill::drilled::Drill;
use agent_core::Agent;
use std::alloc::Global;
use world_ports::{Sink, write_all};

// Runs the rounds, and writes the summary.
fn drill_to_end<O: Sink>(drill: &mut Drill, rounds: u32, seed: u64, output: &mut O) -> RunEnd
    requires few { rounds ≤ 100000 }
    requires start { drill.old ≡ kept (start_drill seed) }
    ensures ends { DrillEnds rounds seed result (O.seen output.old) (O.seen output.new) }
    ensures agent { left_at result drill.new.agent ≡ left_at result (agent_of (drilled rounds seed)) }
    ensures output_only { OnlyWrites (O.seen output.old) (O.seen output.new) }
{
    let Ok(text) = drill.run_to_summary(rounds, seed) else {
        return RunEnd::Memory;
    };
    match write_all(output, &text) {
        Ok(()) => RunEnd::Done,
        Err(_) => RunEnd::WriteFault,
    }
}

/// Runs so many rounds of a drill, and writes the line that sums them up: `DrillEnds` of specs/DrillClaims.antt says what
/// each end means, and `summary` of specs/Drill.antt what is written. It ends with `Done`, `Memory` or `WriteFault`.
///
/// Eight clients join. In each round one of them asks for something that is drawn from the seed, by 64 keys, and the
/// helper signs where it is asked. Each line is made as it is run. The agent is handed back at `Done`.
pub fn run_drill<O: Sink>(
    alloc: Global,
    rounds: u32,
    seed: u64,
    output: &mut O,
) -> (RunEnd, Option<Agent>)
    requires { rounds ≤ 100000 }
    ensures ends { DrillEnds rounds seed result.0 (O.seen output.old) (O.seen output.new) }
    ensures agent { state_left result.1 ≡ left_at result.0 (agent_of (drilled rounds seed)) }
    ensures output_only { OnlyWrites (O.seen output.old) (O.seen output.new) }
{
    let mut drill = Drill::new(alloc, seed);
    let end = drill_to_end(&mut drill, rounds, seed, output);
    (end, drill.into_agent(end))
}
