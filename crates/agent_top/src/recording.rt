//! The command `serve` with a record of its calls.

ghost use Rattle.std.specs.Prelude.{◌≡◌, ◌⊎◌, ◌≤◌, false, true};
ghost use Rattle.agent_top.specs.RecordProgram.{Breaks, HoldsOfAdded, IsUnbroken, Records};
ghost use Rattle.agent_top.specs.ServeProgram.{ServesExactly, status_of_recorded};
ghost use Rattle.loop_model.specs.Orderly.{IsOrderly};
ghost use Rattle.world_ports.specs.Causes.{Rose};
ghost use Rattle.world_ports.specs.Streams.{OnlyWrites};

use crate::serving::status_of_serving;
use crate::status::Status;
use ready_loop::{Core, ServeEnd, serve};
use record_world::{Recorder, Tape};
use std::alloc::Global;
use std::sync::Wait;
use world_ports::{Sink, World};

// The status of a recorded loop that ended so. Where its calls ended with the record, that may lack what the loop did.
fn status_of_recorded(ended: bool, broken: bool, end: ServeEnd) -> Status
    ensures { result ≡ status_of_recorded ended broken end }
{
    if ended {
        return Status::RecordFault;
    }
    match status_of_serving(end) {
        Status::Done if broken => Status::WriteFault,
        status => status,
    }
}

// Serves clients over the world, and writes a record of its calls to the output; where that breaks, a line of the errors
// says why. By `or_stop` no call is made behind a record that ended.
pub fn serve_recorded<R: Wait, A: Core, W: World, O: Sink, E: Sink>(
    rt: &R,
    alloc: Global,
    agent: &mut A,
    world: &mut W,
    output: &mut O,
    errors: &mut E,
    path: &str,
    until_idle: bool,
    or_stop: bool,
) -> Status
    requires orderly { IsOrderly (A.state agent.old) }
    requires first { W.last_port world.old ≡ 0 }
    requires ports { W.last_port world.old ≡ (A.state agent.old).last_port }
    requires second { (A.state agent.old).moment.mono ≤ W.greatest world.old }
    ensures serves { ServesExactly true
        (record { path = path.now; until_idle = until_idle; state = A.state agent.old }) result
        (W.journal world.old) (W.journal world.new) }
    ensures records { HoldsOfAdded (W.journal world.old) (W.journal world.new)
        (Records or_stop result (O.seen output.old) (O.seen output.new) (E.seen errors.old) (E.seen errors.new)) }
    ensures bind { result ≡ Status.BindFault → Rose (W.faults world.old) (W.faults world.new) }
    ensures poll { result ≡ Status.PollFault → Rose (W.faults world.old) (W.faults world.new) }
    ensures write { result ≡ Status.WriteFault → Breaks (W.journal world.old) (W.journal world.new)
        (O.seen output.old) (O.seen output.new) (E.seen errors.old) (E.seen errors.new) }
    ensures says { IsUnbroken (O.seen output.old) (O.seen output.new) (E.seen errors.old) (E.seen errors.new)
        ⊎ Breaks (W.journal world.old) (W.journal world.new) (O.seen output.old) (O.seen output.new)
        (E.seen errors.old) (E.seen errors.new) }
    ensures done { result ≡ Status.Done
        → IsUnbroken (O.seen output.old) (O.seen output.new) (E.seen errors.old) (E.seen errors.new) }
    ensures goes_on { result ≡ Status.RecordFault → or_stop ≡ false
        → IsUnbroken (O.seen output.old) (O.seen output.new) (E.seen errors.old) (E.seen errors.new) }
    ensures led { W.leads world.old world.new }
    ensures only { OnlyWrites (O.seen output.old) (O.seen output.new) }
    ensures errors_only { OnlyWrites (E.seen errors.old) (E.seen errors.new) }
{
    let mut tape = Tape::new(alloc);
    let mut recorder = Recorder::new(world, output, errors, &mut tape, or_stop);
    let end = serve(rt, alloc, agent, &mut recorder, path, until_idle);
    status_of_recorded(recorder.ended(), recorder.broken(), end)
}
