//! The loop.

ghost use Rattle.std.specs.Prelude.{◌≡◌, ◌≤◌, ◌&&◌, List, ℕ};
ghost use Rattle.agent_model.specs.State.{State};
ghost use Rattle.loop_model.specs.Dues.{Free};
ghost use Rattle.loop_model.specs.LegalJournal.{in_state};
ghost use Rattle.loop_model.specs.Lines.{IsExact, IsOrdered, IsQuiet, is_idle};
ghost use Rattle.loop_model.specs.Orderly.{IsOrderly};
ghost use Rattle.ready_loop.specs.Serving.{Running, Serves, Unbound, is_deserted};
ghost use Rattle.world_ports.specs.Causes.{Rose};

use crate::listeners::open;
use crate::{Core, Hub, HubFault, ServeEnd, Turn};
use std::alloc::Global;
use std::sync::Wait;
use world_ports::{World, WorldFault};

// Whether the loop is to end here, as it was asked to.
fn is_done<A: Core>(hub: &Hub, agent: &A, until_idle: bool) -> bool
    requires { IsOrdered (A.state agent.now) hub.now }
    ensures { result ≡ (until_idle && (is_deserted (in_state (A.state agent.now) hub.now Free)
        && is_idle (A.state agent.now) hub.now)) }
{
    until_idle && hub.has_joined() && agent.clients() == 0 && hub.idle(agent)
}

// Turns until the loop ends.
fn run<R: Wait, A: Core, W: World>(
    rt: &R,
    hub: &mut Hub,
    agent: &mut A,
    world: &mut W,
    until_idle: bool,
) -> ServeEnd
    requires orderly { IsOrderly (A.state agent.old) }
    requires exact { IsExact (A.state agent.old) hub.old }
    requires quiet { IsQuiet (A.state agent.old) hub.old }
    requires ports { W.last_port world.old ≡ (A.state agent.old).last_port }
    requires second { (A.state agent.old).moment.mono ≤ W.greatest world.old }
    ensures serves { (path : List ℕ) (state : State) → Serves result
        (record { path = path; until_idle = until_idle; state = state })
        (Running (in_state (A.state agent.old) hub.old Free))
        (W.journal world.old) (W.journal world.new) }
    ensures poll { result ≡ ServeEnd.PollFault → Rose (W.faults world.old) (W.faults world.new) }
    ensures bind { result ≡ ServeEnd.BindFault → Rose (W.faults world.old) (W.faults world.new) }
    ensures later { W.faults world.old ≤ W.faults world.new }
    ensures led { W.leads world.old world.new }
{
    'turns: for _ in rt.forever() {
        if is_done(hub, agent, until_idle) {
            return ServeEnd::Idle;
        }
        match hub.turn(agent, world) {
            Ok(Turn::Served) => {}
            Ok(Turn::Polled) => {}
            Ok(Turn::Over) => return ServeEnd::Over,
            Err(HubFault::Poll) => return ServeEnd::PollFault,
            Err(HubFault::Memory) => return ServeEnd::Memory,
        }
    }
    unreachable!()
}

/// Serves clients that connect at `path`, and the child processes that it starts.
///
/// With `until_idle` the loop ends once a client has come, none is left and nothing can be served: it doesn't wait
/// there. Without it only a fault ends it, or a world in which nothing becomes ready any more.
pub fn serve<R: Wait, A: Core, W: World>(
    rt: &R,
    alloc: Global,
    agent: &mut A,
    world: &mut W,
    path: &str,
    until_idle: bool,
) -> ServeEnd
    requires orderly { IsOrderly (A.state agent.old) }
    requires ports { W.last_port world.old ≡ (A.state agent.old).last_port }
    requires second { (A.state agent.old).moment.mono ≤ W.greatest world.old }
    ensures serves { Serves result
        (record { path = path.now; until_idle = until_idle; state = A.state agent.old }) Unbound
        (W.journal world.old) (W.journal world.new) }
    ensures bind { result ≡ ServeEnd.BindFault → Rose (W.faults world.old) (W.faults world.new) }
    ensures poll { result ≡ ServeEnd.PollFault → Rose (W.faults world.old) (W.faults world.new) }
    ensures later { W.faults world.old ≤ W.faults world.new }
    ensures led { W.leads world.old world.new }
{
    match open(world, path) {
        Ok(()) => {
            let mut hub = Hub::new(alloc);
            run(rt, &mut hub, agent, world, until_idle)
        }
        Err(WorldFault::Failed) => ServeEnd::BindFault,
        Err(WorldFault::Memory) => ServeEnd::Memory,
    }
}
