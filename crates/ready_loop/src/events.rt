//! What follows from an event: the agent is told of it, what it lets be served comes back, and what it closed is closed.

ghost use Rattle.std.specs.Prelude.{◌≡◌, ◌≤◌, OnOk};
ghost use Rattle.agent_model.specs.State.{Fits};
ghost use Rattle.agent_model.specs.Step.{step};
ghost use Rattle.loop_model.specs.Calls.{served_of};
ghost use Rattle.loop_model.specs.Dues.{Free, NowFor, due_of, port_of};
ghost use Rattle.loop_model.specs.LegalJournal.{in_state};
ghost use Rattle.agent_core.specs.Happenings.{happening};
ghost use Rattle.ready_loop.specs.Happenings.{HasHappened, MayJoin, number_after};
ghost use Rattle.loop_model.specs.Lines.{IsOrdered, after_event};
ghost use Rattle.loop_model.specs.Orderly.{IsOrderly};
ghost use Rattle.ready_loop.specs.Moves.{ContinuesOrStops};
ghost use Rattle.ready_loop.specs.Standing.{IsCold};
ghost use Rattle.ready_loop.specs.Turning.{HasGone};

use crate::Core;
use crate::queue::Queue;
use agent_core::Event;
use loop_model::Thing;
use std::alloc::AllocError;
use world_ports::{Moment, World};

// Closes the ports that the last event closed.
pub fn close_all<A: Core, W: World>(
    queue: &Queue,
    agent: &A,
    world: &mut W,
) -> Result<(), AllocError>
    ensures legal { ContinuesOrStops result
        (in_state (A.state agent.now) queue.now (due_of (A.closes agent.now)))
        (W.journal world.old) (W.journal world.new)
        (in_state (A.state agent.now) queue.now Free) }
    ensures ports { W.last_port world.new ≡ W.last_port world.old }
    ensures second { W.greatest world.new ≡ W.greatest world.old }
    ensures later { W.faults world.old ≤ W.faults world.new }
    ensures led { W.leads world.old world.new }
{
    'ports: for port in agent.closes() {
        let Ok(()) = world.close(*port) else {
            return Err(AllocError);
        };
    }
    Ok(())
}

// The port of an event, where `last` is the number of the last one that joined before it.
#[inline(always)]
fn port_of(event: &Event<'_>, last: u64) -> Option<u64>
    requires { MayJoin (happening event.now) last }
    ensures { result ≡ port_of (happening event.now) (number_after (happening event.now) last) }
{
    match *event {
        Event::Joined(_) => Some(last + 1),
        Event::Heard { port, .. } | Event::Ended { port } | Event::Took { port, .. } => Some(port),
        Event::Started { .. } | Event::StartFailed { .. } | Event::Tick => None,
    }
}

// The thing whose service brought an event.
#[inline(always)]
fn served_of(event: &Event<'_>) -> Option<Thing>
    ensures { result ≡ served_of (happening event.now) }
{
    match *event {
        Event::Joined(door) => Some(Thing::Accept(door)),
        Event::Heard { port, .. } => Some(Thing::Read(port)),
        Event::Took { port, .. } => Some(Thing::Write(port)),
        Event::Ended { .. } | Event::Started { .. } | Event::StartFailed { .. } | Event::Tick =>
            None,
    }
}

// Tells the agent of an event at a moment; what this lets be served comes back, and then what was served.
pub fn tell<A: Core>(
    queue: &mut Queue,
    agent: &mut A,
    moment: Moment,
    event: &Event<'_>,
) -> Result<(), AllocError>
    requires fits { Fits (happening event.now) (A.state agent.old) }
    requires orderly { IsOrderly (A.state agent.old) }
    requires ordered { IsOrdered (A.state agent.old) queue.old }
    requires cold { IsCold (served_of (happening event.now)) queue.old }
    ensures stepped { OnOk result
        (A.state agent.new ≡ (step (A.state agent.old) moment (happening event.now)).state) }
    ensures closed { OnOk result
        (A.closes agent.new ≡ (step (A.state agent.old) moment (happening event.now)).closes) }
    ensures after { OnOk result (queue.new ≡ after_event (A.state agent.new) (A.closes agent.new)
        (port_of (happening event.now) (A.state agent.new).last_port)
        (served_of (happening event.now)) queue.old) }
{
    let own = port_of(event, agent.ports_so_far());
    agent.step(moment, event)?;
    queue.turn(agent, own, served_of(event))?;
    Ok(())
}

// Tells the agent of an event, at the moment that it is now, and closes the ports that this closes.
pub fn happen<A: Core, W: World>(
    queue: &mut Queue,
    agent: &mut A,
    world: &mut W,
    event: &Event<'_>,
) -> Result<(), AllocError>
    requires fits { Fits (happening event.now) (A.state agent.old) }
    requires orderly { IsOrderly (A.state agent.old) }
    requires ordered { IsOrdered (A.state agent.old) queue.old }
    requires cold { IsCold (served_of (happening event.now)) queue.old }
    requires ports { W.last_port world.old
        ≡ number_after (happening event.now) (A.state agent.old).last_port }
    requires second { (A.state agent.old).moment.mono ≤ W.greatest world.old }
    ensures legal { ContinuesOrStops result
        (in_state (A.state agent.old) queue.old (NowFor (happening event.now)))
        (W.journal world.old) (W.journal world.new)
        (in_state (A.state agent.new) queue.new Free) }
    ensures after { OnOk result (queue.new ≡ after_event (A.state agent.new) (A.closes agent.new)
        (port_of (happening event.now) (A.state agent.new).last_port)
        (served_of (happening event.now)) queue.old) }
    ensures happened { OnOk result
        (HasHappened (happening event.now) (A.state agent.old) (A.state agent.new)) }
    ensures gone { HasGone result (A.state agent.new) (W.last_port world.new) (W.greatest world.new)
        (W.faults world.old) (W.faults world.new) (W.leads world.old world.new) }
{
    let Ok(moment) = world.now() else {
        return Err(AllocError);
    };
    let Ok(()) = tell(queue, agent, moment, event) else {
        return Err(AllocError);
    };
    close_all(queue, agent, world)
}
