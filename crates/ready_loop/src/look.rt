//! A look at the clock, and a poll.

ghost use Rattle.std.specs.Prelude.{◌≡◌, ◌≤◌, ◌-◌, Err, OnOk, Option, true};
ghost use Rattle.loop_model.specs.Dues.{Free, Polling, wait_of};
ghost use Rattle.loop_model.specs.LegalJournal.{in_state};
ghost use Rattle.loop_model.specs.Lines.{IsOrdered, is_idle};
ghost use Rattle.ready_loop.specs.Moves.{PollsOrStops, Turns};
ghost use Rattle.ready_loop.specs.Turning.{HasGone, IsFit, IsReady};
ghost use Rattle.world_ports.specs.Causes.{Rose};

use crate::events::{close_all, tell};
use crate::queue::Queue;
use crate::{Core, HubFault, Turn};
use agent_core::Event;
use world_ports::{Polled, Ready, World, WorldFault};

// Whether nothing can be served, and no job waits.
#[inline(always)]
pub fn is_idle<A: Core>(queue: &Queue, agent: &A) -> bool
    requires { IsOrdered (A.state agent.now) queue.now }
    ensures { result ≡ is_idle (A.state agent.now) queue.now }
{
    agent.starts().is_empty() && queue.is_empty()
}

// How long a poll waits: until something is due.
#[inline(always)]
fn wait_of<A: Core>(agent: &A) -> Option<u64>
    ensures { result ≡ wait_of (A.state agent.now) }
{
    match agent.next_due() {
        Some(due) => Some(due.saturating_sub(agent.second())),
        None => None,
    }
}

// Polls, where a look found nothing to do.
fn poll<A: Core, W: World>(
    queue: &mut Queue,
    agent: &A,
    world: &mut W,
    ready: &mut Vec<Ready>,
) -> Result<Turn, HubFault>
    ensures legal { PollsOrStops result (in_state (A.state agent.now) queue.old Polling)
        (W.journal world.old) (W.journal world.new) (A.state agent.now) queue.new }
    ensures ports { OnOk result (W.last_port world.new ≡ W.last_port world.old) }
    ensures second { OnOk result (W.greatest world.new ≡ W.greatest world.old) }
    ensures ordered { IsOrdered (A.state agent.now) queue.old
        → OnOk result (IsOrdered (A.state agent.now) queue.new) }
    ensures cause { result ≡ Err HubFault.Poll → Rose (W.faults world.old) (W.faults world.new) }
    ensures later { W.faults world.old ≤ W.faults world.new }
    ensures led { W.leads world.old world.new }
{
    match world.poll(wait_of(agent), ready) {
        Ok(Polled::Some) => {
            let Ok(()) = queue.add_all(agent, ready) else {
                return Err(HubFault::Memory);
            };
            Ok(Turn::Polled)
        }
        Ok(Polled::Over) => Ok(Turn::Over),
        Err(WorldFault::Failed) => Err(HubFault::Poll),
        Err(WorldFault::Memory) => Err(HubFault::Memory),
    }
}

// Looks at the clock, and polls where that brought nothing to do.
pub fn look<A: Core, W: World>(
    queue: &mut Queue,
    agent: &mut A,
    world: &mut W,
    ready: &mut Vec<Ready>,
) -> Result<Turn, HubFault>
    requires idle { is_idle (A.state agent.old) queue.old ≡ true }
    requires ready { IsReady (A.state agent.old) queue.old
        (W.last_port world.old) (W.greatest world.old) }
    ensures legal { Turns result (in_state (A.state agent.old) queue.old Free)
        (W.journal world.old) (W.journal world.new) (A.state agent.new) queue.new }
    ensures fit { OnOk result (IsFit (A.state agent.new) queue.new) }
    ensures cause { result ≡ Err HubFault.Poll → Rose (W.faults world.old) (W.faults world.new) }
    ensures gone { HasGone result (A.state agent.new) (W.last_port world.new) (W.greatest world.new)
        (W.faults world.old) (W.faults world.new) (W.leads world.old world.new) }
{
    let Ok(moment) = world.now() else {
        return Err(HubFault::Memory);
    };
    let Ok(()) = tell(queue, agent, moment, &Event::Tick) else {
        return Err(HubFault::Memory);
    };
    if !agent.closes().is_empty() {
        let Ok(()) = close_all(queue, agent, world) else {
            return Err(HubFault::Memory);
        };
        return Ok(Turn::Served);
    }
    if !is_idle(queue, agent) {
        return Ok(Turn::Served);
    }
    poll(queue, agent, world, ready)
}
