//! The hub: what is ready, and a turn of the loop.

ghost use Rattle.std.specs.Prelude.{◌≡◌, ◌≤◌, Err, MatchOption, OnOk, [], true};
ghost use Rattle.agent_model.specs.State.{starts};
ghost use Rattle.loop_model.specs.Dues.{Free};
ghost use Rattle.loop_model.specs.LegalJournal.{in_state, is_first_job};
ghost use Rattle.loop_model.specs.Lines.{IsExact, IsOrdered, IsQuiet, empty_line, is_idle};
ghost use Rattle.loop_model.specs.Orderly.{IsOrderly};
ghost use Rattle.loop_model.specs.Servable.{has_job};
ghost use Rattle.ready_loop.specs.Moves.{Turns, served_by};
ghost use Rattle.ready_loop.specs.Standing.{Rounds};
ghost use Rattle.ready_loop.specs.Turning.{HasGone, IsFit, IsReady};
ghost use Rattle.world_ports.specs.Causes.{Rose};

use crate::look::{is_idle, look};
use crate::queue::Queue;
use crate::room::Room;
use crate::turn::{accept, read, start, write};
use crate::{Core, HubFault, Turn};
use loop_model::Thing;
use std::alloc::{AllocError, Global};
use std::marker::Model;
use world_ports::{Job, Ready, World};

/// What is ready to be served: what a poll or an accept said, until a call found otherwise.
///
/// A list holds, each once, exactly those ready things that can be served, and a set beside it the others, each under
/// its door or port. What was served stood first in the list. Those that could be served before and can be served
/// afterwards keep their order and stand before all others; what was served, where it can be served yet, stands last.
#[derive(Drop)]
pub struct Hub {
    queue: Queue,
    room: Room,
    ready: Vec<Ready>,
}

impl Model for Hub {
    ghost use Rattle.loop_model.specs.Lines.{Line};

    ghost Value = { Line };

    ghost view = { λ h. h.queue };
}

// The turn served something, where memory sufficed.
#[inline(always)]
fn served(outcome: Result<(), AllocError>) -> Result<Turn, HubFault>
    ensures { result ≡ served_by outcome }
{
    match outcome {
        Ok(()) => Ok(Turn::Served),
        Err(_) => Err(HubFault::Memory),
    }
}

// The first job that waits.
#[inline(always)]
fn next_job<A: Core>(agent: &A) -> Option<Job>
    ensures { MatchOption result (starts (A.state agent.now) ≡ [])
        (λ job. is_first_job job (starts (A.state agent.now)) ≡ true) }
{
    match agent.starts().first() {
        Some(job) => Some(*job),
        None => None,
    }
}

impl Hub {
    /// Nothing is ready. Takes no memory.
    pub fn new(alloc: Global) -> Hub
        ensures { result ≡ empty_line }
    {
        Hub {
            queue: Queue::new(alloc),
            room: Room::new(alloc),
            ready: Vec::new(alloc),
        }
    }

    /// Whether nothing can be served, and no job waits, where nothing that is set aside can be.
    pub fn idle<A: Core>(&self, agent: &A) -> bool
        requires { IsOrdered (A.state agent.now) self.now }
        ensures { result ≡ is_idle (A.state agent.now) self.now }
    {
        is_idle(&self.queue, agent)
    }

    /// Whether a client has connected so far.
    pub fn has_joined(&self) -> bool
        ensures { result ≡ self.now.joined }
    {
        self.queue.has_joined()
    }

    /// Starts the first job that waits, or serves the first thing of the list, or looks at the clock and polls.
    ///
    /// Before a turn and after it the list holds, each once, exactly those ready things that can be served, nothing
    /// that is set aside can be served, and the agent's greatest second is at most the world's. A turn leaves the list
    /// as `round` says: what was served stood first; those of the others that the list has yet keep their order, and
    /// stand before all others; and what was served, where the list has it yet, stands last. After a fault the hub can
    /// only be dropped.
    pub fn turn<A: Core, W: World>(
        &mut self,
        agent: &mut A,
        world: &mut W,
    ) -> Result<Turn, HubFault>
        requires orderly { IsOrderly (A.state agent.old) }
        requires exact { IsExact (A.state agent.old) self.old }
        requires quiet { IsQuiet (A.state agent.old) self.old }
        requires ports { W.last_port world.old ≡ (A.state agent.old).last_port }
        requires second { (A.state agent.old).moment.mono ≤ W.greatest world.old }
        ensures legal { Turns result (in_state (A.state agent.old) self.old Free)
            (W.journal world.old) (W.journal world.new) (A.state agent.new) self.new }
        ensures orderly { OnOk result (IsOrderly (A.state agent.new)) }
        ensures exact { OnOk result (IsExact (A.state agent.new) self.new) }
        ensures quiet { OnOk result (IsQuiet (A.state agent.new) self.new) }
        ensures round { OnOk result
            (Rounds (has_job (starts (A.state agent.old))) self.old.queue self.new.queue) }
        ensures ports { OnOk result (W.last_port world.new ≡ (A.state agent.new).last_port) }
        ensures second { OnOk result ((A.state agent.new).moment.mono ≤ W.greatest world.new) }
        ensures cause { result ≡ Err HubFault.Poll → Rose (W.faults world.old) (W.faults world.new) }
        ensures later { W.faults world.old ≤ W.faults world.new }
        ensures led { W.leads world.old world.new }
    {
        let turned = self.serve(agent, world);
        self.queue.stands_once();
        turned
    }

    // The turn.
    #[inline(always)]
    fn serve<A: Core, W: World>(&mut self, agent: &mut A, world: &mut W) -> Result<Turn, HubFault>
        requires ready { IsReady (A.state agent.old) self.old
            (W.last_port world.old) (W.greatest world.old) }
        ensures legal { Turns result (in_state (A.state agent.old) self.old Free)
            (W.journal world.old) (W.journal world.new) (A.state agent.new) self.new }
        ensures fit { OnOk result (IsFit (A.state agent.new) self.new) }
        ensures round { OnOk result
            (Rounds (has_job (starts (A.state agent.old))) self.old.queue self.new.queue) }
        ensures cause { result ≡ Err HubFault.Poll → Rose (W.faults world.old) (W.faults world.new) }
        ensures gone { HasGone result (A.state agent.new) (W.last_port world.new) (W.greatest world.new)
            (W.faults world.old) (W.faults world.new) (W.leads world.old world.new) }
    {
        if let Some(job) = next_job(agent) {
            return served(start(&mut self.queue, agent, world, job));
        }
        match self.queue.first() {
            Some(Thing::Accept(door)) => served(accept(&mut self.queue, agent, world, door)),
            Some(Thing::Read(port)) => {
                let Ok(()) = self.room.take() else {
                    return Err(HubFault::Memory);
                };
                let room = &mut self.room.bytes;
                served(read(&mut self.queue, agent, world, port, room))
            }
            Some(Thing::Write(port)) => served(write(&mut self.queue, agent, world, port)),
            None => look(&mut self.queue, agent, world, &mut self.ready),
        }
    }
}
