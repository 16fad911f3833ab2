//! The parts of a turn.

ghost use Rattle.std.specs.Prelude.{◌≡◌, [], OnOk, Some, length, true};
ghost use Rattle.agent_model.specs.Events.{Ended, Heard, Took};
ghost use Rattle.agent_model.specs.State.{Fits, starts};
ghost use Rattle.loop_model.specs.Dues.{Free, NowFor};
ghost use Rattle.loop_model.specs.Fairness.{GoesRound, KeepsOrder};
ghost use Rattle.loop_model.specs.Fitting.{IsTicket};
ghost use Rattle.loop_model.specs.LegalJournal.{in_state, is_first_job};
ghost use Rattle.wire_text.specs.Wire.{IsBytes};
ghost use Rattle.world_ports.specs.Worlds.{read_room};
ghost use Rattle.loop_model.specs.declared.thing.Thing.TheVariants.{Accept, Read, Write};
ghost use Rattle.loop_model.specs.Lines.{in_hand};
ghost use Rattle.loop_model.specs.Queues.{first_servable};
ghost use Rattle.ready_loop.specs.Moves.{AdvancesOrStops, ContinuesOrStops};
ghost use Rattle.ready_loop.specs.Rooms.{IsWiped};
ghost use Rattle.ready_loop.specs.Standing.{IsAt};
ghost use Rattle.ready_loop.specs.Turning.{HasGone, IsReady};

use crate::Core;
use crate::events::happen;
use crate::queue::Queue;
use agent_core::Event;
use loop_model::Thing;
use std::alloc::AllocError;
use world_ports::{Accepted, Door, Got, Job, World, WorldFault, Wrote};

// Accepts a connection.
pub fn accept<A: Core, W: World>(
    queue: &mut Queue,
    agent: &mut A,
    world: &mut W,
    door: Door,
) -> Result<(), AllocError>
    requires jobs { starts (A.state agent.old) ≡ [] }
    requires next { first_servable (A.state agent.old) queue.old.queue ≡ Some (Accept door) }
    requires ready { IsReady (A.state agent.old) queue.old
        (W.last_port world.old) (W.greatest world.old) }
    ensures legal { AdvancesOrStops result (in_state (A.state agent.old) queue.old Free)
        (W.journal world.old) (W.journal world.new) (in_state (A.state agent.new) queue.new Free) }
    ensures round { OnOk result (GoesRound (Accept door) queue.old.queue queue.new.queue) }
    ensures gone { HasGone result (A.state agent.new) (W.last_port world.new) (W.greatest world.new)
        (W.faults world.old) (W.faults world.new) (W.leads world.old world.new) }
{
    match world.accept(door) {
        Ok(Accepted::Port(number)) => {
            queue.take(Thing::Accept(door));
            let Ok(()) = queue.accept(agent, door, number) else {
                return Err(AllocError);
            };
            happen(queue, agent, world, &Event::Joined(door))
        }
        Ok(Accepted::NotNow) => {
            queue.take(Thing::Accept(door));
            Ok(())
        }
        Err(WorldFault::Failed) => {
            queue.take(Thing::Accept(door));
            Ok(())
        }
        Err(WorldFault::Memory) => Err(AllocError),
    }
}

// The agent hears what a port sent, which may send more.
fn hear<A: Core, W: World>(
    queue: &mut Queue,
    agent: &mut A,
    world: &mut W,
    port: u64,
    piece: &[u8],
) -> Result<(), AllocError>
    requires fits { Fits (Heard port piece.now) (A.state agent.old) }
    requires next { first_servable (A.state agent.old) queue.old.queue ≡ Some (Read port) }
    requires ready { IsReady (A.state agent.old) queue.old
        (W.last_port world.old) (W.greatest world.old) }
    ensures legal { ContinuesOrStops result
        (in_state (A.state agent.old)
        (in_hand (Read port) queue.old)
        (NowFor (Heard port piece.now)))
        (W.journal world.old) (W.journal world.new) (in_state (A.state agent.new) queue.new Free) }
    ensures round { OnOk result (GoesRound (Read port) queue.old.queue queue.new.queue) }
    ensures bytes { IsBytes piece.now }
    ensures gone { HasGone result (A.state agent.new) (W.last_port world.new) (W.greatest world.new)
        (W.faults world.old) (W.faults world.new) (W.leads world.old world.new) }
{
    queue.take(Thing::Read(port));
    happen(queue, agent, world, &Event::Heard { port, piece })
}

// A port has ended, as a read or a write found.
fn end<A: Core, W: World>(
    queue: &mut Queue,
    agent: &mut A,
    world: &mut W,
    port: u64,
    found: Thing,
) -> Result<(), AllocError>
    requires fits { Fits (Ended port) (A.state agent.old) }
    requires next { first_servable (A.state agent.old) queue.old.queue ≡ Some found }
    requires at { IsAt port found }
    requires ready { IsReady (A.state agent.old) queue.old
        (W.last_port world.old) (W.greatest world.old) }
    ensures legal { ContinuesOrStops result
        (in_state (A.state agent.old) (in_hand found queue.old)
        (NowFor (Ended port)))
        (W.journal world.old) (W.journal world.new) (in_state (A.state agent.new) queue.new Free) }
    ensures round { OnOk result (GoesRound found queue.old.queue queue.new.queue) }
    ensures gone { HasGone result (A.state agent.new) (W.last_port world.new) (W.greatest world.new)
        (W.faults world.old) (W.faults world.new) (W.leads world.old world.new) }
{
    queue.take(found);
    happen(queue, agent, world, &Event::Ended { port })
}

// Reads from a connection into this room, which is zero again afterwards.
pub fn read<A: Core, W: World>(
    queue: &mut Queue,
    agent: &mut A,
    world: &mut W,
    port: u64,
    room: &mut [u8],
) -> Result<(), AllocError>
    requires jobs { starts (A.state agent.old) ≡ [] }
    requires next { first_servable (A.state agent.old) queue.old.queue ≡ Some (Read port) }
    requires ready { IsReady (A.state agent.old) queue.old
        (W.last_port world.old) (W.greatest world.old) }
    requires room { length room.old ≡ read_room }
    requires zero { IsWiped room.old }
    ensures legal { AdvancesOrStops result (in_state (A.state agent.old) queue.old Free)
        (W.journal world.old) (W.journal world.new) (in_state (A.state agent.new) queue.new Free) }
    ensures round { OnOk result (GoesRound (Read port) queue.old.queue queue.new.queue) }
    ensures gone { HasGone result (A.state agent.new) (W.last_port world.new) (W.greatest world.new)
        (W.faults world.old) (W.faults world.new) (W.leads world.old world.new) }
    ensures zero { IsWiped room.new }
{
    match world.read(port, room) {
        Ok(Got::Bytes(n)) => {
            let heard = hear(queue, agent, world, port, &room[..n as usize]);
            room[..n as usize].fill(0);
            heard
        }
        Ok(Got::End) => end(queue, agent, world, port, Thing::Read(port)),
        Ok(Got::NotNow) => {
            queue.take(Thing::Read(port));
            Ok(())
        }
        Err(WorldFault::Failed) => end(queue, agent, world, port, Thing::Read(port)),
        Err(WorldFault::Memory) => Err(AllocError),
    }
}

// The agent is told what a port took of the bytes that it is owed.
fn send<A: Core, W: World>(
    queue: &mut Queue,
    agent: &mut A,
    world: &mut W,
    port: u64,
    count: usize,
) -> Result<(), AllocError>
    requires fits { Fits (Took port count) (A.state agent.old) }
    requires next { first_servable (A.state agent.old) queue.old.queue ≡ Some (Write port) }
    requires ready { IsReady (A.state agent.old) queue.old
        (W.last_port world.old) (W.greatest world.old) }
    ensures legal { ContinuesOrStops result
        (in_state (A.state agent.old) (in_hand (Write port) queue.old)
        (NowFor (Took port count)))
        (W.journal world.old) (W.journal world.new) (in_state (A.state agent.new) queue.new Free) }
    ensures round { OnOk result (GoesRound (Write port) queue.old.queue queue.new.queue) }
    ensures gone { HasGone result (A.state agent.new) (W.last_port world.new) (W.greatest world.new)
        (W.faults world.old) (W.faults world.new) (W.leads world.old world.new) }
{
    queue.take(Thing::Write(port));
    happen(queue, agent, world, &Event::Took { port, count })
}

// Writes to a connection what it is owed.
pub fn write<A: Core, W: World>(
    queue: &mut Queue,
    agent: &mut A,
    world: &mut W,
    port: u64,
) -> Result<(), AllocError>
    requires jobs { starts (A.state agent.old) ≡ [] }
    requires next { first_servable (A.state agent.old) queue.old.queue ≡ Some (Write port) }
    requires ready { IsReady (A.state agent.old) queue.old
        (W.last_port world.old) (W.greatest world.old) }
    ensures legal { AdvancesOrStops result (in_state (A.state agent.old) queue.old Free)
        (W.journal world.old) (W.journal world.new) (in_state (A.state agent.new) queue.new Free) }
    ensures round { OnOk result (GoesRound (Write port) queue.old.queue queue.new.queue) }
    ensures gone { HasGone result (A.state agent.new) (W.last_port world.new) (W.greatest world.new)
        (W.faults world.old) (W.faults world.new) (W.leads world.old world.new) }
{
    match world.write(port, agent.owed(port)) {
        Ok(Wrote::Took(n)) => send(queue, agent, world, port, n as usize),
        Ok(Wrote::NotNow) => {
            queue.take(Thing::Write(port));
            Ok(())
        }
        Err(WorldFault::Failed) => end(queue, agent, world, port, Thing::Write(port)),
        Err(WorldFault::Memory) => Err(AllocError),
    }
}

// Tells proofs what a ticket has by its type: 16 bytes.
#[inline(always)]
fn is_ticket(ticket: &[u8; 16])
    ensures { IsTicket ticket.now }
{
    are_bytes(ticket);
}

// Tells proofs what bytes are by their type: numbers below 256.
#[inline(always)]
fn are_bytes(bytes: &[u8])
    ensures { IsBytes bytes.now }
{}

// Starts a child process.
pub fn start<A: Core, W: World>(
    queue: &mut Queue,
    agent: &mut A,
    world: &mut W,
    job: Job,
) -> Result<(), AllocError>
    requires first { is_first_job job (starts (A.state agent.old)) ≡ true }
    requires ready { IsReady (A.state agent.old) queue.old
        (W.last_port world.old) (W.greatest world.old) }
    ensures legal { AdvancesOrStops result (in_state (A.state agent.old) queue.old Free)
        (W.journal world.old) (W.journal world.new) (in_state (A.state agent.new) queue.new Free) }
    ensures round { OnOk result (KeepsOrder queue.old.queue queue.new.queue) }
    ensures gone { HasGone result (A.state agent.new) (W.last_port world.new) (W.greatest world.new)
        (W.faults world.old) (W.faults world.new) (W.leads world.old world.new) }
{
    let number = job.number;
    match world.start(job) {
        Ok(ticket) => {
            is_ticket(&ticket);
            happen(
                queue,
                agent,
                world,
                &Event::Started {
                    job: number,
                    ticket,
                },
            )
        }
        Err(WorldFault::Failed) => happen(queue, agent, world, &Event::StartFailed { job: number }),
        Err(WorldFault::Memory) => Err(AllocError),
    }
}
