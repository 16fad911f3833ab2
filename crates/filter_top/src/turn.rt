//! One turn of the filter: serves the first thing that can be served, or polls without one.

ghost use Rattle.std.specs.Prelude.{◌≡◌, ◌≤◌, [], OnOk, Some, false, length, take, true};
ghost use Rattle.filter_model.specs.Filters.{Fits, is_reached, step};
ghost use Rattle.filter_model.specs.declared.thing.Thing.TheVariants.{Accept, Read, Write};
ghost use Rattle.filter_model.specs.Answered.{Free, after_event, at, due_of, end_of};
ghost use Rattle.pair_ports.specs.declared.side.Side.TheVariants.{Upstream};
ghost use Rattle.world_ports.specs.Worlds.{read_room};
ghost use Rattle.filter_model.specs.Lines.{first_servable, is_idle};
ghost use Rattle.filter_core.specs.Happenings.{happening};
ghost use Rattle.filter_top.specs.Moves.{Goes, GoesOn, Turns, served_by};
ghost use Rattle.filter_top.specs.declared.turn.Turn.TheVariants as turns;
ghost use Rattle.wire_text.specs.Wire.{IsBytes};
ghost use Rattle.world_ports.specs.Causes.{Rose};

use crate::line::Line;
use filter_core::{Filter, FilterEvent};
use filter_model::Thing;
use pair_ports::{Linked, PairReady, Pairs, Side};
use std::alloc::AllocError;
use world_ports::{Accepted, Got, Polled, WorldFault, Wrote};

/// How a turn ended.
#[derive(Clone, Copy, Debug, PartialEq, Eq)]
pub enum Turn {
    /// Something was served, or a poll told what is ready.
    Served,
    /// Nothing will become ready any more.
    Over,
    /// The outside refused a poll.
    Refused,
    /// Memory ran out. Says nothing of the outside.
    Memory,
}

// Closes the pairs that the last event closed.
fn close_all<P: Pairs>(line: &mut Line, filter: &Filter, pairs: &mut P) -> Result<(), AllocError>
    ensures legal { Goes result (at filter.now line.old (due_of filter.now.closes filter.now.parts))
        (P.journal pairs.old) (P.journal pairs.new) (at filter.now line.new (due_of [] filter.now.parts)) }
    ensures pairs { P.last_pair pairs.new ≡ P.last_pair pairs.old }
    ensures later { P.faults pairs.old ≤ P.faults pairs.new }
{
    'closing: for pair in filter.closes() {
        let Ok(()) = pairs.close(*pair) else {
            return Err(AllocError);
        };
        line.close(*pair);
    }
    Ok(())
}

// Gives the connections back that the last event gave back.
fn part_all<P: Pairs>(line: &mut Line, filter: &Filter, pairs: &mut P) -> Result<(), AllocError>
    ensures legal { Goes result (at filter.now line.old (due_of [] filter.now.parts))
        (P.journal pairs.old) (P.journal pairs.new) (at filter.now line.new Free) }
    ensures pairs { P.last_pair pairs.new ≡ P.last_pair pairs.old }
    ensures later { P.faults pairs.old ≤ P.faults pairs.new }
{
    'parting: for pair in filter.parts() {
        let Ok(()) = pairs.disconnect(*pair) else {
            return Err(AllocError);
        };
        let Ok(()) = line.part(*pair) else {
            return Err(AllocError);
        };
    }
    Ok(())
}

// Closes what the last event closed, and then gives back what it gave back.
fn settle<P: Pairs>(line: &mut Line, filter: &Filter, pairs: &mut P) -> Result<(), AllocError>
    ensures legal { Goes result (at filter.now line.old (due_of filter.now.closes filter.now.parts))
        (P.journal pairs.old) (P.journal pairs.new) (at filter.now line.new Free) }
    ensures pairs { P.last_pair pairs.new ≡ P.last_pair pairs.old }
    ensures later { P.faults pairs.old ≤ P.faults pairs.new }
{
    let Ok(()) = close_all(line, filter, pairs) else {
        return Err(AllocError);
    };
    part_all(line, filter, pairs)
}

// Tells the filter of an event, closes the pairs that this closes, and gives connections back.
fn happen<P: Pairs>(
    line: &mut Line,
    filter: &mut Filter,
    pairs: &mut P,
    event: &FilterEvent<'_>,
) -> Result<(), AllocError>
    requires fits { Fits (happening event.now) filter.old }
    requires pairs { P.last_pair pairs.old ≡ (step filter.old (happening event.now)).last_pair }
    ensures legal { Goes result (after_event (happening event.now) filter.old line.old)
        (P.journal pairs.old) (P.journal pairs.new) (at filter.new line.new Free) }
    ensures pairs { OnOk result (P.last_pair pairs.new ≡ filter.new.last_pair) }
    ensures later { P.faults pairs.old ≤ P.faults pairs.new }
{
    let Ok(()) = filter.step(event) else {
        return Err(AllocError);
    };
    settle(line, filter, pairs)
}

// A side of a pair has ended: the client's end is that of the pair.
fn end<P: Pairs>(
    line: &mut Line,
    filter: &mut Filter,
    pairs: &mut P,
    pair: u64,
    side: Side,
) -> Result<(), AllocError>
    requires reached { is_reached pair side filter.old ≡ true }
    requires pairs { P.last_pair pairs.old ≡ filter.old.last_pair }
    ensures legal { Goes result (after_event (end_of side pair) filter.old line.old)
        (P.journal pairs.old) (P.journal pairs.new) (at filter.new line.new Free) }
    ensures pairs { OnOk result (P.last_pair pairs.new ≡ filter.new.last_pair) }
    ensures later { P.faults pairs.old ≤ P.faults pairs.new }
{
    match side {
        Side::Client => happen(line, filter, pairs, &FilterEvent::Ended { pair }),
        Side::Upstream => happen(line, filter, pairs, &FilterEvent::Lost { pair }),
    }
}

// Accepts a client, which is ready in both directions.
fn accept<P: Pairs>(line: &mut Line, filter: &mut Filter, pairs: &mut P) -> Result<(), AllocError>
    requires next { first_servable filter.old line.old ≡ Some Accept }
    requires pairs { P.last_pair pairs.old ≡ filter.old.last_pair }
    ensures legal { GoesOn result (at filter.old line.old Free)
        (P.journal pairs.old) (P.journal pairs.new) (at filter.new line.new Free) }
    ensures pairs { OnOk result (P.last_pair pairs.new ≡ filter.new.last_pair) }
    ensures later { P.faults pairs.old ≤ P.faults pairs.new }
{
    match pairs.accept() {
        Ok(Accepted::Port(number)) => {
            let Ok(()) = line.accept(number) else {
                return Err(AllocError);
            };
            happen(line, filter, pairs, &FilterEvent::Joined)
        }
        Ok(Accepted::NotNow) => {
            line.remove(Thing::Accept);
            Ok(())
        }
        Err(WorldFault::Failed) => {
            line.remove(Thing::Accept);
            Ok(())
        }
        Err(WorldFault::Memory) => Err(AllocError),
    }
}

// The first bytes of a room.
fn front_of(room: &[u8], count: usize) -> &[u8]
    requires { count ≤ length room.now }
    ensures front { result.now ≡ take count room.now }
    ensures bytes { IsBytes result.now }
{
    &room[..count]
}

// Reads from a side into this room, of which nothing that was read is left.
fn read<P: Pairs>(
    line: &mut Line,
    filter: &mut Filter,
    pairs: &mut P,
    pair: u64,
    side: Side,
    room: &mut [u8],
) -> Result<(), AllocError>
    requires next { first_servable filter.old line.old ≡ Some (Read pair side) }
    requires pairs { P.last_pair pairs.old ≡ filter.old.last_pair }
    requires room { length room.old ≡ read_room }
    ensures legal { GoesOn result (at filter.old line.old Free)
        (P.journal pairs.old) (P.journal pairs.new) (at filter.new line.new Free) }
    ensures pairs { OnOk result (P.last_pair pairs.new ≡ filter.new.last_pair) }
    ensures room { length room.new ≡ length room.old }
    ensures later { P.faults pairs.old ≤ P.faults pairs.new }
{
    match pairs.read(pair, side, room) {
        Ok(Got::Bytes(n)) => {
            let piece = front_of(room, n as usize);
            let Ok(()) = line.send_back(Thing::Read(pair, side)) else {
                return Err(AllocError);
            };
            let heard = happen(
                line,
                filter,
                pairs,
                &FilterEvent::Heard { pair, side, piece },
            );
            room[..n as usize].fill(0);
            heard
        }
        Ok(Got::End) => {
            line.remove(Thing::Read(pair, side));
            end(line, filter, pairs, pair, side)
        }
        Ok(Got::NotNow) => {
            line.remove(Thing::Read(pair, side));
            Ok(())
        }
        Err(WorldFault::Failed) => {
            line.remove(Thing::Read(pair, side));
            end(line, filter, pairs, pair, side)
        }
        Err(WorldFault::Memory) => Err(AllocError),
    }
}

// Connects a pair to the agent behind.
fn connect<P: Pairs>(
    line: &mut Line,
    filter: &mut Filter,
    pairs: &mut P,
    pair: u64,
) -> Result<(), AllocError>
    requires next { first_servable filter.old line.old ≡ Some (Write pair Upstream) }
    requires apart { is_reached pair Upstream filter.old ≡ false }
    requires pairs { P.last_pair pairs.old ≡ filter.old.last_pair }
    ensures legal { GoesOn result (at filter.old line.old Free)
        (P.journal pairs.old) (P.journal pairs.new) (at filter.new line.new Free) }
    ensures pairs { OnOk result (P.last_pair pairs.new ≡ filter.new.last_pair) }
    ensures later { P.faults pairs.old ≤ P.faults pairs.new }
{
    match pairs.connect(pair) {
        Ok(Linked::Made) => {
            let Ok(()) = line.send_back(Thing::Write(pair, Side::Upstream)) else {
                return Err(AllocError);
            };
            happen(line, filter, pairs, &FilterEvent::Connected { pair })
        }
        Ok(Linked::NotNow) => {
            line.remove(Thing::Write(pair, Side::Upstream));
            Ok(())
        }
        Err(WorldFault::Failed) => {
            line.remove(Thing::Write(pair, Side::Upstream));
            happen(line, filter, pairs, &FilterEvent::Ended { pair })
        }
        Err(WorldFault::Memory) => Err(AllocError),
    }
}

// Writes to a side what it is owed.
fn write<P: Pairs>(
    line: &mut Line,
    filter: &mut Filter,
    pairs: &mut P,
    pair: u64,
    side: Side,
) -> Result<(), AllocError>
    requires next { first_servable filter.old line.old ≡ Some (Write pair side) }
    requires reached { is_reached pair side filter.old ≡ true }
    requires pairs { P.last_pair pairs.old ≡ filter.old.last_pair }
    ensures legal { GoesOn result (at filter.old line.old Free)
        (P.journal pairs.old) (P.journal pairs.new) (at filter.new line.new Free) }
    ensures pairs { OnOk result (P.last_pair pairs.new ≡ filter.new.last_pair) }
    ensures later { P.faults pairs.old ≤ P.faults pairs.new }
{
    match pairs.write(pair, side, filter.owed(pair, side)) {
        Ok(Wrote::Took(n)) => {
            let Ok(()) = line.send_back(Thing::Write(pair, side)) else {
                return Err(AllocError);
            };
            let count = n as usize;
            happen(
                line,
                filter,
                pairs,
                &FilterEvent::Took { pair, side, count },
            )
        }
        Ok(Wrote::NotNow) => {
            line.remove(Thing::Write(pair, side));
            Ok(())
        }
        Err(WorldFault::Failed) => {
            line.remove(Thing::Write(pair, side));
            end(line, filter, pairs, pair, side)
        }
        Err(WorldFault::Memory) => Err(AllocError),
    }
}

// Writes to a side what it is owed, once it is connected.
fn send<P: Pairs>(
    line: &mut Line,
    filter: &mut Filter,
    pairs: &mut P,
    pair: u64,
    side: Side,
) -> Result<(), AllocError>
    requires next { first_servable filter.old line.old ≡ Some (Write pair side) }
    requires pairs { P.last_pair pairs.old ≡ filter.old.last_pair }
    ensures legal { GoesOn result (at filter.old line.old Free)
        (P.journal pairs.old) (P.journal pairs.new) (at filter.new line.new Free) }
    ensures pairs { OnOk result (P.last_pair pairs.new ≡ filter.new.last_pair) }
    ensures later { P.faults pairs.old ≤ P.faults pairs.new }
{
    if filter.is_reached(pair, side) {
        return write(line, filter, pairs, pair, side);
    }
    connect(line, filter, pairs, pair)
}

// Waits until something is ready.
fn poll<P: Pairs>(
    line: &mut Line,
    filter: &Filter,
    pairs: &mut P,
    ready: &mut Vec<PairReady>,
) -> Turn
    requires idle { is_idle filter.now line.old ≡ true }
    ensures legal { Turns result (at filter.now line.old Free)
        (P.journal pairs.old) (P.journal pairs.new) (at filter.now line.new Free) }
    ensures pairs { P.last_pair pairs.new ≡ P.last_pair pairs.old }
    ensures cause { result ≡ turns.Refused → Rose (P.faults pairs.old) (P.faults pairs.new) }
    ensures later { P.faults pairs.old ≤ P.faults pairs.new }
{
    match pairs.poll(ready) {
        Ok(Polled::Some) => match line.add_all(filter, ready) {
            Ok(()) => Turn::Served,
            Err(_) => Turn::Memory,
        },
        Ok(Polled::Over) => Turn::Over,
        Err(WorldFault::Failed) => Turn::Refused,
        Err(WorldFault::Memory) => Turn::Memory,
    }
}

// The turn served something, where memory sufficed.
fn served(outcome: Result<(), AllocError>) -> Turn
    ensures { result ≡ served_by outcome }
{
    match outcome {
        Ok(()) => Turn::Served,
        Err(_) => Turn::Memory,
    }
}

/// Serves the first thing that can be served, or polls where there is none.
pub fn serve_next<P: Pairs>(
    line: &mut Line,
    filter: &mut Filter,
    pairs: &mut P,
    room: &mut [u8],
    ready: &mut Vec<PairReady>,
) -> Turn
    requires pairs { P.last_pair pairs.old ≡ filter.old.last_pair }
    requires room { length room.old ≡ read_room }
    ensures legal { Turns result (at filter.old line.old Free)
        (P.journal pairs.old) (P.journal pairs.new) (at filter.new line.new Free) }
    ensures pairs { result ≡ turns.Served → P.last_pair pairs.new ≡ filter.new.last_pair }
    ensures cause { result ≡ turns.Refused → Rose (P.faults pairs.old) (P.faults pairs.new) }
    ensures room { length room.new ≡ length room.old }
    ensures later { P.faults pairs.old ≤ P.faults pairs.new }
{
    match line.first(filter) {
        Some(Thing::Accept) => served(accept(line, filter, pairs)),
        Some(Thing::Read(pair, side)) => served(read(line, filter, pairs, pair, side, room)),
        Some(Thing::Write(pair, side)) => served(send(line, filter, pairs, pair, side)),
        None => poll(line, filter, pairs, ready),
    }
}
