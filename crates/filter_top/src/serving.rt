//! The filter's loop: it listens, then takes one turn after another until one ends the program.

ghost use Rattle.std.specs.Prelude.{◌≡◌, ◌≤◌, [], IfOk, length};
ghost use Rattle.filter_model.specs.Answered.{Binding, at};
ghost use Rattle.filter_model.specs.Answered.{Free};
ghost use Rattle.world_ports.specs.Worlds.{read_room};
ghost use Rattle.filter_top.specs.Program.{Serves};
ghost use Rattle.filter_top.specs.declared.status.FilterStatus.TheVariants as status;
ghost use Rattle.world_ports.specs.Causes.{Rose};

use crate::line::Line;
use crate::status::FilterStatus;
use crate::turn::{Turn, serve_next};
use filter_core::Filter;
use pair_ports::{PairReady, Pairs};
use std::alloc::{AllocError, Global};
use std::sync::Wait;
use world_ports::{READ_ROOM, WorldFault};

// Room for reads.
fn new_room(alloc: Global) -> Result<Vec<u8>, AllocError>
    ensures { IfOk result (λ room. length room.items ≡ read_room) }
{
    vec![in alloc; 0; READ_ROOM]
}

// Turns until the loop ends.
fn run<R: Wait, P: Pairs>(
    rt: &R,
    line: &mut Line,
    filter: &mut Filter,
    pairs: &mut P,
    room: &mut [u8],
    ready: &mut Vec<PairReady>,
) -> FilterStatus
    requires pairs { P.last_pair pairs.old ≡ filter.old.last_pair }
    requires room { length room.old ≡ read_room }
    ensures serves { Serves result (at filter.old line.old Free) (P.journal pairs.old) (P.journal pairs.new) }
    ensures bind { result ≡ status.BindFault → Rose (P.faults pairs.old) (P.faults pairs.new) }
    ensures poll { result ≡ status.PollFault → Rose (P.faults pairs.old) (P.faults pairs.new) }
    ensures later { P.faults pairs.old ≤ P.faults pairs.new }
{
    'turns: for _ in rt.forever() {
        match serve_next(line, filter, pairs, room, ready) {
            Turn::Served => {}
            Turn::Over => return FilterStatus::Done,
            Turn::Refused => return FilterStatus::PollFault,
            Turn::Memory => return FilterStatus::Memory,
        }
    }
    unreachable!()
}

/// Serves clients that connect at `path`, each with a connection of its own to the agent at `upstream` while it needs one.
pub fn serve<R: Wait, P: Pairs>(
    rt: &R,
    alloc: Global,
    filter: &mut Filter,
    pairs: &mut P,
    path: &str,
    upstream: &str,
) -> FilterStatus
    requires { P.last_pair pairs.old ≡ filter.old.last_pair }
    ensures serves { Serves result (at filter.old [] (Binding path.now upstream.now))
        (P.journal pairs.old) (P.journal pairs.new) }
    ensures bind { result ≡ status.BindFault → Rose (P.faults pairs.old) (P.faults pairs.new) }
    ensures poll { result ≡ status.PollFault → Rose (P.faults pairs.old) (P.faults pairs.new) }
    ensures later { P.faults pairs.old ≤ P.faults pairs.new }
{
    let Ok(mut room) = new_room(alloc) else {
        return FilterStatus::Memory;
    };
    match pairs.bind(path, upstream) {
        Ok(()) => {
            let mut line = Line::new(alloc);
            let mut ready = Vec::new(alloc);
            run(rt, &mut line, filter, pairs, &mut room, &mut ready)
        }
        Err(WorldFault::Failed) => FilterStatus::BindFault,
        Err(WorldFault::Memory) => FilterStatus::Memory,
    }
}
