//! Things: whether two are the same, whether one stands among others or at an open port, and whether it can be served.

ghost use Rattle.std.specs.Prelude.{◌≡◌};
ghost use Rattle.loop_model.specs.Elsewhere.{stands};
ghost use Rattle.loop_model.specs.Queues.{dropped};
ghost use Rattle.loop_model.specs.Servable.{is_servable};
ghost use Rattle.loop_model.specs.Things.{same_door, same_thing, set_of};

use crate::Core;
use loop_model::Thing;
use std::collections::VecDeque;
use world_ports::Door;

// Whether both are the same listener.
pub fn is_same_door(door: Door, other: Door) -> bool
    ensures { result ≡ same_door door other }
{
    door == other
}

// Whether both are the same thing.
pub fn is_same(thing: Thing, other: Thing) -> bool
    ensures { result ≡ same_thing thing other }
{
    thing == other
}

// Whether the thing is among these.
pub fn has_thing(things: &VecDeque<Thing>, thing: Thing) -> bool
    ensures { result ≡ set_of things.now.items thing }
{
    'others: for other in things.iter() {
        if is_same(*other, thing) {
            return true;
        }
    }
    false
}

// Whether the thing can be served.
#[inline(always)]
pub fn can_serve<A: Core>(agent: &A, thing: Thing) -> bool
    ensures { result ≡ is_servable (A.state agent.now) thing }
{
    match thing {
        Thing::Accept(_) => agent.ports_so_far() < u64::MAX,
        Thing::Read(port) => agent.wants(port),
        Thing::Write(port) => !agent.owed(port).is_empty(),
    }
}

// Whether the thing is a listener, or its port is open.
#[inline(always)]
pub fn stands<A: Core>(agent: &A, thing: Thing) -> bool
    ensures { result ≡ stands thing (A.state agent.now) }
{
    match thing {
        Thing::Accept(_) => true,
        Thing::Read(port) => agent.is_port(port),
        Thing::Write(port) => agent.is_port(port),
    }
}

// Without this thing.
pub fn drop_from(things: &mut VecDeque<Thing>, thing: Thing)
    ensures { things.new.items ≡ dropped thing things.old.items }
{
    things.retain(|other| !is_same(thing, *other));
}

// Without this thing, which is looked for only where it stands there.
pub fn drop_if(there: bool, things: &mut VecDeque<Thing>, thing: Thing)
    requires { there ≡ set_of things.old.items thing }
    ensures { things.new.items ≡ dropped thing things.old.items }
{
    if there {
        drop_from(things, thing);
    }
}
