//! Compares the things that can be served, finds them in lists, and says which can be served.

ghost use Rattle.std.specs.Prelude.{◌≡◌};
ghost use Rattle.filter_model.specs.Lines.{has_thing, is_of, is_servable, same_side, same_thing};

use filter_core::Filter;
use filter_model::Thing;
use pair_ports::Side;

// Whether both are the same side.
fn is_same_side(side: Side, other: Side) -> bool
    ensures { result ≡ same_side side other }
{
    match (side, other) {
        (Side::Client, Side::Client) => true,
        (Side::Upstream, Side::Upstream) => true,
        _ => false,
    }
}

// Whether both are the same thing.
pub fn is_same(thing: Thing, other: Thing) -> bool
    ensures { result ≡ same_thing thing other }
{
    match (thing, other) {
        (Thing::Accept, Thing::Accept) => true,
        (Thing::Read(pair, side), Thing::Read(other, otherside)) => {
            pair == other && is_same_side(side, otherside)
        }
        (Thing::Write(pair, side), Thing::Write(other, otherside)) => {
            pair == other && is_same_side(side, otherside)
        }
        _ => false,
    }
}

// Whether the thing is of this pair.
pub fn is_of(thing: Thing, pair: u64) -> bool
    ensures { result ≡ is_of pair thing }
{
    match thing {
        Thing::Accept => false,
        Thing::Read(other, _) | Thing::Write(other, _) => pair == other,
    }
}

// Whether the thing is among these.
pub fn has_thing(things: &[Thing], thing: Thing) -> bool
    ensures { result ≡ has_thing thing things.now }
{
    'others: for other in things {
        if is_same(thing, *other) {
            return true;
        }
    }
    false
}

// Whether the thing can be served.
pub fn can_serve(filter: &Filter, thing: Thing) -> bool
    ensures { result ≡ is_servable filter.now thing }
{
    match thing {
        Thing::Accept => filter.pairs_so_far() < u64::MAX,
        Thing::Read(pair, side) => filter.wants(pair, side),
        Thing::Write(pair, side) => filter.can_send(pair, side),
    }
}
