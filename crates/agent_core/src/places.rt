//! Looks for a port's place among the open ones, first near a guess, and for who is owed bytes.

ghost use Rattle.std.specs.Prelude.{◌≡◌, ◌^◌, IsTrue, None, MatchOption};
ghost use Rattle.agent_model.specs.Sound.{IsRising};
ghost use Rattle.agent_model.specs.State.{find_port};
ghost use Rattle.agent_core.specs.Slots.{first_above, is_owing, owing_of, port_of, ports_of};
ghost use Rattle.agent_core.specs.Places.{IsPlace};

use crate::slot::Slot;
use world_ports::Door;

// Where the port of this number stands.
fn place_of(slots: &[Slot], number: u64) -> Option<usize>
    requires { IsRising 0 (2 ^ 64) (ports_of slots.now) }
    ensures { MatchOption result (find_port number (ports_of slots.now) ≡ None) (λ place. IsPlace number (ports_of slots.now) place) }
{
    slots.binary_search_by_key(&number, |slot| slot.number).ok()
}

// Where the port of this number stands if each one between it and that at `near` is open.
fn guess(slots: &[Slot], near: usize, number: u64) -> usize {
    match slots.get(near) {
        Some(slot) => near.wrapping_add(number.wrapping_sub(slot.number) as usize),
        None => 0,
    }
}

// Whether the port of this number stands at this place.
#[inline(always)]
fn is_at(slots: &[Slot], place: usize, number: u64) -> bool
    requires { IsRising 0 (2 ^ 64) (ports_of slots.now) }
    ensures { IsTrue result → IsPlace number (ports_of slots.now) place }
{
    match slots.get(place) {
        Some(slot) => slot.number == number,
        None => false,
    }
}

// Where the port of this number stands. `near` is tried first: most searches of an event are for one port.
#[inline(always)]
pub fn place_near(slots: &[Slot], near: usize, number: u64) -> Option<usize>
    requires { IsRising 0 (2 ^ 64) (ports_of slots.now) }
    ensures { MatchOption result (find_port number (ports_of slots.now) ≡ None) (λ place. IsPlace number (ports_of slots.now) place) }
{
    if is_at(slots, near, number) {
        return Some(near);
    }
    place_from(slots, near, number)
}

// The same: as far from `near` as its number is, or anywhere.
#[inline(never)]
fn place_from(slots: &[Slot], near: usize, number: u64) -> Option<usize>
    requires { IsRising 0 (2 ^ 64) (ports_of slots.now) }
    ensures { MatchOption result (find_port number (ports_of slots.now) ≡ None) (λ place. IsPlace number (ports_of slots.now) place) }
{
    let place = guess(slots, near, number);
    if is_at(slots, place, number) {
        return Some(place);
    }
    place_of(slots, number)
}

// Whether it is a client that is owed bytes.
#[tactic(auto, unfolding(crate::specs::Slots::is_owing))]
fn is_owing(slot: &Slot) -> bool
    ensures { result ≡ is_owing (port_of slot.now) }
{
    slot.door == Door::Clients && !slot.owed.bytes().is_empty()
}

// The first client above `after` that is owed bytes.
pub fn next_owing(slots: &[Slot], after: u64) -> Option<u64>
    ensures { result ≡ first_above after (owing_of (ports_of slots.now)) }
{
    'slots: for slot in slots {
        if slot.number > after && is_owing(slot) {
            return Some(slot.number);
        }
    }
    None
}
