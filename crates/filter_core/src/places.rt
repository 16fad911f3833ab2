//! Looks for a pair's place among the open ones, by its number.

ghost use Rattle.std.specs.Prelude.{◌≡◌, ◌^◌, IfSome, None, MatchOption};
ghost use Rattle.filter_model.specs.Filters.{find_pair};
ghost use Rattle.filter_core.specs.Places.{IsPlace, StandsAt};
ghost use Rattle.filter_core.specs.Slots.{IsRising, pairs_of};

use crate::slot::Slot;

// Where a slot of this number stands as far behind the first one as its number is above that one's: each does while no
// pair is closed that isn't among the first ones.
#[tactic(auto, using(crate::proofs::PlaceLemmas::stands_at))]
fn near(slots: &[Slot], number: u64) -> Option<usize>
    ensures { IfSome result (StandsAt number (pairs_of slots.now)) }
{
    let Some(first) = slots.first() else {
        return None;
    };
    let place = number.wrapping_sub(first.number) as usize;
    match slots.get(place) {
        Some(slot) if slot.number == number => Some(place),
        _ => None,
    }
}

// Where the pair of this number stands, by halving.
fn searched(slots: &[Slot], number: u64) -> Option<usize>
    requires { IsRising 0 (2 ^ 64) (pairs_of slots.now) }
    ensures { MatchOption result (find_pair number (pairs_of slots.now) ≡ None) (λ place. IsPlace number (pairs_of slots.now) place) }
{
    slots.binary_search_by_key(&number, |slot| slot.number).ok()
}

/// Where the pair of this number stands.
pub fn place_of(slots: &[Slot], number: u64) -> Option<usize>
    requires { IsRising 0 (2 ^ 64) (pairs_of slots.now) }
    ensures { MatchOption result (find_pair number (pairs_of slots.now) ≡ None) (λ place. IsPlace number (pairs_of slots.now) place) }
{
    match near(slots, number) {
        Some(place) => Some(place),
        None => searched(slots, number),
    }
}
