//! The filter.

ghost use Rattle.std.specs.Prelude.{◌≡◌, ◌↔◌, ◌-◌, ◌^◌, ◌<◌, ◌≤◌, [], ◌∷◌, ◌++◌, IsSome, IsTrue, MatchOption, None, OnOk, Some, count_by, false, length, slice_get, true};
ghost use Rattle.std.specs.List.{remove};
ghost use Rattle.filter_model.specs.Filters.{Fits, Joined, at_pair, can_send, find_pair, first_state, happened, has_number, has_place, is_crowded, is_reached, joined, links, owed_of, parted, spares_if, step, trimmed, unlinked_in, wants, without};
ghost use Rattle.filter_model.specs.Pairs.{Pair, is_spare};
ghost use Rattle.filter_core.specs.Happenings.{happening};
ghost use Rattle.filter_core.specs.Slots.{FitsPair, IsRising, listed_of, pair_of, pairs_of};
ghost use Rattle.filter_core.specs.declared.slot.Slot.{Slot};

use crate::FilterEvent;
use crate::listed::Listed;
use crate::places::place_of;
use crate::slot::{self, Slot};
use pair_ports::Side;
use std::alloc::{AllocError, Global};
use std::marker::Model;

/// The most pairs that are open at once.
const MOST_PAIRS: usize = 128;

/// The most connections to the agent behind.
const MOST_LINKS: usize = 64;

/// The most of these that are spare.
const MOST_SPARES: usize = 16;

/// A filter: what it lets be used, its open pairs, those that its last step closed, and those whose connection to the agent behind it
/// gave back. Dropping it wipes what its pairs sent and are owed.
#[derive(Drop)]
pub struct Filter {
    alloc: Global,
    listed: Listed,
    // By their numbers, which rise.
    slots: Vec<Slot>,
    last: u64,
    // The pairs whose connection to the agent behind is spare, the one first of which it is so longest.
    spares: Vec<u64>,
    closed: Vec<u64>,
    parted: Vec<u64>,
}

impl Model for Filter {
    ghost use Rattle.filter_model.specs.Filters.{State};
    ghost use Rattle.filter_core.specs.Slots.{IsKept, listed_of, pairs_of};

    ghost Value = { State };

    ghost view = { λ f. record {
      listed = listed_of f.listed;
      pairs = pairs_of f.slots.items;
      last_pair = f.last;
      spares = f.spares.items;
      closes = f.closed.items;
      parts = f.parted.items;
    } };

    ghost invariant = { λ f. IsKept (pairs_of f.slots.items) f.last };
}

impl Filter {
    /// A filter that lets these keys be listed, and used for what they may sign for. Takes no memory.
    pub fn new(alloc: Global, listed: Listed) -> Filter
        ensures { result ≡ first_state (listed_of listed) }
    {
        Filter {
            alloc,
            listed,
            slots: Vec::new(alloc),
            last: 0,
            spares: Vec::new(alloc),
            closed: Vec::new(alloc),
            parted: Vec::new(alloc),
        }
    }

    /// Whether the event may come now.
    pub fn fits(&self, event: &FilterEvent<'_>) -> bool
        ensures { IsTrue result ↔ Fits (happening event.now) self.now }
    {
        match *event {
            FilterEvent::Joined => self.last < u64::MAX,
            FilterEvent::Connected { pair } => {
                self.can_send(pair, Side::Upstream) && !self.is_reached(pair, Side::Upstream)
            }
            FilterEvent::Heard { pair, side, piece } => {
                self.is_reached(pair, side) && !piece.is_empty()
            }
            FilterEvent::Took { pair, side, count } => {
                self.is_reached(pair, side) && count > 0 && count <= self.owed(pair, side).len()
            }
            FilterEvent::Lost { pair } => self.is_reached(pair, Side::Upstream),
            FilterEvent::Ended { pair } => self.is_open(pair),
        }
    }

    /// Takes one event. Where memory runs out, the filter can only be dropped.
    pub fn step(&mut self, event: &FilterEvent<'_>) -> Result<(), AllocError>
        requires { Fits (happening event.now) self.old }
        ensures { OnOk result (self.new ≡ step self.old (happening event.now)) }
    {
        self.happen(event)?;
        self.trim()
    }

    /// What a side of a pair is owed: nothing where the pair isn't open.
    pub fn owed(&self, pair: u64, side: Side) -> &[u8]
        ensures { result.now ≡ owed_of pair side self.now }
    {
        match self.find(pair) {
            Some(slot) => slot::owed(slot, side),
            None => &[],
        }
    }

    /// Whether there is a connection to a side of a pair.
    pub fn is_reached(&self, pair: u64, side: Side) -> bool
        ensures { result ≡ is_reached pair side self.now }
    {
        match self.find(pair) {
            Some(slot) => slot::reaches(slot, side),
            None => false,
        }
    }

    /// Whether a side of a pair is owed bytes, and there is a connection to it or a place for one.
    pub fn can_send(&self, pair: u64, side: Side) -> bool
        ensures { result ≡ can_send pair side self.now }
    {
        match self.find(pair) {
            Some(slot) => {
                !slot::owed(slot, side).is_empty()
                    && (slot::reaches(slot, side) || self.has_place())
            }
            None => false,
        }
    }

    /// Whether a side of a pair is to be read: not where there is no connection to it, and not while a whole frame or a
    /// bad one of that side waits to be taken.
    pub fn wants(&self, pair: u64, side: Side) -> bool
        ensures { result ≡ wants pair side self.now }
    {
        match self.find(pair) {
            Some(slot) => slot::wants(slot, side),
            None => false,
        }
    }

    /// The pairs that the last step closed, rising.
    pub fn closes(&self) -> &[u64]
        ensures { result.now ≡ self.now.closes }
    {
        &self.closed
    }

    /// The pairs whose connection to the agent behind the last step gave back, rising.
    pub fn parts(&self) -> &[u64]
        ensures { result.now ≡ self.now.parts }
    {
        &self.parted
    }

    /// Whether the pair is open.
    pub fn is_open(&self, pair: u64) -> bool
        ensures { IsTrue result ↔ IsSome (find_pair pair self.now.pairs) }
    {
        self.find(pair).is_some()
    }

    /// The number of the last pair that joined, 0 where none did.
    pub fn pairs_so_far(&self) -> u64
        ensures { result ≡ self.now.last_pair }
    {
        self.last
    }
}

impl Filter {
    fn find(&self, pair: u64) -> Option<&Slot>
        ensures { MatchOption result (find_pair pair self.now.pairs ≡ None)
            (λ slot. find_pair pair self.now.pairs ≡ Some (pair_of slot.now)) }
    {
        match place_of(&self.slots, pair) {
            Some(place) => Some(&self.slots[place]),
            None => None,
        }
    }

    // Whether one pair more may have a connection to the agent behind: counted only where so many pairs are open.
    fn has_place(&self) -> bool
        ensures { result ≡ has_place self.now }
    {
        self.slots.len() < MOST_LINKS || count_links(&self.slots) < MOST_LINKS
    }

    // Whether more connections are spare than may be, or no place is left for one that is needed.
    fn is_crowded(&self) -> bool
        ensures { result ≡ is_crowded self.now }
    {
        self.spares.len() > MOST_SPARES || !self.has_place()
    }

    // Takes one event, with however many spare connections.
    fn happen(&mut self, event: &FilterEvent<'_>) -> Result<(), AllocError>
        requires { Fits (happening event.now) self.old }
        ensures { OnOk result (self.new ≡ happened self.old (happening event.now)) }
    {
        self.closed.clear();
        self.parted.clear();
        match *event {
            FilterEvent::Joined => self.join(),
            FilterEvent::Connected { pair } => self.tell(pair, event),
            FilterEvent::Heard { pair, .. } => self.tell(pair, event),
            FilterEvent::Took { pair, .. } => self.tell(pair, event),
            FilterEvent::Lost { pair } => self.tell(pair, event),
            FilterEvent::Ended { pair } => self.tell(pair, event),
        }
    }

    // Gives the first spare connection back where there are too many.
    #[tactic(auto, using(crate::proofs::SlotLemmas::trims_none, crate::proofs::SlotLemmas::trims_one, crate::proofs::SlotLemmas::trims_not))]
    fn trim(&mut self) -> Result<(), AllocError>
        ensures { OnOk result (self.new ≡ trimmed self.old) }
    {
        let Some(oldest) = first_of(&self.spares) else {
            return Ok(());
        };
        if self.is_crowded() {
            return self.part(oldest);
        }
        Ok(())
    }

    // Gives the connection of this pair back.
    #[tactic(auto, using(crate::proofs::SlotLemmas::kept_rising, crate::proofs::SlotLemmas::kept_unlinked))]
    fn part(&mut self, number: u64) -> Result<(), AllocError>
        ensures { OnOk result (self.new ≡ record self.old {
          pairs = unlinked_in number self.old.pairs;
          spares = without number self.old.spares;
          parts = self.old.parts ++ number ∷ [];
        }) }
    {
        unlink(&mut self.slots, number);
        drop_spare(&mut self.spares, number);
        self.parted.push(number)?;
        Ok(())
    }

    // A pair joins. Where too many are open it is closed at once.
    fn join(&mut self) -> Result<(), AllocError>
        requires last { self.old.last_pair < 2 ^ 64 - 1 }
        requires closes { self.old.closes ≡ [] }
        requires parts { self.old.parts ≡ [] }
        ensures { OnOk result (self.new ≡ happened self.old Joined) }
    {
        if self.slots.len() < MOST_PAIRS {
            self.admit()
        } else {
            self.turn_away()
        }
    }

    // A pair is opened.
    fn admit(&mut self) -> Result<(), AllocError>
        requires last { self.old.last_pair < 2 ^ 64 - 1 }
        requires closes { self.old.closes ≡ [] }
        requires parts { self.old.parts ≡ [] }
        ensures { OnOk result (self.new ≡ joined true self.old) }
    {
        let number = self.last + 1;
        self.slots.push(slot::new(self.alloc, number))?;
        self.last = number;
        Ok(())
    }

    // A pair that has no room is closed.
    fn turn_away(&mut self) -> Result<(), AllocError>
        requires last { self.old.last_pair < 2 ^ 64 - 1 }
        requires closes { self.old.closes ≡ [] }
        requires parts { self.old.parts ≡ [] }
        ensures { OnOk result (self.new ≡ joined false self.old) }
    {
        let number = self.last + 1;
        self.closed.push(number)?;
        self.last = number;
        Ok(())
    }

    // An event of a pair happened: nothing, where it isn't open.
    fn tell(&mut self, pair: u64, event: &FilterEvent<'_>) -> Result<(), AllocError>
        requires closes { self.old.closes ≡ [] }
        requires parts { self.old.parts ≡ [] }
        requires fits { (found : Pair) → find_pair pair self.old.pairs ≡ Some found → FitsPair (happening event.now) found }
        ensures { OnOk result
            (self.new ≡ at_pair (find_pair pair self.old.pairs) pair (happening event.now) self.old) }
    {
        match place_of(&self.slots, pair) {
            Some(place) => {
                let slot = &mut self.slots[place];
                let was_linked = slot.is_linked;
                match slot::tell(self.alloc, slot, &self.listed, event)? {
                    true => note(&mut self.spares, &mut self.parted, pair, slot, was_linked),
                    false => close(&mut self.slots, &mut self.spares, &mut self.closed, place),
                }
            }
            None => Ok(()),
        }
    }
}

// Takes the connection to the agent behind from the pair of this number.
#[tactic(auto, using(crate::proofs::SlotLemmas::unlinks_slot, crate::proofs::SlotLemmas::unlinks_none))]
fn unlink(slots: &mut Vec<Slot>, number: u64)
    requires { IsRising 0 (2 ^ 64) (pairs_of slots.old.items) }
    ensures { pairs_of slots.new.items ≡ unlinked_in number (pairs_of slots.old.items) }
{
    match place_of(slots, number) {
        Some(place) => slot::unlink(&mut slots[place]),
        None => {}
    }
}

// How many of the slots have a connection to the agent behind.
fn count_linked(slots: &[Slot]) -> usize
    ensures { result ≡ count_by (λ slot. slot.is_linked) slots.now }
{
    slots.iter().filter(|slot| slot.is_linked).count()
}

// How many of their pairs have one.
fn count_links(slots: &[Slot]) -> usize
    ensures { result ≡ links (pairs_of slots.now) }
{
    count_linked(slots)
}

// The pair of this number has no spare connection.
fn drop_spare(spares: &mut Vec<u64>, number: u64)
    ensures { spares.new.items ≡ without number spares.old.items }
{
    spares.retain(|other| number != *other);
}

// The first of these numbers.
fn first_of(numbers: &[u64]) -> Option<u64>
    ensures { result ≡ slice_get numbers.now 0 }
{
    numbers.first().copied()
}

// Whether the number is one of these.
fn has_number(numbers: &[u64], number: u64) -> bool
    ensures { result ≡ has_number number numbers.now }
{
    'others: for other in numbers {
        if number == *other {
            return true;
        }
    }
    false
}

// The pair of this number has a spare connection: behind the others, where that is new.
fn add_spare(spares: &mut Vec<u64>, number: u64) -> Result<(), AllocError>
    ensures { OnOk result (spares.new.items ≡ spares_if true number spares.old.items) }
{
    if !has_number(spares, number) {
        spares.push(number)?;
    }
    Ok(())
}

// Notes whether the pair of this number has a spare connection.
fn note_spare(spares: &mut Vec<u64>, number: u64, is_spare: bool) -> Result<(), AllocError>
    ensures { OnOk result (spares.new.items ≡ spares_if is_spare number spares.old.items) }
{
    if is_spare {
        return add_spare(spares, number);
    }
    drop_spare(spares, number);
    Ok(())
}

// Notes what became of the connection of this pair.
fn note(
    spares: &mut Vec<u64>,
    noted: &mut Vec<u64>,
    number: u64,
    slot: &Slot,
    was_linked: bool,
) -> Result<(), AllocError>
    ensures { OnOk result ((spares.new.items ≡ spares_if (is_spare (pair_of slot.now)) number spares.old.items)
        × (noted.new.items ≡ noted.old.items ++ parted number was_linked slot.now.is_linked)) }
{
    note_spare(spares, number, slot::is_spare(slot))?;
    note_parted(noted, number, was_linked, slot.is_linked)
}

// Notes the pair of this number where it gave its connection back.
fn note_parted(
    noted: &mut Vec<u64>,
    number: u64,
    was_linked: bool,
    is_linked: bool,
) -> Result<(), AllocError>
    ensures { OnOk result (noted.new.items ≡ noted.old.items ++ parted number was_linked is_linked) }
{
    if was_linked && !is_linked {
        noted.push(number)?;
    }
    Ok(())
}

// Closes the pair at this place. What it sent and is owed is wiped.
fn close(
    slots: &mut Vec<Slot>,
    spares: &mut Vec<u64>,
    closed: &mut Vec<u64>,
    place: usize,
) -> Result<(), AllocError>
    requires { place < length slots.old.items }
    ensures slots { slots.new.items ≡ remove slots.old.items place }
    ensures spares { (slot : Slot) → slice_get slots.old.items place ≡ Some slot
        → spares.new.items ≡ without slot.number spares.old.items }
    ensures closed { (slot : Slot) → slice_get slots.old.items place ≡ Some slot
        → OnOk result (closed.new.items ≡ closed.old.items ++ slot.number ∷ []) }
{
    let slot = slots.remove(place);
    drop_spare(spares, slot.number);
    closed.push(slot.number)?;
    Ok(())
}
