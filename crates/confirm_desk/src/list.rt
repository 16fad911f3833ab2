//! Confirmations by their jobs and clients.

ghost use Rattle.std.specs.Prelude.{◌≡◌, ◌≤◌, IsSome, IfOk, MatchOption, None, OnErr, OnOk, length};
ghost use Rattle.std.specs.List.{position};
ghost use Rattle.std.specs.Option.{option_map};
ghost use Rattle.lists.specs.Firsts.{IsFirst};
ghost use Rattle.lists.specs.Keyed.{has_key};
ghost use Rattle.confirm_desk.specs.Calls.{given_back, lesser, next_owed, owed_port, telling, took_at};
ghost use Rattle.confirm_desk.specs.Confirmations.{asker_of, came_to, find_asker, find_job, find_linked, job_of, linked, lose, owed_to};
ghost use Rattle.confirm_desk.specs.Sound.{AreApart};

use crate::consent::Answer;
use crate::held::{Held, Verdict};
use crate::pending::Pending;
use std::alloc::AllocError;

/// Where the confirmation of this job stands.
#[tactic(auto, using(lists::proofs::FirstLemmas::is_place))]
pub fn place_of(pending: &[Pending], job: u64) -> Option<usize>
    ensures { MatchOption result (find_job job pending.now ≡ None)
        (IsFirst (has_key job_of job) pending.now) }
{
    first_of(pending, job)
}

fn first_of(pending: &[Pending], job: u64) -> Option<usize>
    ensures { result ≡ position (has_key job_of job) pending.now }
{
    pending.iter().position(|one| one.job() == job)
}

/// Where that of this client stands.
#[tactic(auto, using(lists::proofs::FirstLemmas::is_place))]
pub fn place_of_asker(pending: &[Pending], asker: u64) -> Option<usize>
    ensures { MatchOption result (find_asker asker pending.now ≡ None)
        (IsFirst (has_key asker_of asker) pending.now) }
{
    first_of_asker(pending, asker)
}

fn first_of_asker(pending: &[Pending], asker: u64) -> Option<usize>
    ensures { result ≡ position (has_key asker_of asker) pending.now }
{
    pending.iter().position(|one| one.asker() == asker)
}

/// Where that stands whose child process came to this port.
#[tactic(auto, using(lists::proofs::FirstLemmas::is_place))]
pub fn place_linked(pending: &[Pending], port: u64) -> Option<usize>
    ensures { MatchOption result (find_linked port pending.now ≡ None)
        (IsFirst (came_to port) pending.now) }
{
    first_linked(pending, port)
}

fn first_linked(pending: &[Pending], port: u64) -> Option<usize>
    ensures { result ≡ position (came_to port) pending.now }
{
    pending.iter().position(|one| one.port() == Some(port))
}

/// The child process of this job came to this port.
pub fn link(pending: &mut Vec<Pending>, job: u64, port: u64)
    requires { IsSome (find_job job pending.old.items) }
    ensures { pending.new.items ≡ linked job port pending.old.items }
{
    let Some(place) = place_of(pending, job) else {
        unreachable!()
    };
    let one = &mut pending[place];
    one.link(port);
}

/// Ends the confirmation of this job, and gives what it held.
#[tactic(auto, using(lists::proofs::FirstLemmas::removed_there, lists::proofs::FirstLemmas::found_there, lists::proofs::FirstLemmas::removed_nowhere))]
pub fn end(pending: &mut Vec<Pending>, job: u64) -> Option<Held>
    ensures left { pending.new.items ≡ lose job pending.old.items }
    ensures held { result ≡ option_map given_back (find_job job pending.old.items) }
{
    let place = place_of(pending, job)?;
    Some(pending.remove(place).into_held())
}

/// The first bytes that the child process at this port was owed are sent.
pub fn take_at(pending: &mut Vec<Pending>, port: u64, count: usize)
    requires there { IsSome (find_linked port pending.old.items) }
    requires owed { count ≤ length (owed_to (find_linked port pending.old.items)) }
    requires apart { AreApart pending.old.items }
    ensures { pending.new.items ≡ took_at port count pending.old.items }
{
    let Some(place) = place_linked(pending, port) else {
        unreachable!()
    };
    let one = &mut pending[place];
    one.take(count);
}

/// The child process at this port sent more. What the user decided by now ends the confirmation.
pub fn tell(pending: &mut Vec<Pending>, port: u64, piece: &[u8]) -> Result<Verdict, AllocError>
    requires there { IsSome (find_linked port pending.old.items) }
    requires apart { AreApart pending.old.items }
    ensures desk { OnOk result (pending.new.items ≡ (telling port piece.now pending.old.items).desk) }
    ensures verdict { IfOk result (λ verdict.
        verdict ≡ (telling port piece.now pending.old.items).verdict) }
    ensures unchanged { OnErr result (pending.new.items ≡ pending.old.items) }
{
    let Some(place) = place_linked(pending, port) else {
        unreachable!()
    };
    let one = &mut pending[place];
    one.hear(piece)?;
    match one.consent() {
        Answer::NotYet => Ok(Verdict::NotYet),
        Answer::Yes => Ok(Verdict::Granted(pending.remove(place).into_held())),
        Answer::No => Ok(Verdict::Denied(pending.remove(place).into_held())),
    }
}

/// The least port above `after` where bytes are owed.
pub fn next_owed(pending: &[Pending], after: u64) -> Option<u64>
    ensures { result ≡ next_owed after pending.now }
{
    let mut least = None;
    for one in pending {
        least = lesser(least, owed_port(one, after));
    }
    least
}

// The lesser of two ports, where there are two.
fn lesser(port: Option<u64>, other: Option<u64>) -> Option<u64>
    ensures { result ≡ lesser port other }
{
    match (port, other) {
        (Some(port), Some(other)) => Some(port.min(other)),
        (port, None) => port,
        (None, other) => other,
    }
}

// Its port, where that is above `after` and bytes are owed there.
fn owed_port(one: &Pending, after: u64) -> Option<u64>
    ensures { result ≡ owed_port after one.now.port one.now.owed }
{
    let port = one.port()?;
    if port > after && !one.owed().is_empty() {
        Some(port)
    } else {
        None
    }
}
