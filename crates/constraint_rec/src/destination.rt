//! The reader of destination constraints. A refused call may have moved the cursor.

ghost use Rattle.std.specs.Prelude.{◌≡◌, ◌<◌, ◌⊎◌, length, IfOk, OnOk, MatchResult, Ok, Err};
ghost use Rattle.constraint_rec.specs.declared.fault.TermFault.TheVariants.{Memory};
ghost use Rattle.constraint_rec.specs.HopReading.{IsReadingOf, key_at, after_reserved, all_of, hop_in, as_from, as_to, hop_at, constraint_in, constraint_at, rules_in};

use crate::constraint::{Constraint, Hop};
use crate::fault::TermFault;
use crate::key_spec::KeySpec;
use key_blob::read_public;
use plain_lists::{Bytes, PlainList};
use std::alloc::{AllocError, Global};
use wire_core::Cursor;

fn copied(alloc: Global, bytes: &[u8]) -> Result<Bytes, AllocError>
    ensures { IfOk result (λ copy. copy ≡ bytes.now) }
{
    Ok(Bytes::from_vec(Vec::from_slice(alloc, bytes)?))
}

/// Takes a key. The blob is tried before the byte behind it is read.
#[tactic(auto, unfolding(crate::specs::HopReading::key_at))]
fn take_key(alloc: Global, from: &mut Cursor<'_>) -> Result<KeySpec, TermFault>
    ensures exact { MatchResult result (λ key. key_at from.old ≡ Ok (key, from.new))
        (λ fault. (fault ≡ Memory) ⊎ (key_at from.old ≡ Err fault)) }
    ensures shorter { OnOk result (length from.new < length from.old) }
{
    let blob = from.take_string()?;
    if read_public(blob).is_err() {
        return Err(TermFault::Key);
    }
    let authority = from.take_bool()?;
    let blob = copied(alloc, blob)?;
    Ok(KeySpec { blob, authority })
}

/// Takes a reserved string, which has to be empty.
#[tactic(auto, unfolding(crate::specs::HopReading::after_reserved))]
fn take_reserved(from: &mut Cursor<'_>) -> Result<(), TermFault>
    ensures { MatchResult result (λ _. after_reserved from.old ≡ Ok from.new)
        (λ fault. after_reserved from.old ≡ Err fault) }
{
    if !from.take_string()?.is_empty() {
        return Err(TermFault::Reserved);
    }
    Ok(())
}

/// Reads keys to the end of `bytes`.
fn keys_in(alloc: Global, bytes: &[u8]) -> Result<PlainList<KeySpec>, TermFault>
    ensures { IsReadingOf (all_of key_at bytes.now) result }
{
    let mut keys = Vec::new(alloc);
    let mut from = Cursor::new(bytes);
    'keys: while !from.at_end() {
        keys.push(take_key(alloc, &mut from)?)?;
    }
    Ok(PlainList::from_vec(keys))
}

/// Reads a hop, all of `bytes`.
#[tactic(auto, unfolding(crate::specs::HopReading::hop_in))]
fn read_hop(alloc: Global, bytes: &[u8]) -> Result<Hop, TermFault>
    ensures { IsReadingOf (hop_in bytes.now) result }
{
    let mut from = Cursor::new(bytes);
    let user = from.take_string()?;
    let host = from.take_string()?;
    take_reserved(&mut from)?;
    let keys = keys_in(alloc, from.rest())?;
    Ok(Hop {
        user: copied(alloc, user)?,
        host: copied(alloc, host)?,
        keys,
    })
}

/// The hop, where it can be left.
#[tactic(auto, unfolding(crate::specs::HopReading::as_from))]
fn judge_from(hop: Hop) -> Result<Hop, TermFault>
    ensures { MatchResult result (λ good. as_from hop ≡ Ok good)
        (λ fault. as_from hop ≡ Err fault) }
{
    if !hop.user.is_empty() {
        return Err(TermFault::FromUser);
    }
    if hop.host.is_empty() != hop.keys.is_empty() {
        return Err(TermFault::FromHalf);
    }
    Ok(hop)
}

/// The hop, where it can be entered.
#[tactic(auto, unfolding(crate::specs::HopReading::as_to))]
fn judge_to(hop: Hop) -> Result<Hop, TermFault>
    ensures { MatchResult result (λ good. as_to hop ≡ Ok good)
        (λ fault. as_to hop ≡ Err fault) }
{
    if hop.host.is_empty() || hop.keys.is_empty() {
        return Err(TermFault::ToHalf);
    }
    Ok(hop)
}

fn take_from(alloc: Global, from: &mut Cursor<'_>) -> Result<Hop, TermFault>
    ensures { MatchResult result (λ hop. hop_at as_from from.old ≡ Ok (hop, from.new))
        (λ fault. (fault ≡ Memory) ⊎ (hop_at as_from from.old ≡ Err fault)) }
{
    let hop = read_hop(alloc, from.take_string()?)?;
    judge_from(hop)
}

fn take_to(alloc: Global, from: &mut Cursor<'_>) -> Result<Hop, TermFault>
    ensures { MatchResult result (λ hop. hop_at as_to from.old ≡ Ok (hop, from.new))
        (λ fault. (fault ≡ Memory) ⊎ (hop_at as_to from.old ≡ Err fault)) }
{
    let hop = read_hop(alloc, from.take_string()?)?;
    judge_to(hop)
}

/// Reads a constraint, all of `bytes`. Each hop is judged before the next one's length is read.
#[tactic(auto, unfolding(crate::specs::HopReading::constraint_in))]
fn read_destination(alloc: Global, bytes: &[u8]) -> Result<Constraint, TermFault>
    ensures { IsReadingOf (constraint_in bytes.now) result }
{
    let mut cursor = Cursor::new(bytes);
    let from = take_from(alloc, &mut cursor)?;
    let to = take_to(alloc, &mut cursor)?;
    take_reserved(&mut cursor)?;
    if !cursor.at_end() {
        return Err(TermFault::Short);
    }
    Ok(Constraint { from, to })
}

/// Takes a constraint. It is read whole before the next one's length is.
#[tactic(auto, unfolding(crate::specs::HopReading::constraint_at))]
fn take_destination(alloc: Global, from: &mut Cursor<'_>) -> Result<Constraint, TermFault>
    ensures exact { MatchResult result (λ rule. constraint_at from.old ≡ Ok (rule, from.new))
        (λ fault. (fault ≡ Memory) ⊎ (constraint_at from.old ≡ Err fault)) }
    ensures shorter { OnOk result (length from.new < length from.old) }
{
    read_destination(alloc, from.take_string()?)
}

/// Reads constraints to the end of `bytes`.
fn destinations_in(alloc: Global, bytes: &[u8]) -> Result<PlainList<Constraint>, TermFault>
    ensures { IsReadingOf (all_of constraint_at bytes.now) result }
{
    let mut rules = Vec::new(alloc);
    let mut from = Cursor::new(bytes);
    'rules: while !from.at_end() {
        rules.push(take_destination(alloc, &mut from)?)?;
    }
    Ok(PlainList::from_vec(rules))
}

/// Reads constraints to the end of `bytes`, of which there have to be some.
#[tactic(auto, unfolding(crate::specs::HopReading::rules_in))]
pub fn read_destinations(alloc: Global, bytes: &[u8]) -> Result<PlainList<Constraint>, TermFault>
    ensures { IsReadingOf (rules_in bytes.now) result }
{
    let rules = destinations_in(alloc, bytes)?;
    if rules.is_empty() {
        return Err(TermFault::NoRules);
    }
    Ok(rules)
}
