//! Words that name destinations made into constraints, with the keys that known hosts have.

ghost use Rattle.std.specs.Prelude.{◌≡◌, All, IfOk, Ok, map};
ghost use Rattle.std.specs.Option.{option_map};
ghost use Rattle.constraint_rec.specs.Hops.{IsDestination};
ghost use Rattle.add_rules.specs.Destinations.{destination};
ghost use Rattle.add_rules.specs.Rules.{hop_from, hop_to, keys_of, rule_for, rule_of, rules_of};

use crate::destination::{Destination, first_fault, read_destination};
use crate::fault::DestFault;
use constraint_rec::{Constraint, Hop, KeySpec};
use known_hosts::host_keys;
use plain_lists::{Bytes, PlainList};
use std::alloc::{AllocError, Global};

/// What is made of a word: a part of a constraint, or its fault; or memory ran out.
type Made<T> = Result<Result<T, DestFault>, AllocError>;

fn copied(alloc: Global, bytes: &[u8]) -> Result<Bytes, AllocError>
    ensures { IfOk result (λ copy. copy ≡ bytes.now) }
{
    Ok(Bytes::from_vec(Vec::from_slice(alloc, bytes)?))
}

/// The keys of a host, of all files of known hosts in their order.
fn keys_of(alloc: Global, files: &[Bytes], host: &[u8]) -> Result<PlainList<KeySpec>, AllocError>
    ensures { IfOk result (λ keys. keys ≡ keys_of files.now host.now) }
{
    let mut keys = Vec::new(alloc);
    'files: for file in files {
        let mut more = host_keys(alloc, file.as_slice(), host)?;
        keys.append(&mut more)?;
    }
    Ok(PlainList::from_vec(keys))
}

/// The hop to a host.
fn hop_to(alloc: Global, files: &[Bytes], user: &[u8], host: &[u8]) -> Made<Hop>
    ensures { IfOk result (λ made. made ≡ hop_to files.now user.now host.now) }
{
    let keys = keys_of(alloc, files, host)?;
    if keys.is_empty() {
        return Ok(Err(DestFault::NoKeys));
    }
    Ok(Ok(Hop {
        user: copied(alloc, user)?,
        host: copied(alloc, host)?,
        keys,
    }))
}

/// The hop that is left.
fn hop_from(alloc: Global, files: &[Bytes], source: Option<&[u8]>) -> Made<Hop>
    ensures { IfOk result (λ made.
        made ≡ hop_from files.now (option_map (λ text. text.now) source.entry)) }
{
    match source {
        Some(source) => hop_to(alloc, files, &[], source),
        None => Ok(Ok(Hop {
            user: Bytes::new(alloc),
            host: Bytes::new(alloc),
            keys: PlainList::new(alloc),
        })),
    }
}

/// The constraint of a destination.
fn rule_for(alloc: Global, files: &[Bytes], typed: &Destination<'_>) -> Made<Constraint>
    ensures { IfOk result (λ made. made ≡ rule_for files.now (destination typed.now)) }
{
    if let Some(fault) = first_fault(typed) {
        return Ok(Err(fault));
    }
    let from = match hop_from(alloc, files, typed.source)? {
        Ok(from) => from,
        Err(fault) => return Ok(Err(fault)),
    };
    let user = typed.user.unwrap_or(&[]);
    match hop_to(alloc, files, user, typed.host)? {
        Ok(to) => Ok(Ok(Constraint { from, to })),
        Err(fault) => Ok(Err(fault)),
    }
}

/// The constraint that a word asks for.
#[tactic(auto, unfolding(crate::specs::Rules::rule_of))]
fn rule_of(alloc: Global, files: &[Bytes], word: &[u8]) -> Made<Constraint>
    ensures { IfOk result (λ made. made ≡ rule_of files.now word.now) }
{
    rule_for(alloc, files, &read_destination(word))
}

/// The constraints that words ask for, by the keys in these files of known hosts.
///
/// Each word is a destination of ssh-add(1): `[user@]host`, or `source>[user@]host`. The fault is that
/// of the first word that has one.
pub fn destination_rules(
    alloc: Global,
    files: &[Bytes],
    words: &[&str],
) -> Made<PlainList<Constraint>>
    ensures value { IfOk result (λ made.
        made ≡ rules_of files.now (map (λ word. word.now) words.now)) }

    // Each can be written.
    ensures writable { IfOk result (λ made. IfOk made (λ rules. All IsDestination rules)) }
{
    let mut rules = Vec::new(alloc);
    'words: for word in words {
        match rule_of(alloc, files, word.as_bytes())? {
            Ok(rule) => rules.push(rule)?,
            Err(fault) => return Ok(Err(fault)),
        }
    }
    Ok(Ok(PlainList::from_vec(rules)))
}
