//! Purposes from words.

ghost use Rattle.std.specs.Prelude.{◌≡◌, ◌⊎◌, IfOk, MatchResult, Ok, Err, map};
ghost use Rattle.std.specs.List.{list_any};
ghost use Rattle.std.specs.String.{string_bytes};
ghost use Rattle.key_purposes.specs.Purposes.{is_same, purpose_named, purposes_in, some_purposes, with_purpose, with_word};
ghost use Rattle.key_purposes.specs.declared.fault.PurposeFault.TheVariants.{Memory};

use crate::fault::PurposeFault;
use crate::purpose::{Purpose, is_same};
use plain_lists::Bytes;
use std::alloc::{AllocError, Global};

/// The most purposes.
const MOST: usize = 64;

/// The most bytes of a word.
const LONGEST: usize = 255;

fn copied(alloc: Global, bytes: &[u8]) -> Result<Bytes, AllocError>
    ensures { IfOk result (λ copy. copy ≡ bytes.now) }
{
    Ok(Bytes::from_vec(Vec::from_slice(alloc, bytes)?))
}

// The purpose of this name.
#[tactic(auto, unfolding(crate::specs::Purposes::purpose_named))]
fn named(alloc: Global, word: &[u8]) -> Result<Purpose, PurposeFault>
    ensures { MatchResult result (λ purpose. purpose_named word.now ≡ Ok purpose)
        (λ fault. (fault ≡ Memory) ⊎ (purpose_named word.now ≡ Err fault)) }
{
    if word == b"login".as_slice() {
        return Ok(Purpose::Login);
    }
    if word == b"sshsig".as_slice() {
        return Ok(Purpose::AnyNamespace);
    }
    if word == b"certificate".as_slice() {
        return Ok(Purpose::Certificate);
    }
    if word == b"other".as_slice() {
        return Ok(Purpose::Other);
    }
    let namespace = word
        .strip_prefix(b"sshsig:".as_slice())
        .ok_or(PurposeFault::Unknown)?;
    if namespace.is_empty() {
        return Err(PurposeFault::Unknown);
    }
    Ok(Purpose::Namespace(copied(alloc, namespace)?))
}

// Whether the purpose is one of these.
fn holds(purposes: &[Purpose], purpose: &Purpose) -> bool
    ensures { result ≡ list_any (λ held. is_same held purpose.now) purposes.now }
{
    purposes.iter().any(|held| is_same(held, purpose))
}

// Puts a purpose behind the others.
fn put(purposes: &mut Vec<Purpose>, purpose: Purpose) -> Result<(), PurposeFault>
    ensures { MatchResult result (λ _. with_purpose purposes.old.items purpose ≡ Ok purposes.new.items)
        (λ fault. (fault ≡ Memory) ⊎ (with_purpose purposes.old.items purpose ≡ Err fault)) }
{
    if holds(purposes, &purpose) {
        return Err(PurposeFault::Twice);
    }
    purposes.push(purpose)?;
    Ok(())
}

/// Puts the purpose that the word names behind the others, which are fewer than 64 and don't have it.
#[tactic(auto, unfolding(crate::specs::Purposes::with_word))]
pub fn add_purpose(
    alloc: Global,
    purposes: &mut Vec<Purpose>,
    word: &[u8],
) -> Result<(), PurposeFault>
    ensures { MatchResult result (λ _. with_word purposes.old.items word.now ≡ Ok purposes.new.items)
        (λ fault. (fault ≡ Memory) ⊎ (with_word purposes.old.items word.now ≡ Err fault)) }
{
    if purposes.len() >= MOST {
        return Err(PurposeFault::Many);
    }
    if word.len() > LONGEST {
        return Err(PurposeFault::Long);
    }
    put(purposes, named(alloc, word)?)
}

// The purposes, where there is one.
fn some(purposes: Vec<Purpose>) -> Result<Vec<Purpose>, PurposeFault>
    ensures { MatchResult result (λ held. some_purposes purposes.items ≡ Ok held.items)
        (λ fault. some_purposes purposes.items ≡ Err fault) }
{
    if purposes.is_empty() {
        return Err(PurposeFault::Missing);
    }
    Ok(purposes)
}

/// The purposes that these words name, in their order: 1 to 64 words of at most 255 bytes, none twice, each of them
/// `login`, `sshsig`, `certificate`, `other` or `sshsig:NAMESPACE`.
pub fn read_purposes(alloc: Global, words: &[String]) -> Result<Vec<Purpose>, PurposeFault>
    ensures { MatchResult result (λ purposes. purposes_in (map string_bytes words.now) ≡ Ok purposes.items)
        (λ fault. (fault ≡ Memory) ⊎ (purposes_in (map string_bytes words.now) ≡ Err fault)) }
{
    let mut purposes = Vec::new(alloc);
    'words: for word in words {
        add_purpose(alloc, &mut purposes, word.as_bytes())?;
    }
    some(purposes)
}
