//! Public keys and additions.

use crate::input::bytes_of;
use base64::engine::general_purpose::STANDARD;
use bstr::ByteSlice;
use key_blob::{
    AddedKey, KeyFault, PublicKey, algorithm_fits, bits, fingerprint, read_added, read_public,
    type_word,
};
use std::alloc::{AllocError, Global};
use std::io;
use wire_core::Cursor;

/// What `ssh-keygen -l` tells of a key, and whether it signs by the algorithm that its type names.
pub(crate) fn shown(alloc: Global, word: &str) -> io::Result<Option<String>> {
    let blob = bytes_of(alloc, word)?;
    match read_public(&blob) {
        Ok(key) => Ok(Some(shown_key(alloc, &key)?)),
        Err(fault) => said_fault(alloc, fault),
    }
}

/// Bits, fingerprint, type word, and whether the algorithm of the type's name fits.
pub(crate) fn shown_key(alloc: Global, key: &PublicKey<'_>) -> Result<String, AllocError> {
    let shown = fingerprint(alloc, key)?;
    let fits = algorithm_fits(key, key.type_name);
    format!(in alloc; "{} {} {} fits: {}", bits(key), shown, type_word(key), fits)
}

/// The first fault of a blob, or `key`.
pub(crate) fn fault_of_blob(alloc: Global, word: &str) -> io::Result<Option<String>> {
    let blob = bytes_of(alloc, word)?;
    match read_public(&blob).err() {
        None => Ok(Some(String::from_str(alloc, "key")?)),
        Some(fault) => said_fault(alloc, fault),
    }
}

pub(crate) fn said_fault(alloc: Global, fault: KeyFault) -> io::Result<Option<String>> {
    Ok(Some(format!(in alloc; "{fault:?}")?))
}

/// How many of the fronts of a blob that are shorter than it are told as too short.
pub(crate) fn short_fronts(alloc: Global, word: &str) -> io::Result<Option<String>> {
    let blob = bytes_of(alloc, word)?;
    let mut count = 0u64;
    for len in 0..blob.len() {
        if is_short(&blob[..len]) {
            count = count.saturating_add(1);
        }
    }
    Ok(Some(format!(in alloc; "Short: {} of {}", count, blob.len())?))
}

fn is_short(front: &[u8]) -> bool {
    read_public(front).err() == Some(KeyFault::Short)
}

/// The first fault of an addition, or `addition`, and whether all of the text was taken.
pub(crate) fn fault_of_addition(alloc: Global, word: &str) -> io::Result<Option<String>> {
    let text = bytes_of(alloc, word)?;
    let mut from = Cursor::new(&text);
    let fault = read_added(alloc, &mut from).err();
    let whole = from.at_end();
    let said = match fault {
        None => format!(in alloc; "addition, at the end: {whole}")?,
        Some(fault) => format!(in alloc; "{fault:?}, at the end: {whole}")?,
    };
    Ok(Some(said))
}

/// The blob that an addition with more behind it is of, whether its private fields are the whole addition, and what is left.
pub(crate) fn added(alloc: Global, word: &str, more: &str) -> io::Result<Option<String>> {
    let given = bytes_of(alloc, word)?;
    let more = bytes_of(alloc, more)?;
    let mut text = given.clone()?;
    text.extend_from_slice(&more)?;
    let mut from = Cursor::new(&text);
    match read_added(alloc, &mut from) {
        Ok(key) => Ok(Some(said_addition(alloc, &key, &given, from.rest())?)),
        Err(fault) => said_fault(alloc, fault),
    }
}

fn said_addition(
    alloc: Global,
    key: &AddedKey,
    given: &[u8],
    rest: &[u8],
) -> Result<String, AllocError> {
    let blob = STANDARD.encode(alloc, key.blob.as_slice())?;
    let whole = key.private.same(given);
    format!(in alloc;
        "base64:{} whole: {} left: {}",
        blob,
        whole,
        rest.escape_bytes()
    )
}
