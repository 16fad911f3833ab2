//! The words of a line.

use base64::engine::general_purpose::STANDARD;
use bstr::ByteVec;
use std::alloc::Global;
use std::str;

/// The bytes that the words of a line stand for.
pub(crate) fn words_of(alloc: Global, text: &str) -> Option<Vec<Vec<u8>>> {
    let mut words = Vec::new(alloc);
    for word in text.split(' ') {
        words.push(bytes_of(alloc, word)?).ok()?;
    }
    Some(words)
}

/// Bytes in base64 behind `base64:`, bytes so many times behind `times:` and their count, and any other word with its
/// escapes read.
fn bytes_of(alloc: Global, word: &str) -> Option<Vec<u8>> {
    match word.split_once(':') {
        Some(("base64", text)) => STANDARD.decode(alloc, text.as_bytes()).ok(),
        Some(("times", text)) => times(alloc, text),
        _ => unescaped(alloc, word),
    }
}

fn times(alloc: Global, text: &str) -> Option<Vec<u8>> {
    let (count, text) = text.split_once(':')?;
    let count = count.parse::<u32>().ok()?;
    let one = unescaped(alloc, text)?;
    repeated(alloc, &one, count)
}

fn repeated(alloc: Global, one: &[u8], count: u32) -> Option<Vec<u8>> {
    let mut all = Vec::new(alloc);
    for _ in 0..count {
        all.extend_from_slice(one).ok()?;
    }
    Some(all)
}

fn unescaped(alloc: Global, text: &str) -> Option<Vec<u8>> {
    <Vec<u8> as ByteVec>::unescape_bytes(alloc, text).ok()
}

pub(crate) fn number(word: &[u8]) -> Option<u64> {
    str::from_utf8(word).ok()?.parse::<u64>().ok()
}

pub(crate) fn short(word: &[u8]) -> Option<u32> {
    str::from_utf8(word).ok()?.parse::<u32>().ok()
}

/// A number of 32 bits, or none for `-`.
pub(crate) fn short_or_none(word: &[u8]) -> Option<Option<u32>> {
    match str::from_utf8(word).ok()? {
        "-" => Some(None),
        text => Some(Some(text.parse::<u32>().ok()?)),
    }
}
