//! The words of a line.

use base64::engine::general_purpose::STANDARD;
use bstr::ByteVec;
use std::alloc::Global;
use std::str;

/// The bytes that the words of a line stand for.
pub(crate) fn words_of(alloc: Global, text: &str) -> Option<Vec<Vec<u8>>> {
    let mut words = Vec::new(alloc);
    for word in text.split(' ') {
        words.push(bytes_of(alloc, word)?).ok()?;
    }
    Some(words)
}

/// Bytes in base64 behind `base64:`, and any other word with its escapes read.
fn bytes_of(alloc: Global, word: &str) -> Option<Vec<u8>> {
    match word.strip_prefix("base64:") {
        Some(text) => STANDARD.decode(alloc, text.as_bytes()).ok(),
        None => <Vec<u8> as ByteVec>::unescape_bytes(alloc, word).ok(),
    }
}

pub(crate) fn number(word: &[u8]) -> Option<u32> {
    str::from_utf8(word).ok()?.parse::<u32>().ok()
}
