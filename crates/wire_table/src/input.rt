//! The bytes that a word of the table stands for.

use base64::engine::general_purpose::STANDARD;
use bstr::ByteVec;
use std::alloc::{AllocError, Global};
use std::io;

/// Bytes in base64 behind `base64:`, and any other word with its escapes read.
pub(crate) fn bytes_of(alloc: Global, word: &str) -> io::Result<Vec<u8>> {
    match word.strip_prefix("base64:") {
        Some(text) => match STANDARD.decode(alloc, text.as_bytes()) {
            Ok(bytes) => Ok(bytes),
            Err(_) => Err(io::ErrorKind::InvalidData.into()),
        },
        None => Ok(unescaped(alloc, word)?),
    }
}

fn unescaped(alloc: Global, word: &str) -> Result<Vec<u8>, AllocError> {
    <Vec<u8> as ByteVec>::unescape_bytes(alloc, word)
}
