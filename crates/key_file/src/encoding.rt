//! Base64, of public bytes and of a key's body.

ghost use Rattle.std.specs.Prelude.{◌≡◌, ◌≤◌, IfOk, Some, None, MatchOption};
ghost use Rattle.std.specs.Option.{option_map};
ghost use Rattle.key_file.specs.Base64.{bytes_of, is_blank, without_blanks};

use base64::DecodeAllocError;
use base64::engine::general_purpose::STANDARD;
use secret_buf::ScrubBuf;
use std::alloc::{AllocError, Global};

/// The bytes whose base64 `text` is, and `None` where it is that of none.
///
/// The memory isn't wiped: no place for a secret.
#[tactic(auto, unfolding(crate::specs::Base64::bytes_of))]
pub fn decoded(alloc: Global, text: &[u8]) -> Result<Option<Vec<u8>>, AllocError>
    ensures { IfOk result (λ bytes. option_map (λ vector. vector.items) bytes ≡ bytes_of text.now) }
{
    match STANDARD.decode(alloc, text) {
        Ok(bytes) => Ok(Some(bytes)),
        Err(DecodeAllocError::DecodeError(_)) => Ok(None),
        Err(DecodeAllocError::OutOfMemory) => Err(AllocError),
    }
}

/// Whether the byte is a space, TAB, CR or LF.
fn is_blank(byte: u8) -> bool
    ensures { result ≡ is_blank byte }
{
    matches!(byte, b' ' | b'\t' | b'\r' | b'\n')
}

/// The text without its blanks, in memory that is wiped.
pub fn unblanked(alloc: Global, text: &[u8]) -> Result<ScrubBuf, AllocError>
    ensures { IfOk result (λ kept. kept.live ≡ without_blanks text.now) }
{
    let mut kept = ScrubBuf::new(alloc);
    kept.reserve(text.len())?;
    for byte in text {
        if !is_blank(*byte) {
            kept.push_slice(&[*byte])?;
        }
    }
    Ok(kept)
}
