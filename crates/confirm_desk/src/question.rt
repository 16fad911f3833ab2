//! What the user is asked before a key is used.

ghost use Rattle.std.specs.Prelude.{◌≡◌, ◌+◌, ◌≤◌, IfOk, length};
ghost use Rattle.std.specs.Option.{option_map};
ghost use Rattle.key_blob.specs.PublicKeys.{public_key_of};
ghost use Rattle.confirm_desk.specs.Prompt.{fingerprint_by, prompt_for, prompt_of};

use crate::line::push_line;
use crate::shown::push_shown;
use key_blob::{fingerprint, read_public};
use key_purposes::Purpose;
use std::alloc::{AllocError, Global};

/// How much of a comment is shown (ours).
const MAX_COMMENT: usize = 256;

/// The text for a key with this comment and fingerprint: two lines, with no line feed at the end.
///
/// Bytes of the comment that aren't printable ASCII are shown as `?`.
pub fn prompt(alloc: Global, comment: &[u8], fingerprint: &[u8]) -> Result<Vec<u8>, AllocError>
    ensures text { IfOk result (λ text. text.items ≡ prompt_of comment.now fingerprint.now) }
    ensures short { IfOk result (λ text. length text.items ≤ 292 + length fingerprint.now) }
{
    let mut text = Vec::from_slice(alloc, b"Allow use of key ")?;
    push_shown(&mut text, comment, MAX_COMMENT)?;
    text.extend_from_slice(b"?\nKey fingerprint ")?;
    text.extend_from_slice(fingerprint)?;
    text.push(b'.')?;
    Ok(text)
}

/// The text for a held key with this comment, blob and purposes, which is to sign `message`, to log in to `host` where
/// that is known. A blob that is no key has no fingerprint.
///
/// A key with purposes has a third line, which tells what the message is for.
pub fn prompt_for(
    alloc: Global,
    comment: &[u8],
    blob: &[u8],
    purposes: &[Purpose],
    host: Option<&[u8]>,
    message: &[u8],
) -> Result<Vec<u8>, AllocError>
    ensures text { IfOk result (λ text. text.items ≡ prompt_for comment.now blob.now purposes.now
        (option_map (λ name. name.now) host.entry) message.now) }
{
    let mut text = prompt_of_key(alloc, comment, blob)?;
    if !purposes.is_empty() {
        text.push(b'\n')?;
        push_line(&mut text, blob, host, message)?;
    }
    Ok(text)
}

// The two lines for a held key with this comment and blob.
#[tactic(auto, using(crate::proofs::PromptLemmas::key_prompt_is_short))]
fn prompt_of_key(alloc: Global, comment: &[u8], blob: &[u8]) -> Result<Vec<u8>, AllocError>
    ensures text { IfOk result (λ text. text.items
        ≡ prompt_of comment.now (fingerprint_by (public_key_of blob.now))) }
    ensures short { IfOk result (λ text. length text.items ≤ 363) }
{
    match read_public(blob) {
        Ok(key) => {
            let shown = fingerprint(alloc, &key)?;
            prompt(alloc, comment, shown.as_bytes())
        }
        Err(_) => prompt(alloc, comment, b""),
    }
}
