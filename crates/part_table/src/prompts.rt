//! What the user is asked.

use bstr::ByteSlice;
use confirm_desk::{prompt, prompt_for};
use key_purposes::Purpose;
use std::alloc::Global;

/// `any|login|other BLOB COMMENT HOST MESSAGE`, where `-` is no host; or `text COMMENT FINGERPRINT`.
pub(crate) fn of_prompt(alloc: Global, verb: &str, words: &[Vec<u8>]) -> Option<String> {
    match verb {
        "text" => text(alloc, words),
        "any" => asked(alloc, &[], words),
        "login" => asked(alloc, &[Purpose::Login], words),
        "other" => asked(alloc, &[Purpose::Other], words),
        _ => None,
    }
}

fn text(alloc: Global, words: &[Vec<u8>]) -> Option<String> {
    let [comment, fingerprint] = words else {
        return None;
    };
    said(alloc, &prompt(alloc, comment, fingerprint).ok()?)
}

fn asked(alloc: Global, purposes: &[Purpose], words: &[Vec<u8>]) -> Option<String> {
    let [blob, comment, host, message] = words else {
        return None;
    };
    let host = host_of(host);
    said(
        alloc,
        &prompt_for(alloc, comment, blob, purposes, host, message).ok()?,
    )
}

fn host_of(word: &[u8]) -> Option<&[u8]> {
    if word == b"-".as_slice() {
        None
    } else {
        Some(word)
    }
}

fn said(alloc: Global, text: &[u8]) -> Option<String> {
    format!(in alloc; "{}", text.escape_bytes()).ok()
}
