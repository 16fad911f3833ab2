//! Keys as files hold them: bodies, lines, and base64.

use crate::given::unescaped;
use base64::engine::general_purpose::STANDARD;
use bstr::ByteSlice;
use key_blob::{fingerprint, read_public};
use key_file::{KeyFile, PubFault, decoded, read_body, read_pub_line, read_typed};
use std::alloc::{AllocError, Global};
use std::io;

/// The key of a body and what its private fields add to it, or the body's first fault.
pub(crate) fn say_body(rt: &HostRuntime, text: &str) -> io::Result<()> {
    let text = unescaped(rt.alloc(), text)?;
    say_text(rt, &text)
}

/// The same of the bytes that a body's base64 is of.
pub(crate) fn say_bytes(rt: &HostRuntime, text: &str) -> io::Result<()> {
    let bytes = unescaped(rt.alloc(), text)?;
    let text = STANDARD.encode(rt.alloc(), &bytes)?;
    say_text(rt, text.as_bytes())
}

fn say_text(rt: &HostRuntime, text: &[u8]) -> io::Result<()> {
    match read_body(rt.alloc(), text) {
        Ok(file) => say_file(rt, &file),
        Err(fault) => println!(rt; "{fault:?}"),
    }
}

fn say_file(rt: &HostRuntime, file: &KeyFile) -> io::Result<()> {
    let blob = STANDARD.encode(rt.alloc(), file.key.blob.as_slice())?;
    println!(rt; "{} '{}'", blob, file.comment.as_slice().escape_bytes())
}

/// Whether the body of these bytes holds this addition.
pub(crate) fn say_holds(rt: &HostRuntime, text: &str) -> io::Result<()> {
    let holds = holds(rt.alloc(), text)?;
    println!(rt; "{holds}")
}

fn holds(alloc: Global, text: &str) -> Result<bool, AllocError> {
    let (added, bytes) = text.split_once(' ').unwrap_or((text, ""));
    let added = unescaped(alloc, added)?;
    let bytes = unescaped(alloc, bytes)?;
    let text = STANDARD.encode(alloc, &bytes)?;
    Ok(is_body_of(alloc, text.as_bytes(), &added))
}

fn is_body_of(alloc: Global, text: &[u8], added: &[u8]) -> bool {
    match read_body(alloc, text) {
        Ok(file) => file.key.private.same(added),
        Err(_) => false,
    }
}

/// The key of a line, or its first fault.
pub(crate) fn say_line(rt: &HostRuntime, text: &str) -> io::Result<()> {
    let line = unescaped(rt.alloc(), text)?;
    say_key(rt, read_pub_line(rt.alloc(), &line))
}

/// The key of a text in base64 beside the name of its type.
pub(crate) fn say_typed(rt: &HostRuntime, text: &str) -> io::Result<()> {
    let (name, blob) = text.split_once(' ').unwrap_or((text, ""));
    say_key(rt, read_typed(rt.alloc(), name.as_bytes(), blob.as_bytes()))
}

fn say_key(rt: &HostRuntime, key: Result<Vec<u8>, PubFault>) -> io::Result<()> {
    match key {
        Ok(blob) => say_base64(rt, &blob),
        Err(fault) => println!(rt; "{fault:?}"),
    }
}

fn say_base64(rt: &HostRuntime, bytes: &[u8]) -> io::Result<()> {
    let text = STANDARD.encode(rt.alloc(), bytes)?;
    println!(rt; "{text}")
}

/// The bytes that a text in base64 is of, in base64 again, or `None`.
pub(crate) fn say_decoded(rt: &HostRuntime, text: &str) -> io::Result<()> {
    let text = unescaped(rt.alloc(), text)?;
    match decoded(rt.alloc(), &text)? {
        Some(bytes) => say_base64(rt, &bytes),
        None => println!(rt; "None"),
    }
}

/// The fingerprint of a public key in base64, or its first fault.
pub(crate) fn say_fingerprint(rt: &HostRuntime, text: &str) -> io::Result<()> {
    match decoded(rt.alloc(), text.as_bytes())? {
        Some(blob) => say_public(rt, &blob),
        None => println!(rt; "None"),
    }
}

fn say_public(rt: &HostRuntime, blob: &[u8]) -> io::Result<()> {
    match read_public(blob) {
        Ok(key) => {
            let shown = fingerprint(rt.alloc(), &key)?;
            println!(rt; "{shown}")
        }
        Err(fault) => println!(rt; "{fault:?}"),
    }
}
