//! Bodies without their secrets.

use bstr::ByteSlice;
use redact_core::{Passphrases, redact_body};
use std::alloc::Global;

/// The longest body.
const LONGEST: usize = 1000;

/// The frames of bodies, whose passphrases are numbered from the first of the line.
pub(crate) fn redacted(alloc: Global, bodies: &[Vec<u8>]) -> Option<String> {
    let mut passphrases = Passphrases::new(alloc);
    let mut out = Vec::new(alloc);
    for body in bodies {
        put(body, &mut passphrases, &mut out)?;
    }
    format!(in alloc; "{}", out.as_slice().escape_bytes()).ok()
}

fn put(body: &[u8], passphrases: &mut Passphrases, out: &mut Vec<u8>) -> Option<()> {
    if body.len() > LONGEST {
        return None;
    }
    redact_body(body, passphrases, out).ok()
}
