//! Constraints of additions.

use base64::engine::general_purpose::STANDARD;
use bstr::ByteSlice;
use constraint_rec::{Constraint, Hop, KeySpec, Terms, read_constraints, write_constraints};
use std::alloc::Global;
use wire_core::Cursor;

/// Lifetime, confirmation and number of uses, or the first fault; and whether all of the text was taken.
pub(crate) fn read(alloc: Global, text: &[u8]) -> Option<String> {
    let mut from = Cursor::new(text);
    match read_constraints(alloc, &mut from) {
        Ok(terms) => said(alloc, &terms, from.at_end()),
        Err(fault) => format!(in alloc; "{fault:?}, at the end: {}", from.at_end()).ok(),
    }
}

fn said(alloc: Global, terms: &Terms, whole: bool) -> Option<String> {
    format!(in alloc;
        "life {:?} confirm {} uses {:?}, at the end: {whole}",
        terms.life, terms.confirm, terms.uses
    )
    .ok()
}

/// The destination constraints.
pub(crate) fn destinations(alloc: Global, text: &[u8]) -> Option<String> {
    let terms = read_constraints(alloc, &mut Cursor::new(text)).ok()?;
    let mut said = String::new(alloc);
    for (place, rule) in terms.rules.as_slice().iter().enumerate() {
        if place > 0 {
            said.push_str("; ").ok()?;
        }
        put_rule(alloc, &mut said, rule)?;
    }
    Some(said)
}

fn put_rule(alloc: Global, said: &mut String, rule: &Constraint) -> Option<()> {
    said.push_str("from ").ok()?;
    put_hop(alloc, said, &rule.from)?;
    said.push_str(" to ").ok()?;
    put_hop(alloc, said, &rule.to)
}

fn put_hop(alloc: Global, said: &mut String, hop: &Hop) -> Option<()> {
    let names = format!(in alloc;
        "'{}' at '{}'",
        hop.user.as_slice().escape_bytes(),
        hop.host.as_slice().escape_bytes()
    )
    .ok()?;
    said.push_str(&names).ok()?;
    for key in hop.keys.as_slice() {
        put_key(alloc, said, key)?;
    }
    Some(())
}

fn put_key(alloc: Global, said: &mut String, key: &KeySpec) -> Option<()> {
    let before = if key.authority {
        " authority base64:"
    } else {
        " key base64:"
    };
    said.push_str(before).ok()?;
    let blob = STANDARD.encode(alloc, key.blob.as_slice()).ok()?;
    said.push_str(&blob).ok()
}

/// The text of constraints, written again behind other bytes.
pub(crate) fn again(alloc: Global, text: &[u8]) -> Option<String> {
    let terms = read_constraints(alloc, &mut Cursor::new(text)).ok()?;
    let mut out = Vec::from_slice(alloc, b"before").ok()?;
    write_constraints(&mut out, &terms).ok()?;
    let written = out.as_slice().strip_prefix(b"before".as_slice())?;
    let written = STANDARD.encode(alloc, written).ok()?;
    format!(in alloc; "base64:{written}").ok()
}
