//! Memory that is refused, at any allocation of a run.

use crate::scripts::{LIST, connect, play, send};
use ready_loop::ServeEnd;
use std::alloc::{AllocError, Global};
use std::process::Abort;
use std::test::*;
use world_ports::{Cue, Entry, ScriptWorld, Wrote};

// The answer where there are none: its length, its number, and a count of 0.
const EMPTY: &[u8] = b"\x00\x00\x00\x05\x0c\x00\x00\x00\x00";

// A client connects and lists, and then somebody else connects.
fn lists(alloc: Global) -> Result<Vec<Vec<Cue>>, AllocError> {
    let asks = vec![in alloc; connect(), send(alloc, 1, LIST)?]?;
    Ok(vec![in alloc; asks, vec![in alloc; connect()]?]?)
}

// What a port took is the front of these bytes.
fn takes_front(world: &ScriptWorld, port: u64, bytes: &[u8]) -> bool {
    let mut rest = bytes;
    for entry in world.journal() {
        if let Entry::Write {
            port: at,
            offered,
            answer: Ok(Wrote::Took(count)),
        } = entry
        {
            let count = *count as usize;
            if *at == port && count <= offered.len() {
                match rest.strip_prefix(&offered.as_slice()[..count]) {
                    Some(left) => rest = left,
                    None => return false,
                }
            }
        }
    }
    true
}

// What a run of one client left where memory may have been refused.
fn is_told(rt: &impl Abort, end: ServeEnd, world: &ScriptWorld) {
    let ended = end == ServeEnd::Memory || end == ServeEnd::Over;
    assert!(rt; ended, "want of memory is told");
    let front = takes_front(world, 1, EMPTY);
    assert!(rt; front, "what is written is the front of the reply");
}

// `rt try --test --fail-alloc N` refuses the Nth allocation.
#[test]
fn a_refused_allocation_ends_the_loop_or_nothing(rt: HostRuntime) {
    let alloc = rt.alloc();
    if let Ok(turns) = lists(alloc) {
        let (end, world) = play(&rt, alloc, turns);
        is_told(&rt, end, &world);
    }
}
