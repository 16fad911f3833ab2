//! Many clients at once, most of them quiet.

use crate::counted::Counted;
use crate::scripts::{LIST, connect, play_with, send};
use std::alloc::{AllocError, Global};
use std::sync::Wait;
use std::test::*;
use world_ports::Cue;

// So many clients connect.
fn connects(alloc: Global, clients: usize) -> Result<Vec<Cue>, AllocError> {
    let mut cues = Vec::new(alloc);
    for _ in 0..clients {
        cues.push(connect())?;
    }
    Ok(cues)
}

// All but the first of so many clients take nothing more, and send more than the agent wants to hear: it is owed an
// answer to the first request, so that the second waits, and the third.
fn pushes(alloc: Global, clients: usize) -> Result<Vec<Cue>, AllocError> {
    let mut cues = Vec::new(alloc);
    for other in 1..clients {
        let port = other as u64 + 1;
        cues.push(Cue::Room { port, count: 0 })?;
        cues.push(send(alloc, port, LIST)?)?;
        cues.push(send(alloc, port, LIST)?)?;
        cues.push(send(alloc, port, LIST)?)?;
    }
    Ok(cues)
}

// After these turns the first client sends so many requests.
fn asking(
    alloc: Global,
    before: Vec<Vec<Cue>>,
    requests: usize,
) -> Result<Vec<Vec<Cue>>, AllocError> {
    let mut turns = before;
    for _ in 0..requests {
        turns.push(vec![in alloc; send(alloc, 1, LIST)?]?)?;
    }
    Ok(turns)
}

// How often the agent is asked in these turns.
fn looks<R: Wait>(rt: &R, alloc: Global, turns: Vec<Vec<Cue>>) -> usize {
    let mut counted = Counted::new(alloc);
    let (_end, _world) = play_with(rt, alloc, &mut counted, turns);
    counted.looks()
}

// A crowd of so many clients that are quiet, or whose others push.
fn crowd(alloc: Global, clients: usize, is_quiet: bool) -> Result<Vec<Vec<Cue>>, AllocError> {
    if is_quiet {
        return Ok(vec![in alloc; connects(alloc, clients)?]?);
    }
    Ok(vec![in alloc; connects(alloc, clients)?, pushes(alloc, clients)?]?)
}

// How often it is asked for one request more in such a crowd.
fn cost<R: Wait>(
    rt: &R,
    alloc: Global,
    clients: usize,
    is_quiet: bool,
) -> Result<usize, AllocError> {
    let once = looks(
        rt,
        alloc,
        asking(alloc, crowd(alloc, clients, is_quiet)?, 1)?,
    );
    let twice = looks(
        rt,
        alloc,
        asking(alloc, crowd(alloc, clients, is_quiet)?, 2)?,
    );
    Ok(twice.saturating_sub(once))
}

#[test]
fn quiet_clients_cost_a_request_no_look(rt: HostRuntime) -> Result<(), Fail> {
    let alloc = rt.alloc();
    let beside_one = cost(&rt, alloc, 2, true)?;
    assert!(rt; beside_one > 0);
    assert_eq!(rt; cost(&rt, alloc, 128, true)?, beside_one);
    Ok(())
}

#[test]
fn clients_that_send_more_than_is_wanted_cost_a_request_no_look(
    rt: HostRuntime,
) -> Result<(), Fail> {
    let alloc = rt.alloc();
    let beside_one = cost(&rt, alloc, 2, false)?;
    assert!(rt; beside_one > 0);
    assert_eq!(rt; cost(&rt, alloc, 128, false)?, beside_one);
    assert!(rt; beside_one <= cost(&rt, alloc, 2, true)?);
    Ok(())
}
