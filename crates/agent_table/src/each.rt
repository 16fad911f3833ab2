//! Runs of the loop alone in which each call on the world fails once.

use crate::cues::turns_of;
use crate::kinds::{Call, kind_of, takes_front};
use crate::looped::looped;
use crate::stage::{Settings, Stage, unescaped};
use ready_loop::ServeEnd;
use std::alloc::{AllocError, Global};
use std::io;
use std::sync::Wait;
use world_ports::ScriptWorld;

/// How many of the runs in which one of the first calls fails end as that call has it, with client 1 taking the front of
/// one of two texts: `CALLS TEXT TEXT`.
pub(crate) fn say_runs(
    rt: &HostRuntime,
    wait: &impl Wait,
    stage: &Stage,
    settings: Settings,
    text: &str,
) -> io::Result<()> {
    let (calls, texts) = text.split_once(' ').unwrap_or((text, ""));
    let (first, second) = texts.split_once(' ').unwrap_or((texts, ""));
    let first = unescaped(rt.alloc(), first)?;
    let second = unescaped(rt.alloc(), second)?;
    let calls = calls.parse::<u64>().unwrap_or(0);
    let count = count(rt.alloc(), wait, stage, settings, calls, &first, &second)?;
    println!(rt; "{count}")
}

fn count(
    alloc: Global,
    wait: &impl Wait,
    stage: &Stage,
    settings: Settings,
    calls: u64,
    first: &[u8],
    second: &[u8],
) -> Result<u64, AllocError> {
    let mut count: u64 = 0;
    for call in 0..calls {
        let number = call.saturating_add(1);
        if fits(alloc, wait, stage, settings, number, first, second)? {
            count = count.saturating_add(1);
        }
    }
    Ok(count)
}

fn fits(
    alloc: Global,
    wait: &impl Wait,
    stage: &Stage,
    settings: Settings,
    number: u64,
    first: &[u8],
    second: &[u8],
) -> Result<bool, AllocError> {
    let failing = [number].to_vec(alloc)?;
    let turns = turns_of(alloc, &stage.turns)?;
    let (end, world) = looped(wait, alloc, settings, turns, failing, false);
    Ok(end == end_of(&world, number) && takes_one(&world, first, second))
}

// What the loop ends with where the call with this number failed.
fn end_of(world: &ScriptWorld, number: u64) -> ServeEnd {
    match kind_of(world.journal(), number) {
        Some(Call::Bind) => ServeEnd::BindFault,
        Some(Call::Poll) => ServeEnd::PollFault,
        _ => ServeEnd::Over,
    }
}

fn takes_one(world: &ScriptWorld, first: &[u8], second: &[u8]) -> bool {
    takes_front(world.journal(), 1, first) || takes_front(world.journal(), 1, second)
}
