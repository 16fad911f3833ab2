//! Runs of the loop alone, over a world that is played.

use crate::cues::turns_of;
use crate::stage::{Settings, Stage};
use agent_core::{Agent, Settings as AgentSettings};
use ready_loop::{ServeEnd, serve};
use std::alloc::{AllocError, Global};
use std::io;
use std::sync::Wait;
use world_ports::{Cue, ScriptWorld};

/// How the loop ends, which is to end where it is idle if `idle` stands there.
pub(crate) fn say_run(
    rt: &HostRuntime,
    wait: &impl Wait,
    stage: &mut Stage,
    settings: Settings,
    text: &str,
) -> io::Result<()> {
    let end = run(rt.alloc(), wait, stage, settings, text == "idle")?;
    println!(rt; "{end:?}")
}

fn run(
    alloc: Global,
    wait: &impl Wait,
    stage: &mut Stage,
    settings: Settings,
    until_idle: bool,
) -> Result<ServeEnd, AllocError> {
    let failing = [settings.failing].to_vec(alloc)?;
    let turns = turns_of(alloc, &stage.turns)?;
    let (end, world) = looped(wait, alloc, settings, turns, failing, until_idle);
    stage.world = Some(world);
    Ok(end)
}

/// How the loop ends over these turns with a new agent, and the world then.
pub(crate) fn looped<R: Wait>(
    rt: &R,
    alloc: Global,
    settings: Settings,
    turns: Vec<Vec<Cue>>,
    failing: Vec<u64>,
    until_idle: bool,
) -> (ServeEnd, ScriptWorld) {
    let limits = AgentSettings {
        default_life: None,
        ask_limit: limit_of(settings.helper_limit),
        confirm_limit: limit_of(settings.user_limit),
    };
    let mut agent = Agent::new(alloc, limits);
    let mut world = ScriptWorld::new(alloc, turns, failing);
    let end = serve(rt, alloc, &mut agent, &mut world, "agent", until_idle);
    (end, world)
}

fn limit_of(seconds: u32) -> Option<u32> {
    if seconds == 0 { None } else { Some(seconds) }
}
