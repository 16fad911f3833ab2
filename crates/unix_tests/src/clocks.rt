//! The clocks.
use crate::calls::holds;
use crate::no_programs::no_programs;
use std::fs;
use std::process::Abort;
use std::test::Fail;
use unix_world::UnixWorld;
use world_ports::{Moment, World};

// Whether so many seconds, one more or less, passed since the machine was started, those that it slept among them.
fn is_uptime(rt: &HostRuntime, seconds: u64) -> bool {
    let Ok(text) = fs::read_to_string(rt, "/proc/uptime") else {
        return false;
    };
    let whole = text.split('.').next().unwrap_or("");
    match whole.parse::<u64>() {
        Ok(uptime) => uptime.abs_diff(seconds) <= 1,
        Err(_) => false,
    }
}

// What the clocks show.
fn now<W: World>(rt: &impl Abort, world: &mut W) -> Moment {
    world.now().expect(rt, "what the clocks show")
}

#[test]
fn the_clocks_go(rt: HostRuntime) -> Result<(), Fail> {
    let alloc = rt.alloc();
    let mut world = UnixWorld::new(&rt, alloc, no_programs(alloc))?;
    let before = now(&rt, &mut world);
    holds(&rt, is_uptime(&rt, before.mono), "with its sleep");
    holds(&rt, before.wall > 1_700_000_000, "this century");
    let mut ready = Vec::new(alloc);
    holds(&rt, world.poll(Some(2), &mut ready).is_ok(), "a wait");
    let after = now(&rt, &mut world);
    holds(&rt, after.mono > before.mono, "a later second");
    Ok(())
}
