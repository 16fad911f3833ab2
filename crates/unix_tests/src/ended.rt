//! A child process that ends before it said who it is: the world says it in its place.
use crate::calls::{holds, polled, reads, writes};
use crate::said::{awaited, begins, helper, is_hello, is_told};
use std::fs;
use std::test::*;
use unix_world::UnixWorld;
use world_ports::{Door, Got, Polled, Spot, World, WorldFault, Wrote};

fn is_failed(answer: Result<Got, WorldFault>) -> bool {
    matches!(answer, Err(WorldFault::Failed))
}

#[test]
fn a_hello_is_said_for_a_child_that_ended(rt: HostRuntime) -> Result<(), Fail> {
    let alloc = rt.alloc();
    let programs = helper(alloc, "true")?;
    let mut world = UnixWorld::new(&rt, alloc, programs)?;
    let listens = world.bind(Door::Children, "ended.socket").is_ok();
    holds(&rt, listens, "a door");
    let is_made = fs::metadata(&rt, "ended.socket").is_ok();
    holds(&rt, !is_made, "without a file");
    let mut ready = Vec::new(alloc);
    let ticket = begins(&rt, &mut world, &mut ready, 7);
    let mut room = [9; 40];
    let told = awaited(&rt, &mut world, &mut ready, &mut room);
    holds(&rt, told == Ok(Got::Bytes(33)), "its hello");
    is_hello(&rt, &room, 7, &ticket);
    reads(
        &rt,
        &mut world,
        1,
        &mut room,
        Got::NotNow,
        "not its end yet",
    );
    writes(&rt, &mut world, 1, b"key", Wrote::NotNow, "nobody is there");
    let answer = world.poll(None, &mut ready);
    polled(&rt, answer, Polled::Some, "no wait");
    holds(&rt, is_told(&ready, Spot::Port(1)), "its end");
    reads(&rt, &mut world, 1, &mut room, Got::End, "its end");
    holds(&rt, world.close(1).is_ok(), "a close");
    let refused = is_failed(world.read(1, &mut room));
    holds(&rt, refused, "a read behind the close");
    let answer = world.poll(Some(0), &mut ready);
    polled(&rt, answer, Polled::Some, "no more");
    holds(&rt, ready.is_empty(), "nothing is said twice");
    Ok(())
}
