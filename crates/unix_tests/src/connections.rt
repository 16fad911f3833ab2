//! Connections: bytes come as they were sent, and a wait reports what became ready.
ghost use Rattle.std.specs.Prelude.{◌<◌, length};

use crate::calls::{accepted, holds, polled, reads, receives, sends, writes};
use crate::no_programs::no_programs;
use std::io::Read;
use std::os::unix::net::UnixStream;
use std::process::Abort;
use std::test::*;
use std::thread;
use std::time::Duration;
use unix_world::UnixWorld;
use world_ports::{Accepted, Door, Got, Polled, Ready, Spot, World, WorldFault, Wrote};

#[test]
fn a_client_is_reported_and_heard_to_its_end(rt: HostRuntime) -> Result<(), Fail> {
    let alloc = rt.alloc();
    let mut world = UnixWorld::new(&rt, alloc, no_programs(alloc))?;
    let listens = world.bind(Door::Clients, "heard.socket").is_ok();
    holds(&rt, listens, "a listener");
    let answer = world.accept(Door::Clients);
    assert!(rt; matches!(answer, Ok(Accepted::NotNow)), "no client yet");
    let mut client = UnixStream::connect(&rt, "heard.socket").expect(&rt, "a client");
    sends(&rt, &mut client, b"abc");
    drop(client);
    let mut ready = Vec::new(alloc);
    let answer = world.poll(None, &mut ready);
    polled(&rt, answer, Polled::Some, "a client came");
    holds(&rt, ready.len() == 1, "one thing is ready");
    holds(&rt, at_door(&ready, Door::Clients), "it is the listener");
    let answer = world.accept(Door::Clients);
    accepted(&rt, answer, Accepted::Port(1), "the client");
    let mut room = [7; 9];
    reads(&rt, &mut world, 1, &mut room, Got::Bytes(3), "its bytes");
    holds(
        &rt,
        room == [97, 98, 99, 7, 7, 7, 7, 7, 7],
        "as they were sent",
    );
    reads(
        &rt,
        &mut world,
        1,
        &mut room,
        Got::NotNow,
        "no second read before a wait",
    );
    let answer = world.poll(None, &mut ready);
    polled(&rt, answer, Polled::Some, "its end came");
    reads(&rt, &mut world, 1, &mut room, Got::End, "its end");
    world.remove_file();
    Ok(())
}

#[test]
fn a_reply_arrives_and_a_closed_connection_is_refused(rt: HostRuntime) -> Result<(), Fail> {
    let alloc = rt.alloc();
    let mut world = UnixWorld::new(&rt, alloc, no_programs(alloc))?;
    let listens = world.bind(Door::Clients, "reply.socket").is_ok();
    holds(&rt, listens, "a listener");
    let mut client = UnixStream::connect(&rt, "reply.socket").expect(&rt, "a client");
    let answer = world.accept(Door::Clients);
    accepted(&rt, answer, Accepted::Port(1), "the client");
    let mut room = [0; 4];
    reads(
        &rt,
        &mut world,
        1,
        &mut room,
        Got::NotNow,
        "nothing was sent",
    );
    writes(&rt, &mut world, 1, b"defg", Wrote::Took(4), "a reply");
    receives(&rt, &mut client, b"defg");
    holds(&rt, world.close(1).is_ok(), "a close");
    receives(&rt, &mut client, b"");
    let refused = matches!(world.read(1, &mut room), Err(WorldFault::Failed));
    holds(&rt, refused, "a read behind the close");
    world.remove_file();
    Ok(())
}

// Writes until there is no room, 4096 times at the most: how many bytes were taken.
fn fill<W: World>(rt: &impl Abort, world: &mut W, bytes: &[u8]) -> u64
    requires { 0 < length bytes.now }
{
    let mut sent = 0_u64;
    for _ in 0..4096 {
        match world.write(1, bytes).expect(rt, "a write") {
            Wrote::Took(count) => sent = sent.saturating_add(u64::from(count)),
            Wrote::NotNow => break,
        }
    }
    sent
}

// Reads until so many bytes came, 65536 times at the most.
fn drain(rt: &impl Abort, client: &mut impl Read, room: &mut [u8], sent: u64) {
    let mut came = 0_u64;
    for _ in 0..65536 {
        if came >= sent {
            break;
        }
        let count = client.read(room).expect(rt, "what was sent");
        came = came.saturating_add(count as u64);
    }
}

// The listener is the first thing that is ready.
fn at_door(ready: &[Ready], door: Door) -> bool {
    ready
        .first()
        .is_some_and(|item| item.spot == Spot::Door(door))
}

// A write has room.
fn has_room(ready: &[Ready], port: u64) -> bool {
    ready
        .iter()
        .any(|item| item.spot == Spot::Port(port) && item.writable)
}

#[test]
fn room_for_a_write_is_reported_once_there_is_some(rt: HostRuntime) -> Result<(), Fail> {
    let alloc = rt.alloc();
    let bytes = vec![in alloc; 5; 65536]?;
    let mut room = vec![in alloc; 0; 65536]?;
    let mut world = UnixWorld::new(&rt, alloc, no_programs(alloc))?;
    let listens = world.bind(Door::Clients, "room.socket").is_ok();
    holds(&rt, listens, "a listener");
    let mut client = UnixStream::connect(&rt, "room.socket").expect(&rt, "a client");
    let answer = world.accept(Door::Clients);
    accepted(&rt, answer, Accepted::Port(1), "the client");
    let sent = fill(&rt, &mut world, &bytes);
    let mut ready = Vec::new(alloc);
    holds(
        &rt,
        world.poll(Some(0), &mut ready).is_ok(),
        "what came before",
    );
    holds(&rt, world.poll(Some(0), &mut ready).is_ok(), "and then");
    holds(&rt, ready.is_empty(), "nothing");
    drain(&rt, &mut client, &mut room, sent);
    holds(
        &rt,
        world.poll(Some(5), &mut ready).is_ok(),
        "a wait for room",
    );
    holds(&rt, has_room(&ready, 1), "there is room");
    writes(
        &rt,
        &mut world,
        1,
        b"more",
        Wrote::Took(4),
        "a write with room",
    );
    world.remove_file();
    Ok(())
}

// Writes a byte so many times, each of which is taken.
fn write_times<W: World>(rt: &impl Abort, world: &mut W, count: u64) {
    for _ in 0..count {
        writes(rt, world, 1, b"w", Wrote::Took(1), "a write of the round");
    }
}

#[test]
fn a_seventeenth_write_waits_for_a_poll(rt: HostRuntime) -> Result<(), Fail> {
    let alloc = rt.alloc();
    let mut world = UnixWorld::new(&rt, alloc, no_programs(alloc))?;
    let listens = world.bind(Door::Clients, "writes.socket").is_ok();
    holds(&rt, listens, "a listener");
    let client = UnixStream::connect(&rt, "writes.socket").expect(&rt, "a client");
    let answer = world.accept(Door::Clients);
    accepted(&rt, answer, Accepted::Port(1), "the client");
    let mut ready = Vec::new(alloc);
    holds(
        &rt,
        world.poll(Some(0), &mut ready).is_ok(),
        "a round begins",
    );
    write_times(&rt, &mut world, 16);
    writes(&rt, &mut world, 1, b"w", Wrote::NotNow, "one more");
    holds(&rt, world.poll(None, &mut ready).is_ok(), "doesn't wait");
    holds(&rt, has_room(&ready, 1), "it is told of");
    write_times(&rt, &mut world, 16);
    writes(&rt, &mut world, 1, b"w", Wrote::NotNow, "and again");
    drop(client);
    world.remove_file();
    Ok(())
}

// Looks at the clocks so many times. From the third look on every other asks how long the round has lasted.
fn look_times<W: World>(rt: &impl Abort, world: &mut W, count: u64) {
    for _ in 0..count {
        holds(rt, world.now().is_ok(), "what the clocks show");
    }
}

#[test]
fn a_second_write_of_a_long_round_waits_for_a_poll(rt: HostRuntime) -> Result<(), Fail> {
    let alloc = rt.alloc();
    let mut world = UnixWorld::new(&rt, alloc, no_programs(alloc))?;
    let listens = world.bind(Door::Clients, "long.socket").is_ok();
    holds(&rt, listens, "a listener");
    let client = UnixStream::connect(&rt, "long.socket").expect(&rt, "a client");
    let answer = world.accept(Door::Clients);
    accepted(&rt, answer, Accepted::Port(1), "the client");
    let mut ready = Vec::new(alloc);
    holds(
        &rt,
        world.poll(Some(0), &mut ready).is_ok(),
        "a round begins",
    );
    look_times(&rt, &mut world, 1);
    thread::sleep(&rt, Duration::from_millis(40));
    look_times(&rt, &mut world, 4);
    write_times(&rt, &mut world, 1);
    writes(&rt, &mut world, 1, b"w", Wrote::NotNow, "one more");
    holds(&rt, world.poll(None, &mut ready).is_ok(), "doesn't wait");
    holds(&rt, has_room(&ready, 1), "it is told of");
    write_times(&rt, &mut world, 16);
    drop(client);
    world.remove_file();
    Ok(())
}
