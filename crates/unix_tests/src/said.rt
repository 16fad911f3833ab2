//! What a child process says first, at the connection that it was started with.
ghost use Rattle.std.specs.Prelude.{◌<◌};

use crate::calls::{accepted, holds, reads, writes};
use crate::children::wait_for;
use std::alloc::Global;
use std::fs;
use std::process::Abort;
use std::test::*;
use unix_world::{Programs, UnixWorld};
use world_ports::{Accepted, Door, Got, Job, JobKind, Ready, Spot, World, WorldFault, Wrote};

/// A helper that is this program, and gets no data.
pub fn helper(alloc: Global, program: &str) -> Result<Programs, Fail> {
    Ok(Programs {
        helper: String::from_str(alloc, program)?,
        helper_data: None,
        relay: None,
        askpass: None,
    })
}

/// A child process of this job was started, and its connection is the first one.
pub fn begins<W: World>(
    rt: &impl Abort,
    world: &mut W,
    ready: &mut Vec<Ready>,
    number: u64,
) -> [u8; 16]
    requires { W.last_port world.old < 100 }
{
    let job = Job {
        number,
        kind: JobKind::Helper,
    };
    let ticket = world.start(job).expect(rt, "a helper");
    assert!(rt; world.poll(None, ready).is_ok(), "no wait");
    assert!(rt;
        is_told(ready, Spot::Door(Door::Children)),
        "its connection"
    );
    accepted(
        rt,
        world.accept(Door::Children),
        Accepted::Port(1),
        "its connection",
    );
    accepted(
        rt,
        world.accept(Door::Children),
        Accepted::NotNow,
        "there is one alone",
    );
    ticket
}

/// This port, or the door of child processes, was told of.
pub fn is_told(ready: &[Ready], spot: Spot) -> bool {
    ready.iter().any(|item| item.spot == spot && item.readable)
}

/// Reads until something comes, with a wait before each read, 50 at the most. Nothing is written meanwhile.
pub fn awaited<W: World>(
    rt: &impl Abort,
    world: &mut W,
    ready: &mut Vec<Ready>,
    room: &mut [u8; 40],
) -> Result<Got, WorldFault> {
    for _ in 0..50 {
        match world.read(1, room) {
            Ok(Got::NotNow) => {}
            told => return told,
        }
        writes(rt, world, 1, b"key", Wrote::NotNow, "before the hello");
        assert!(rt; world.poll(Some(1), ready).is_ok(), "a wait");
    }
    Ok(Got::NotNow)
}

/// The hello of a job below 256, and nothing behind it.
pub fn is_hello(rt: &impl Abort, room: &[u8; 40], number: u8, ticket: &[u8; 16]) {
    let head = [0, 0, 0, 29, 1, 0, 0, 0, 0, 0, 0, 0, number, 0, 0, 0, 16];
    assert_eq!(rt; &room[..17], head.as_slice(), "the hello");
    assert_eq!(rt; &room[17..33], ticket.as_slice(), "its ticket");
    assert_eq!(rt; &room[33..], [9; 7].as_slice(), "the rest");
}

#[test]
fn a_hello_comes_whole_though_it_was_said_in_pieces(rt: HostRuntime) -> Result<(), Fail> {
    let alloc = rt.alloc();
    let script =
        "{ printf '\\0\\0\\0\\035\\1\\0\\0\\0\\0\\0\\0\\0\\010\\0\\0\\0\\020'; sleep 1; t=$MORTARLEEK_TICKET; while [ -n \"$t\" ]; do r=${t#??}; printf \"\\\\$(printf %03o 0x${t%\"$r\"})\"; t=$r; done; printf more; } >&0\nhead -c 4 > heard.new\nmv heard.new heard.txt\nread -r _\n";
    fs::write(&rt, "8", script)?;
    let programs = helper(alloc, "sh")?;
    let mut world = UnixWorld::new(&rt, alloc, programs)?;
    let mut ready = Vec::new(alloc);
    let ticket = begins(&rt, &mut world, &mut ready, 8);
    let mut room = [9; 40];
    let told = awaited(&rt, &mut world, &mut ready, &mut room);
    holds(&rt, told == Ok(Got::Bytes(33)), "its hello");
    is_hello(&rt, &room, 8, &ticket);
    writes(&rt, &mut world, 1, b"keys", Wrote::Took(4), "a request");
    wait_for(&rt, &mut world, &mut ready, "heard.txt");
    let heard = fs::read(&rt, "heard.txt").expect(&rt, "what it heard");
    holds(
        &rt,
        heard.as_slice() == b"keys".as_slice(),
        "the request alone",
    );
    reads(
        &rt,
        &mut world,
        1,
        &mut room,
        Got::Bytes(4),
        "what it says then",
    );
    holds(&rt, room.starts_with(b"more"), "what it says then");
    Ok(())
}

#[test]
fn a_hello_is_said_for_a_child_that_says_anything_else(rt: HostRuntime) -> Result<(), Fail> {
    let alloc = rt.alloc();
    fs::write(
        &rt,
        "9",
        "printf '\\0\\0\\0\\035\\1and not its hello' >&0\nread -r _\n",
    )?;
    let programs = helper(alloc, "sh")?;
    let mut world = UnixWorld::new(&rt, alloc, programs)?;
    let mut ready = Vec::new(alloc);
    let ticket = begins(&rt, &mut world, &mut ready, 9);
    let mut room = [9; 40];
    let told = awaited(&rt, &mut world, &mut ready, &mut room);
    holds(&rt, told == Ok(Got::Bytes(33)), "its hello");
    is_hello(&rt, &room, 9, &ticket);
    let told = awaited(&rt, &mut world, &mut ready, &mut room);
    holds(&rt, told == Ok(Got::End), "its end");
    Ok(())
}
