//! One call, or one look at its answer, a function, with a label that a failure prints. A test that owns a world has no
//! exit of its own then: at each the world's drop would be proved once more.
ghost use Rattle.std.specs.Prelude.{◌<◌, length};

use std::io::{Read, Write};
use std::os::unix::net::UnixStream;
use std::process::Abort;
use std::test::*;
use world_ports::{Accepted, Got, Polled, World, WorldFault, Wrote};

/// What has to be so.
pub fn holds(rt: &impl Abort, does: bool, label: &str) {
    assert!(rt; does, "{label}");
}

/// What a listener answered.
pub fn accepted(
    rt: &impl Abort,
    answer: Result<Accepted, WorldFault>,
    wanted: Accepted,
    label: &str,
) {
    assert_eq!(rt; answer.ok(), Some(wanted), "{label}");
}

/// What a wait answered.
pub fn polled(rt: &impl Abort, answer: Result<Polled, WorldFault>, wanted: Polled, label: &str) {
    assert_eq!(rt; answer.ok(), Some(wanted), "{label}");
}

/// What a read into `room` answers.
pub fn reads<W: World>(
    rt: &impl Abort,
    world: &mut W,
    port: u64,
    room: &mut [u8],
    wanted: Got,
    label: &str,
)
    requires { 0 < length room.old }
{
    assert_eq!(rt; world.read(port, room).ok(), Some(wanted), "{label}");
}

/// What a write answers.
pub fn writes<W: World>(
    rt: &impl Abort,
    world: &mut W,
    port: u64,
    bytes: &[u8],
    wanted: Wrote,
    label: &str,
)
    requires { 0 < length bytes.now }
{
    assert_eq!(rt; world.write(port, bytes).ok(), Some(wanted), "{label}");
}

/// A peer sends these bytes.
pub fn sends(rt: &impl Abort, peer: &mut UnixStream, bytes: &[u8]) {
    assert!(rt; peer.write_all(bytes).is_ok(), "what a peer sends");
}

/// A peer receives these bytes, or its end, where there are none.
pub fn receives(rt: &impl Abort, peer: &mut UnixStream, bytes: &[u8]) {
    let mut room = [0; 4];
    assert_eq!(rt;
        peer.read(&mut room).ok(),
        Some(bytes.len()),
        "what a peer receives"
    );
    assert_eq!(rt;
        room.get(..bytes.len()),
        Some(bytes),
        "what a peer receives"
    );
}
