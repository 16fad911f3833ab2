//! A test that a record has a lock by its passphrase's number, and never the passphrase.

ghost use Rattle.std.specs.Prelude.{◌≡◌};

use plain_lists::Bytes;
use record_world::{Recorder, Tape};
use std::alloc::{AllocError, Global};
use std::process::Abort;
use std::test::*;
use world_ports::{Cue, Door, Ready, ScriptWorld, VecSink, World};

/// SSH_AGENTC_LOCK with the passphrase `pw`, and what its record has in its place.
const LOCK: [u8; 11] = [0, 0, 0, 7, 22, 0, 0, 0, 2, 112, 119];

const RECORD: &[u8] =
    b"schedule 2\nat 0 0\nat 5 9\njoin client\nat 5 9\nhold 1\nhear 1 00000006160000000131\nat 5 9\ntake 1 5\n";

// A client connects in second 5, and sends a lock.
fn turns(alloc: Global) -> Result<Vec<Vec<Cue>>, AllocError> {
    let bytes = Bytes::from_vec(Vec::from_slice(alloc, &LOCK)?);
    let turn = vec![in alloc;
        Cue::Clock { mono: 5, wall: 9 },
        Cue::Connect(Door::Clients),
        Cue::Send { port: 1, bytes },
    ]?;
    Ok(vec![in alloc; turn]?)
}

// The calls of a loop at which the client connects, sends and is answered.
fn serve<W: World>(rt: &impl Abort, world: &mut W, ready: &mut Vec<Ready>)
    requires { W.last_port world.old ≡ 0 }
{
    let mut room = [0; 64];
    assert!(rt; world.bind(Door::Clients, "s").is_ok());
    assert!(rt; world.bind(Door::Children, "s.children").is_ok());
    assert!(rt; world.now().is_ok());
    assert!(rt; world.poll(None, ready).is_ok());
    assert!(rt; world.accept(Door::Clients).is_ok());
    assert!(rt; world.now().is_ok());
    assert!(rt; world.read(1, &mut room).is_ok());
    assert!(rt; world.now().is_ok());
    assert!(rt; world.write(1, &[0, 0, 0, 1, 6]).is_ok());
    assert!(rt; world.now().is_ok());
}

#[test]
fn a_lock_is_recorded_by_its_number(rt: HostRuntime) -> Result<(), Fail> {
    let alloc = rt.alloc();
    let turns = turns(alloc)?;
    let mut out = VecSink::new(alloc, 4096, Vec::new(alloc))?;
    let mut errors = VecSink::new(alloc, 4096, Vec::new(alloc))?;
    let mut world = ScriptWorld::new(alloc, turns, Vec::new(alloc));
    let mut ready = Vec::new(alloc);
    let mut tape = Tape::new(alloc);
    let mut recorder = Recorder::new(&mut world, &mut out, &mut errors, &mut tape, true);
    serve(&rt, &mut recorder, &mut ready);
    assert!(rt; !recorder.broken() && !recorder.ended());
    drop(recorder);
    assert_eq!(rt; out.written(), RECORD);
    assert!(rt; errors.written().is_empty());
    Ok(())
}
