//! Scripts played from their first cue to their end.
use plain_lists::{Bytes, PlainList};
use std::alloc::{AllocError, Global};
use std::test::Fail;
use world_ports::*;

fn bytes(alloc: Global, text: &[u8]) -> Result<Bytes, AllocError> {
    Ok(Bytes::from_vec(Vec::from_slice(alloc, text)?))
}

fn has_entry(world: &ScriptWorld, at: usize, entry: Entry) -> bool {
    match world.journal().get(at) {
        Some(found) => *found == entry,
        None => false,
    }
}

const CLIENT_WAITS: Ready = Ready {
    spot: Spot::Door(Door::Clients),
    readable: true,
    writable: false,
};

#[test]
fn a_client_sends_and_ends(rt: HostRuntime) -> Result<(), Fail> {
    let alloc = rt.alloc();
    let turn = vec![in alloc;
        Cue::Connect(Door::Clients),
        Cue::Send {
            port: 1,
            bytes: bytes(alloc, b"abc")?
        },
        Cue::Shut { port: 1 },
    ]?;
    let mut world = ScriptWorld::new(alloc, vec![in alloc; turn]?, Vec::new(alloc));
    let mut out = Vec::new(alloc);
    assert_eq!(rt; world.poll(Some(7), &mut out), Ok(Polled::Some));
    assert_eq!(rt; out.as_slice(), [CLIENT_WAITS].as_slice());
    assert_eq!(rt; world.accept(Door::Clients), Ok(Accepted::Port(1)));
    let mut room = [0; 2];
    assert_eq!(rt; world.read(1, &mut room), Ok(Got::Bytes(2)));
    assert_eq!(rt; world.read(1, &mut room), Ok(Got::Bytes(1)));
    assert_eq!(rt; room, *b"cb");
    assert_eq!(rt; world.read(1, &mut room), Ok(Got::End));
    let items = PlainList::from_vec([CLIENT_WAITS].to_vec(alloc)?);
    let polled = Entry::Poll {
        wait: Some(7),
        items,
        answer: Ok(Polled::Some),
    };
    assert!(rt; has_entry(&world, 0, polled));
    let read = Entry::Read {
        port: 1,
        room: 2,
        got: bytes(alloc, b"c")?,
        answer: Ok(Got::Bytes(1)),
    };
    assert!(rt; has_entry(&world, 3, read));
    let end = Entry::Read {
        port: 1,
        room: 2,
        got: bytes(alloc, b"")?,
        answer: Ok(Got::End),
    };
    assert!(rt; has_entry(&world, 4, end));
    Ok(())
}

#[test]
fn nothing_comes_where_nothing_waits(rt: HostRuntime) -> Result<(), Fail> {
    let alloc = rt.alloc();
    let turn = vec![in alloc; Cue::Connect(Door::Children)]?;
    let mut world = ScriptWorld::new(alloc, vec![in alloc; turn]?, Vec::new(alloc));
    let mut out = Vec::new(alloc);
    assert_eq!(rt; world.poll(None, &mut out), Ok(Polled::Some));
    assert_eq!(rt; world.accept(Door::Clients), Ok(Accepted::NotNow));
    assert_eq!(rt; world.accept(Door::Children), Ok(Accepted::Port(1)));
    let mut room = [9; 1];
    assert_eq!(rt; world.read(1, &mut room), Ok(Got::NotNow));
    assert_eq!(rt; room, [9]);
    assert_eq!(rt; world.poll(None, &mut out), Ok(Polled::Over));
    assert!(rt; out.is_empty());
    Ok(())
}

#[test]
fn a_port_takes_what_there_is_room_for(rt: HostRuntime) -> Result<(), Fail> {
    let alloc = rt.alloc();
    let first = vec![in alloc; Cue::Connect(Door::Clients)]?;
    let second = vec![in alloc; Cue::Room { port: 1, count: 3 }]?;
    let mut world = ScriptWorld::new(alloc, vec![in alloc; first, second]?, Vec::new(alloc));
    let mut out = Vec::new(alloc);
    assert_eq!(rt; world.poll(None, &mut out), Ok(Polled::Some));
    assert_eq!(rt; world.accept(Door::Clients), Ok(Accepted::Port(1)));
    assert_eq!(rt; world.write(1, b"abcdef"), Ok(Wrote::Took(6)));
    assert_eq!(rt; world.poll(None, &mut out), Ok(Polled::Some));
    let has_room = Ready {
        spot: Spot::Port(1),
        readable: false,
        writable: true,
    };
    assert_eq!(rt; out.as_slice(), [has_room].as_slice());
    assert_eq!(rt; world.write(1, b"ghijkl"), Ok(Wrote::Took(3)));
    assert_eq!(rt; world.write(1, b"jkl"), Ok(Wrote::NotNow));
    let took = Entry::Write {
        port: 1,
        offered: bytes(alloc, b"ghijkl")?,
        answer: Ok(Wrote::Took(3)),
    };
    assert!(rt; has_entry(&world, 4, took));
    Ok(())
}

#[test]
fn what_is_sent_to_a_closed_port_is_lost(rt: HostRuntime) -> Result<(), Fail> {
    let alloc = rt.alloc();
    let first = vec![in alloc; Cue::Connect(Door::Clients)]?;
    let second = vec![in alloc;
        Cue::Send {
            port: 1,
            bytes: bytes(alloc, b"a")?
        },
    ]?;
    let mut world = ScriptWorld::new(alloc, vec![in alloc; first, second]?, Vec::new(alloc));
    let mut out = Vec::new(alloc);
    assert_eq!(rt; world.poll(None, &mut out), Ok(Polled::Some));
    assert_eq!(rt; world.accept(Door::Clients), Ok(Accepted::Port(1)));
    assert!(rt; world.close(1).is_ok());
    assert_eq!(rt; world.poll(None, &mut out), Ok(Polled::Some));
    assert!(rt; out.is_empty());
    assert!(rt;
        has_entry(
            &world,
            2,
            Entry::Close {
                port: 1,
                answer: Ok(())
            }
        )
    );
    Ok(())
}

#[test]
fn clocks_and_tokens_come_from_cues(rt: HostRuntime) -> Result<(), Fail> {
    let alloc = rt.alloc();
    let first = vec![in alloc; Cue::Clock { mono: 5, wall: 100 }, Cue::Ticket([7; 16])]?;
    let second = vec![in alloc; Cue::Clock { mono: 3, wall: 90 }]?;
    let mut world = ScriptWorld::new(alloc, vec![in alloc; first, second]?, Vec::new(alloc));
    let mut out = Vec::new(alloc);
    assert!(rt; world.now() == Ok(Moment { mono: 0, wall: 0 }));
    assert_eq!(rt; world.poll(None, &mut out), Ok(Polled::Some));
    assert!(rt; world.now() == Ok(Moment { mono: 5, wall: 100 }));
    assert_eq!(rt; world.poll(None, &mut out), Ok(Polled::Some));
    assert!(rt; world.now() == Ok(Moment { mono: 5, wall: 90 }));
    let job = Job {
        number: 1,
        kind: JobKind::Helper,
    };
    assert_eq!(rt; world.start(job), Ok([7; 16]));
    assert_eq!(rt; world.start(job), Ok([0; 16]));
    assert!(rt;
        has_entry(
            &world,
            5,
            Entry::Start {
                job,
                answer: Ok([7; 16])
            }
        )
    );
    Ok(())
}

#[test]
fn listed_calls_fail_and_a_clock_has_no_number(rt: HostRuntime) -> Result<(), Fail> {
    let alloc = rt.alloc();
    let failing = [1, 3].to_vec(alloc)?;
    let mut world = ScriptWorld::new(alloc, Vec::new(alloc), failing);
    assert_eq!(rt; world.bind(Door::Clients, "s"), Err(WorldFault::Failed));
    assert_eq!(rt; world.bind(Door::Children, "s.children"), Ok(()));
    assert!(rt; world.now() == Ok(Moment { mono: 0, wall: 0 }));
    let mut out = Vec::new(alloc);
    assert_eq!(rt; world.poll(None, &mut out), Err(WorldFault::Failed));
    assert_eq!(rt; world.poll(None, &mut out), Ok(Polled::Over));
    let path = bytes(alloc, b"s.children")?;
    assert!(rt;
        has_entry(
            &world,
            1,
            Entry::Bind {
                door: Door::Children,
                path,
                answer: Ok(())
            }
        )
    );
    Ok(())
}
