//! Each adapter once over the real thing.
use crate::files::read_all;
use crate::{Peer, RealFiles, RealSpawner, connect, connect_child};
use std::fs;
use std::os::unix::net::{UnixListener, UnixStream};
use std::test::Fail;
use wiped_bytes::WipedBytes;
use world_ports::{FileFault, Files, Pulled, Reading, Sink, Source, SpawnFault, Spawner, Writing};

#[test]
fn a_file_is_read_up_to_its_bound(rt: HostRuntime) -> Result<(), Fail> {
    let alloc = rt.alloc();
    fs::write(&rt, "real_edge.txt", "abc")?;
    let mut files = RealFiles::new(&rt);
    let read = files.read(alloc, "real_edge.txt", 3)?;
    assert_eq!(rt; read.as_slice(), b"abc".as_slice());
    assert!(rt;
        matches!(
            files.read(alloc, "real_edge.txt", 2),
            Err(FileFault::TooLong)
        )
    );
    fs::remove_file(&rt, "real_edge.txt")?;
    assert!(rt;
        matches!(
            files.read(alloc, "real_edge.txt", 3),
            Err(FileFault::Failed)
        )
    );
    Ok(())
}

#[test]
fn the_room_grows_for_a_file_that_tells_of_no_size(rt: HostRuntime) -> Result<(), Fail> {
    let alloc = rt.alloc();
    let mut pipe = b"more bytes".as_slice();
    let read = read_all(alloc, &mut pipe, WipedBytes::zeros(alloc, 1)?, 10)?.unwrap_or(Vec::new(
        alloc,
    ));
    assert_eq!(rt; read.as_slice(), b"more bytes".as_slice());
    let mut pipe = b"more bytes".as_slice();
    let read = read_all(alloc, &mut pipe, WipedBytes::zeros(alloc, 1)?, 9)?;
    assert!(rt; read.is_none());
    Ok(())
}

#[test]
fn a_program_is_run_with_its_word(rt: HostRuntime) -> Result<(), Fail> {
    let alloc = rt.alloc();
    let mut spawner = RealSpawner::new(&rt);
    let ran = spawner.run(alloc, "echo", "a word")?;
    assert_eq!(rt; ran.status, 0);
    assert_eq!(rt; ran.output.as_slice(), b"a word\n".as_slice());
    let refused = spawner.run(alloc, "./no_such_program", "");
    assert!(rt; matches!(refused, Err(SpawnFault::Failed)));
    Ok(())
}

#[test]
fn a_connection_is_read_and_written(rt: HostRuntime) -> Result<(), Fail> {
    let listener = UnixListener::bind(&rt, "real_edge.socket")?;
    let mut peer = connect(&rt, "real_edge.socket")?;
    let (stream, _) = listener.accept()?;
    fs::remove_file(&rt, "real_edge.socket")?;
    let mut other = Peer::new(Reading::new(stream.try_clone()?), Writing::new(stream));
    assert_eq!(rt; peer.write(b"hello"), Ok(5));
    let mut room = [0; 9];
    assert_eq!(rt; other.read(&mut room), Ok(Pulled::Bytes(5)));
    assert_eq!(rt; &room[..5], b"hello".as_slice());
    assert_eq!(rt; other.write(b"bye"), Ok(3));
    assert_eq!(rt; peer.read(&mut room), Ok(Pulled::Bytes(3)));
    Ok(())
}

#[test]
fn a_connection_that_was_handed_over_is_taken(rt: HostRuntime) -> Result<(), Fail> {
    let (ours, theirs) = UnixStream::pair(&rt)?;
    let (mut peer, _) = connect_child(&rt, &theirs, "-")?;
    drop(theirs);
    let mut other = Peer::new(Reading::new(ours.try_clone()?), Writing::new(ours));
    assert_eq!(rt; peer.write(b"hello"), Ok(5));
    let mut room = [0; 9];
    assert_eq!(rt; other.read(&mut room), Ok(Pulled::Bytes(5)));
    assert!(rt; connect_child(&rt, &rt.stdin(), "no_such_file").is_err());
    Ok(())
}
