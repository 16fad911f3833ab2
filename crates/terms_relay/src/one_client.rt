//! A listener that takes one connection, with which its file is gone.

use libc::net::{POLLIN, poll};
use libc::types::pollfd;
use real_edge::Peer;
use std::fs::{self, File, Files};
use std::io::{Error, ErrorKind, Result as IoResult, Write};
use std::net::Net;
use std::os::fd::AsRawFd;
use std::os::unix::net::{UnixListener, UnixStream};
use world_ports::{Reading, Writing};

// How long a client may take to connect, which ssh-add does before all else.
const LONGEST_MILLIS: i32 = 10_000;

// Waits until a client connects, so many milliseconds at the most.
fn await_client(listener: &UnixListener) -> IoResult<()> {
    let mut watched = [pollfd {
        fd: listener.as_raw_fd(),
        events: POLLIN,
        revents: 0,
    }];
    if poll(&mut watched, LONGEST_MILLIS) < 1 {
        return Err(Error::from(ErrorKind::TimedOut));
    }
    Ok(())
}

// Tells that the listener is there, and takes the first connection.
fn first_of<O: Write>(listener: &UnixListener, told: &mut O) -> IoResult<UnixStream> {
    told.write_all(b"listens\n")?;
    told.flush()?;
    await_client(listener)?;
    let (stream, _) = listener.accept()?;
    Ok(stream)
}

/// Listens at the path, tells so, and takes one connection. Then, or where none comes, the path is gone.
pub fn take_one<R: Files<File = File> + Net, O: Write>(
    rt: &R,
    path: &str,
    told: &mut O,
) -> IoResult<Peer<Reading<UnixStream>, Writing<UnixStream>>> {
    let listener = UnixListener::bind(rt, path)?;
    let first = first_of(&listener, told);
    fs::remove_file(rt, path)?;
    let stream = first?;
    let copy = stream.try_clone()?;
    Ok(Peer::new(Reading::new(copy), Writing::new(stream)))
}
