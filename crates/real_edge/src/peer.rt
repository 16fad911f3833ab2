//! Connections of Unix sockets as a source and a sink: one by its path, or the standard input.

ghost use Rattle.std.specs.Prelude.{◌≡◌};

use std::io::Result as IoResult;
use std::net::Net;
use std::os::fd::AsFd;
use std::os::unix::net::UnixStream;
use world_ports::{Fault, Pulled, Reading, Sink, Source, Stream, Writing};

// The word for a connection that the program was started with.
const STANDARD_INPUT: &str = "-";

/// A source and a sink as one object: what it says is read from the one, and the other takes what
/// is said to it.
#[derive(Drop)]
pub struct Peer<I, O> {
    input: I,
    output: O,
}

impl<I: Source, O: Sink> Peer<I, O> {
    pub fn new(input: I, output: O) -> Self
        ensures { (result.input ≡ input) × (result.output ≡ output) }
    {
        Peer { input, output }
    }
}

impl<I: Source, O: Sink> Stream for Peer<I, O> {
    ghost seen = { λ p. record (I.seen p.input) {
      written = (O.seen p.output).written;
      write_faults = (O.seen p.output).write_faults;
    } };
}

impl<I: Source, O: Sink> Source for Peer<I, O> {
    fn read(&mut self, room: &mut [u8]) -> Result<Pulled, Fault> {
        self.input.read(room)
    }
}

impl<I: Source, O: Sink> Sink for Peer<I, O> {
    fn write(&mut self, bytes: &[u8]) -> Result<u32, Fault> {
        self.output.write(bytes)
    }
}

/// A connection as a source and a sink. Reads and writes wait.
fn peer_of(stream: UnixStream) -> IoResult<Peer<Reading<UnixStream>, Writing<UnixStream>>> {
    let copy = stream.try_clone()?;
    Ok(Peer::new(Reading::new(copy), Writing::new(stream)))
}

/// Connects to the listener at a path.
pub fn connect<N: Net>(
    net: &N,
    path: &str,
) -> IoResult<Peer<Reading<UnixStream>, Writing<UnixStream>>> {
    peer_of(UnixStream::connect(net, path)?)
}

/// The connection to the agent of a program that it starts: where SOCKET is `-` the standard input, and else that to the
/// listener at this path. It comes once more, to see its end while neither a read nor a write waits.
pub fn connect_child<N: Net, I: AsFd>(
    net: &N,
    input: &I,
    socket: &str,
) -> IoResult<(Peer<Reading<UnixStream>, Writing<UnixStream>>, UnixStream)> {
    let stream = match socket {
        STANDARD_INPUT => UnixStream::from(input.as_fd().try_clone_to_owned()?),
        path => UnixStream::connect(net, path)?,
    };
    let watched = stream.try_clone()?;
    Ok((peer_of(stream)?, watched))
}
