//! One connection under epoll: its reads, its writes, and its end.

ghost use Rattle.std.specs.Prelude.{◌≡◌, ◌<◌, length, min, IfOk, IsTrue, OnErr};
ghost use Rattle.world_ports.specs.Worlds.{KeepsRest, GotWithin, TookWithin};
ghost use Rattle.unix_world.specs.Rounds.{HasNone, OnMost, OnNoBytes, OnNoRoom};

use crate::marks::Marks;
use mio::net::UnixStream;
use mio::{Interest, Registry, Token};
use std::io;
use std::io::{ErrorKind, Read, Write};
use std::net::Shutdown;
use world_ports::{Got, Wrote};

/// A connection, what may wait there, and whether epoll is to report room for writing: only from the first write on that
/// found none.
#[derive(Drop)]
pub struct Port {
    stream: UnixStream,
    pub marks: Marks,
    waits_for_room: bool,
}

impl Port {
    /// Registers the connection for reading.
    pub fn new(registry: &Registry, token: Token, stream: UnixStream) -> io::Result<Port> {
        let mut stream = stream;
        registry.register(&mut stream, token, Interest::READABLE)?;
        Ok(Port {
            stream,
            marks: Marks::new(),
            waits_for_room: false,
        })
    }

    /// Asks the system for bytes, by way of `inbox`, so that the rest of `room` stays whatever the system does to a
    /// buffer.
    #[inline(always)]
    pub fn read(&mut self, round: u64, inbox: &mut [u8], room: &mut [u8]) -> io::Result<Got>
        requires { 0 < length room.old }
        ensures within { IfOk result (λ got. GotWithin (Ok got) (length room.old)) }
        ensures rest { IfOk result (λ got. KeepsRest (Ok got) room.old room.new) }
        ensures unchanged { OnErr result (room.new ≡ room.old) }
        // What fills the room may not be all: it is asked for again.
        ensures more { IfOk result (λ got. OnMost got (min (min (length room.old) (length inbox.old)) 65536)
            (IsTrue self.new.marks.maybe_more)) }
        ensures none { IfOk result (λ got. OnNoBytes got (HasNone round self.new.marks)) }
    {
        let most = room.len().min(inbox.len()).min(65536);
        match self.stream.read(&mut inbox[..most]) {
            Ok(0) => {
                self.marks.finish();
                Ok(Got::End)
            }
            Ok(count) => {
                self.marks.gave(round, count == most);
                room[..count].copy_from_slice(&inbox[..count]);
                inbox[..count].fill(0);
                Ok(Got::Bytes(count as u32))
            }
            Err(error) if error.kind() == ErrorKind::WouldBlock => {
                self.marks.had_none(round);
                Ok(Got::NotNow)
            }
            Err(error) => {
                self.marks.finish();
                Err(error)
            }
        }
    }

    /// Writes from the front of `bytes`. Where there is no room, epoll reports it once there is.
    #[inline(always)]
    pub fn write(&mut self, registry: &Registry, token: Token, bytes: &[u8]) -> io::Result<Wrote>
        requires { 0 < length bytes.now }
        ensures within { IfOk result (λ wrote. TookWithin (Ok wrote) (length bytes.now)) }
        ensures registered { IfOk result (λ wrote. OnNoRoom wrote (IsTrue self.new.waits_for_room)) }
        ensures marks { self.new.marks ≡ self.old.marks }
    {
        let most = bytes.len().min(1 << 20);
        match self.stream.write(&bytes[..most]) {
            Ok(0) => Err(io::Error::from(ErrorKind::WriteZero)),
            Ok(count) => Ok(Wrote::Took(count as u32)),
            Err(error) if error.kind() == ErrorKind::WouldBlock => {
                if !self.waits_for_room {
                    let both = Interest::READABLE | Interest::WRITABLE;
                    registry.reregister(&mut self.stream, token, both)?;
                    self.waits_for_room = true;
                }
                Ok(Wrote::NotNow)
            }
            Err(error) => Err(error),
        }
    }

    // Ends both directions, so that the peer reads its end and nothing more is read here.
    pub(crate) fn shut(&mut self) {
        let _ = self.stream.shutdown(Shutdown::Both);
        self.marks.shut();
    }
}
