//! The traits of sources and sinks, with what a read brings.

ghost use Rattle.std.specs.Prelude.{◌<◌, length};
ghost use Rattle.world_ports.specs.Causes.{HasCause};
ghost use Rattle.world_ports.specs.Streams.{StreamView, OnlyReads, OnlyWrites, Reads, Writes};

/// A read or a write that failed. The object counted it.
#[derive(Clone, Copy, Debug, PartialEq, Eq)]
pub struct Fault;

/// What a read brought.
#[derive(Clone, Copy, Debug, PartialEq, Eq)]
pub enum Pulled {
    /// So many bytes, at the front of the room.
    Bytes(u32),
    /// Nothing: the source has ended.
    End,
}

/// What is known of an object that is read, written or both. `None` claims nothing.
///
/// An object that is only one of the two tells nothing as the other, and its count there stays 0.
pub trait Stream {
    ghost seen: { Self → StreamView };
}

/// What can be read.
pub trait Source: Stream {
    /// Reads into the front of `room`. At a fault the bytes of `room` are left open.
    fn read(&mut self, room: &mut [u8]) -> Result<Pulled, Fault>
        requires { 0 < length room.old }
        ensures reads { Reads result room.new (Self.seen self.old) (Self.seen self.new) }
        ensures cause { HasCause
            (Self.seen self.old).read_faults (Self.seen self.new).read_faults result }
        ensures only { OnlyReads (Self.seen self.old) (Self.seen self.new) };
}

/// What can be written.
pub trait Sink: Stream {
    /// Writes some of `bytes` from their front, and answers how many.
    fn write(&mut self, bytes: &[u8]) -> Result<u32, Fault>
        requires { 0 < length bytes.now }
        ensures writes { Writes result bytes.now (Self.seen self.old) (Self.seen self.new) }
        ensures cause { HasCause
            (Self.seen self.old).write_faults (Self.seen self.new).write_faults result }
        ensures only { OnlyWrites (Self.seen self.old) (Self.seen self.new) };
}
