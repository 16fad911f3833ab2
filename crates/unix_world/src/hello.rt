//! A child process's HELLO as far as it came, which is said for it where it doesn't come.

ghost use Rattle.std.specs.Prelude.{◌≡◌, ◌<◌, ◌≤◌, ◌-◌, ◌↔◌, length, IsTrue, Ok};
ghost use Rattle.world_ports.specs.Worlds.{KeepsRest, GotWithin};
ghost use Rattle.unix_world.specs.Rounds.{IsSaid, OnNoBytes};

use world_ports::Got;

// The bytes of a hello: docs/PROTOCOL.md, "Messages of child processes".
pub const HELLO: usize = 33;

/// The hello of a job, how much of it came, and how much of it was read.
///
/// It is handed on only once all of it came. Where the connection ends before, or brings anything else, the world says
/// it in the child's place, and then the end.
#[derive(Clone, Copy)]
pub struct Hello {
    bytes: [u8; 33],
    came: usize,
    read: usize,
    has_ended: bool,
}

impl Hello {
    /// The hello of a job that was given this ticket.
    pub fn new(job: u64, ticket: &[u8; 16]) -> Hello {
        let mut bytes = [0; 33];
        bytes[3] = 29;
        bytes[4] = 1;
        bytes[5..13].copy_from_slice(&job.to_be_bytes());
        bytes[16] = 16;
        bytes[17..33].copy_from_slice(ticket.as_slice());
        Hello {
            bytes,
            came: 0,
            read: 0,
            has_ended: false,
        }
    }

    /// How many of its bytes are to come.
    pub fn missing(&self) -> usize
        ensures { result ≡ 33 - self.now.came }
    {
        HELLO.saturating_sub(self.came)
    }

    /// These bytes came. Whether they are the next ones of the hello.
    pub fn hear(&mut self, piece: &[u8]) -> bool {
        let next = &self.bytes[self.came.min(HELLO)..];
        if next.starts_with(piece) {
            self.came = self.came.saturating_add(piece.len());
            return true;
        }
        false
    }

    /// The connection has ended: what is missing is said in the child's place.
    pub fn end(&mut self)
        ensures { self.new.came ≡ 33 }
    {
        self.came = HELLO;
        self.has_ended = true;
    }

    /// Whether it can be handed on.
    pub fn is_whole(&self) -> bool
        ensures { IsTrue result ↔ (33 ≤ self.now.came) }
    {
        self.came >= HELLO
    }

    /// Whether it was read, and the connection goes on.
    pub fn is_said(&self) -> bool
        ensures { IsTrue result ↔ IsSaid self.now }
    {
        self.read >= HELLO && !self.has_ended
    }

    /// Reads what is left of it, and then the end.
    pub fn read(&mut self, room: &mut [u8]) -> Got
        requires { 0 < length room.old }
        ensures within { GotWithin (Ok result) (length room.old) }
        ensures rest { KeepsRest (Ok result) room.old room.new }
        ensures told { OnNoBytes result ⊥ }
    {
        let left = &self.bytes[self.read.min(HELLO)..];
        if left.is_empty() {
            return Got::End;
        }
        let count = left.len().min(room.len());
        room[..count].copy_from_slice(&left[..count]);
        self.read = self.read.saturating_add(count);
        Got::Bytes(count as u32)
    }
}
