//! The answers of a world's calls: readiness, connections, reads, writes and faults.

ghost use Rattle.std.specs.Prelude.{◌≡◌};
ghost use Rattle.world_ports.specs.declared.answers.WorldFault.TheVariants.{Memory};

use crate::Door;
use std::alloc::{AllocError, AllocFailed};

/// A source of readiness: a listener, or a connection by its number.
#[derive(Clone, Copy, Debug, PartialEq, Eq)]
pub enum Spot {
    Door(Door),
    Port(u64),
}

/// What became ready. A hint: the call that follows may still find nothing.
#[derive(Clone, Copy, Debug, PartialEq, Eq)]
pub struct Ready {
    pub spot: Spot,
    pub readable: bool,
    pub writable: bool,
}

/// How a wait for readiness ended.
#[derive(Clone, Copy, Debug, PartialEq, Eq)]
pub enum Polled {
    /// Something became ready, or the time is up, or a signal came.
    Some,
    /// Nothing will become ready any more.
    Over,
}

/// What was accepted at a listener.
#[derive(Clone, Copy, Debug, PartialEq, Eq)]
pub enum Accepted {
    /// A connection. It has the number after that of the one before it, from 1, over both listeners.
    Port(u64),
    /// None can be had now. A later poll that reports the listener tells that one can.
    NotNow,
}

/// What a read from a connection brought.
#[derive(Clone, Copy, Debug, PartialEq, Eq)]
pub enum Got {
    /// So many bytes, at the front of the room.
    Bytes(u32),
    /// Nothing: the peer sends no more.
    End,
    /// Nothing can be had now. A later poll that reports the connection tells that something can.
    NotNow,
}

/// What a connection took of a write.
#[derive(Clone, Copy, Debug, PartialEq, Eq)]
pub enum Wrote {
    /// So many bytes, from the front of the piece.
    Took(u32),
    /// It has no room at present.
    NotNow,
}

/// Why a call on a world was refused.
#[derive(Clone, Copy, Debug, PartialEq, Eq)]
pub enum WorldFault {
    /// The outside refused it, and the world counted that.
    Failed,
    /// Memory ran out. Says nothing of the outside.
    Memory,
}

impl From<AllocError> for WorldFault {
    ghost from_gives = { λ _ fault. fault ≡ Memory };

    fn from(_: AllocError) -> WorldFault {
        WorldFault::Memory
    }
}

impl<T: Drop> From<AllocFailed<T>> for WorldFault {
    ghost from_gives = { λ _ fault. fault ≡ Memory };

    fn from(_: AllocFailed<T>) -> WorldFault {
        WorldFault::Memory
    }
}
