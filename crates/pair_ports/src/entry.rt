//! What a call on pairs answers, and the entry that the journal has of each call.

use crate::Side;
use plain_lists::{Bytes, PlainList};
use std::alloc::AllocError;
use world_ports::{Accepted, Got, Polled, WorldFault, Wrote};

/// What became ready: one side of a pair, or without a pair the door, whose `side` and `writable` mean nothing. A hint:
/// the call that follows may still find nothing.
#[derive(Clone, Copy, Debug, PartialEq, Eq)]
pub struct PairReady {
    pub pair: Option<u64>,
    pub side: Side,
    pub readable: bool,
    pub writable: bool,
}

/// What an attempt to connect to the agent behind found.
#[derive(Clone, Copy, Debug, PartialEq, Eq)]
pub enum Linked {
    /// The connection is made.
    Made,
    /// The agent behind has no place for it yet.
    NotNow,
}

/// One call on pairs: its arguments and its answer. Prints nothing, since it carries what clients sent.
#[derive(PartialEq, Eq, Drop)]
pub enum PairEntry {
    Bind {
        path: Bytes,
        upstream: Bytes,
        answer: Result<(), WorldFault>,
    },
    /// The items are those of the list as the call leaves it.
    Poll {
        items: PlainList<PairReady>,
        answer: Result<Polled, WorldFault>,
    },
    Accept {
        answer: Result<Accepted, WorldFault>,
    },
    Connect {
        pair: u64,
        answer: Result<Linked, WorldFault>,
    },
    /// The room is the slice's length, and the bytes are those that were given.
    Read {
        pair: u64,
        side: Side,
        room: usize,
        got: Bytes,
        answer: Result<Got, WorldFault>,
    },
    /// The whole slice was offered.
    Write {
        pair: u64,
        side: Side,
        offered: Bytes,
        answer: Result<Wrote, WorldFault>,
    },
    Disconnect {
        pair: u64,
        answer: Result<(), AllocError>,
    },
    Close {
        pair: u64,
        answer: Result<(), AllocError>,
    },
}
