//! The entry that a world's journal has of each call.

use crate::{Accepted, Door, Got, Job, Moment, Polled, Ready, WorldFault, Wrote};
use plain_lists::{Bytes, PlainList};
use std::alloc::AllocError;

/// One call on a world: its arguments and its answer. Prints nothing, since it carries what clients
/// and children sent, and one-time tokens.
#[derive(PartialEq, Eq, Drop)]
pub enum Entry {
    Bind {
        door: Door,
        path: Bytes,
        answer: Result<(), WorldFault>,
    },
    /// The items are those of the list as the call leaves it.
    Poll {
        wait: Option<u64>,
        items: PlainList<Ready>,
        answer: Result<Polled, WorldFault>,
    },
    Accept {
        door: Door,
        answer: Result<Accepted, WorldFault>,
    },
    /// The room is the slice's length, and the bytes are those that were given.
    Read {
        port: u64,
        room: usize,
        got: Bytes,
        answer: Result<Got, WorldFault>,
    },
    /// The whole slice was offered.
    Write {
        port: u64,
        offered: Bytes,
        answer: Result<Wrote, WorldFault>,
    },
    Close {
        port: u64,
        answer: Result<(), AllocError>,
    },
    Start {
        job: Job,
        answer: Result<[u8; 16], WorldFault>,
    },
    Now {
        answer: Result<Moment, AllocError>,
    },
}
