//! What is seen of a run.

use plain_lists::Bytes;

/// One thing that is seen of a run.
#[derive(Drop)]
pub enum What {
    /// A client sent these bytes.
    Sent { port: u64, piece: Bytes },
    /// A client took these bytes.
    Given { port: u64, bytes: Bytes },
    /// The user is asked, by what was just seen of this client.
    Raised { port: u64 },
    /// A request of this client for a signature was put to the helper.
    Put { port: u64 },
    /// The port was closed.
    Closed { port: u64 },
}

/// One thing that is seen of a run, and when.
#[derive(Drop)]
pub struct Sight {
    /// The second of the wall clock.
    pub wall: u64,
    /// How many helpers were lost by then.
    pub faults: u64,
    pub what: What,
}
