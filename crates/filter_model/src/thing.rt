//! What the filter can serve: the door, or a direction of one side of a pair.

use pair_ports::Side;

/// What can be served: the door, or one direction of one side of a pair. To write to the agent behind is to connect to
/// it first, where the pair has no connection.
#[derive(Clone, Copy, Debug, PartialEq, Eq)]
pub enum Thing {
    Accept,
    Read(u64, Side),
    Write(u64, Side),
}
