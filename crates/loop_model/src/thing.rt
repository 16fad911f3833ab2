//! The things that can be served.

use world_ports::Door;

/// What can be served: a listener, or one direction of a connection by its number.
#[derive(Clone, Copy, Debug, PartialEq, Eq)]
pub enum Thing {
    Accept(Door),
    Read(u64),
    Write(u64),
}
