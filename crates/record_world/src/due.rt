//! The line that a call left to be written, until the clocks are read next.

use world_ports::Door;

/// The line of the last call, where it is one that its arguments and its answer tell.
#[derive(Clone, Copy)]
pub enum Due {
    Nothing,
    Join(Door),
    End(u64),
    Take { port: u64, count: u32 },
    Started { job: u64, ticket: [u8; 16] },
    Failed(u64),
}
