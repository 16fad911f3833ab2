//! What a line of a schedule asks for.

use plain_lists::Bytes;
use world_ports::{Door, Moment};

/// What one line of a schedule asks for. Ports and jobs are numbers as the run counts them, from 1.
///
/// Has no `Debug`, since what a port sends may hold a private key or a passphrase.
#[derive(PartialEq, Eq, Drop)]
pub enum Step {
    /// A line that is empty or begins with `#`. It is counted and does nothing else.
    Skip,
    /// `schedule 2`: the schedule is of format 2. For the run it stands in line 1 alone.
    Format2,
    /// `at MONO WALL`: the moment of the lines that follow.
    At(Moment),
    /// `join client` or `join child`: a connection comes in.
    Join(Door),
    /// `hear PORT HEX`: the port sends bytes, of which there is one at least.
    Hear { port: u64, bytes: Bytes },
    /// `end PORT`: the port sends no more.
    End(u64),
    /// `hold PORT`: the port takes bytes only by `take` from here on.
    Hold(u64),
    /// `free PORT`: the port takes all again.
    Free(u64),
    /// `take PORT N`: the port takes so many bytes, one at least.
    Take { port: u64, count: u64 },
    /// `started JOB HEX`: the child process runs and was given this one-time token.
    Started { job: u64, ticket: [u8; 16] },
    /// `failed JOB`: the child process could not be started.
    Failed(u64),
}
