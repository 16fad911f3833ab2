//! The settings that an agent is started with, and the events that it handles one by one.

use world_ports::Door;

/// What an agent is started with.
#[derive(Clone, Copy, Debug, PartialEq, Eq)]
pub struct Settings {
    /// The lifetime, in seconds, of identities that are added without one.
    pub default_life: Option<u32>,
    /// How many seconds an ask may be unanswered, before its helper is lost.
    pub ask_limit: Option<u32>,
    /// How many seconds a confirmation may be open, before it is refused.
    pub confirm_limit: Option<u32>,
}

/// What happens to the agent: the atomic step of its clients, its children and the clock. Prints
/// nothing, since it carries what clients sent, and one-time tokens.
#[derive(Clone, Copy)]
pub enum Event<'a> {
    /// Somebody connected at a listener. The new port has the next number, from 1.
    Joined(Door),
    /// The next bytes of a port, in a piece of any length.
    Heard { port: u64, piece: &'a [u8] },
    /// A port has ended, or could not be read or written.
    Ended { port: u64 },
    /// A port took so many bytes of those that it is owed, from their front.
    Took { port: u64, count: usize },
    /// A child process was started, and this is the one-time token that its greeting has to carry.
    Started { job: u64, ticket: [u8; 16] },
    /// A child process could not be started.
    StartFailed { job: u64 },
    /// Nothing but the time.
    Tick,
}
