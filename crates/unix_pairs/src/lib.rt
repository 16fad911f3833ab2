//! The outside of a running filter: a listener, and pairs of connections of Unix sockets over epoll. `UnixPairs` is a
//! `Pairs` whose journal tells nothing. What the system does isn't claimed: counts, numbers, bounds and what stays of a
//! buffer are. Stands on unix_world, whose listener and connections these are, and on pair_ports.
#![tactic(auto)]

mod connected;
mod unix;
mod waits;

pub use unix::UnixPairs;
