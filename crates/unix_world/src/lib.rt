//! The outside of a running agent: listeners and connections of Unix sockets over epoll, child processes, the
//! system's clocks and its source of random bytes. `UnixWorld` is a `World` whose journal tells nothing.
//! What the system does isn't claimed: counts, numbers, bounds and what stays of a buffer are.
#![tactic(auto)]

mod children;
mod clock;
mod clocks;
mod connection;
mod doors;
mod epoll;
mod hello;
mod identity;
mod lock;
mod marks;
mod owed;
mod port;
mod ports;
mod programs;
mod sockets;
mod started;
mod unix;

pub use doors::{BoundFile, FileId, Listener, listen_at, remove_bound};
pub use port::Port;
pub use programs::Programs;
pub use unix::{UnixWorld, is_memory};
