//! Files, runs of programs and connections of the real system, as the programs meet them.
//! Stands on world_ports and plain_lists.
#![tactic(auto)]

mod dialog;
mod errors;
mod files;
mod peer;
mod room;
mod spawner;
#[cfg(test)]
mod tests;
mod ticket;
mod turns;
mod watched;

pub use errors::is_memory;
pub use files::RealFiles;
pub use peer::{Peer, connect, connect_child};
pub use spawner::RealSpawner;
pub use ticket::put_ticket;
