//! What the programs that the agent starts have in common: the words that they are started with, and
//! how they read from their connection to the agent and write to it (docs/PROTOCOL.md, "Messages of
//! child processes"). Stands on child_msg and world_ports, and on hex of the kit.
#![tactic(auto)]

mod fault;
mod no_peer;
mod output;
mod room;
mod words;

pub use fault::{HearFault, SayFault};
pub use no_peer::NoPeer;
pub use output::{flush, say};
pub use room::Room;
pub use words::{Words, read_words};
