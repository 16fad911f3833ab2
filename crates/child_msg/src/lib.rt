//! The messages between the agent and its child processes: the helper, which uses keys, and the
//! relay, which asks the user. Each is a body in a frame (ours; docs/PROTOCOL.md, "Messages of child processes").
//! Stands on `wire_core`, for fields, and on `secret_buf`, since SIGN has a private key in it.
#![tactic(auto)]

mod fault;
mod fields;
mod message;
mod read;
#[cfg(test)]
mod tests;
mod write;

pub use fault::ChildFault;
pub use message::{FromChild, ToChild};
pub use read::{read_from_child, read_to_child};
pub use write::{LONGEST_TO_CHILD, write_from_child, write_to_child};
