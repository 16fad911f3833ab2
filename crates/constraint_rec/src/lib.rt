//! Constraints of a key that is added to an agent: what they are, and their text, read and written.
//!
//! Stands on `wire_core` for fields, on `key_blob` for the keys of hosts, on `key_purposes` for what signatures may be
//! for, and on `plain_lists` for bytes; follows draft-miller-ssh-agent and OpenSSH's PROTOCOL.agent.
#![tactic(auto)]

mod constraint;
mod destination;
mod fault;
mod key_spec;
mod kind;
mod purposes;
mod read;
mod terms;
mod write;

pub use constraint::{Constraint, Hop};
pub use fault::TermFault;
pub use key_spec::KeySpec;
pub use read::read_constraints;
pub use terms::Terms;
pub use write::write_constraints;
