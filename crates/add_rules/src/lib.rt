//! The destination constraints that `ssh-add -h` asks for (ssh-add(1)), by the keys that files of known
//! hosts have for their hosts, and how many bytes constraints take.
//! Stands on known_hosts and constraint_rec.
#![tactic(auto)]

mod destination;
mod fault;
mod laws;
mod length;
mod rules;

pub use fault::DestFault;
pub use laws::constraints_are_those_of_the_words;
pub use length::constraints_len;
pub use rules::destination_rules;
