//! A filter before another agent, as definitions: its state and steps, which calls its loop may make, and what all that
//! comes to. Stands on agent_msg (requests and replies), key_purposes (what a message is for) and pair_ports (sides and
//! journals).
#![tactic(auto)]

mod laws;
mod rows;
mod thing;
mod waits;

pub use laws::{exact, fair, passes, places, purposes};
pub use rows::{
    a_list_is_cut, connections_are_few, journals_are_legal, only_listed_keys_are_used,
    only_purposes_are_signed_for, others_are_kept_in_order,
};
pub use thing::Thing;
pub use waits::Waits;
