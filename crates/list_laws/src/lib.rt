//! What a client is listed, by what was done before alone: the additions that stand, in the order in
//! which their keys came, as far as its connection sees them, and none while the agent is locked.
#![tactic(auto)]

mod laws;
mod rows;

pub use laws::a_list_is_what_was_added;
pub use rows::the_past_tells_of_lists;
