//! What is seen of a run of the abstract agent, as log_book tells of it, and laws of that: definitions and laws alone.
//! docs/PROTOCOL.md, "A log". Stands on agent_model, agent_laws and log_book.
#![tactic(auto)]

mod laws;
mod rows;

pub use laws::{
    an_event_asks_about_its_own_client, what_is_asked_is_seen, what_is_put_is_seen,
    what_is_put_was_read, what_is_told_is_what_came, what_is_told_was_read,
};
pub use rows::{
    a_request_goes_so_far, a_request_is_put_as_it_is, an_event_ends_a_request,
    the_helper_refused_or_was_lost, the_last_request_counts, what_the_helper_made_of_it,
};
