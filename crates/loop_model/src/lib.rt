//! The readiness loop's definitions: which journals of a world are legal for the abstract agent, each thing being served
//! in its turn. Stands on agent_model (the state and its steps), under_way (how jobs fit what is under way), lists (what
//! is set aside) and world_ports (the entries of a journal).
#![tactic(auto)]

mod laws;
mod order;
mod rows;
mod thing;

pub use laws::{
    an_event_leaves_an_orderly_agent, an_event_leaves_what_can_be_served,
    an_event_wants_no_other_port, every_front_is_legal, no_wait_ends_before_it_is_due,
    nothing_waits_at_a_poll, the_events_of_a_journal_fit,
};
pub use order::{
    a_job_is_started_first, all_wait_their_turn, nothing_that_is_ready_is_lost,
    the_list_goes_round, the_list_holds_what_can_be_served,
};
pub use rows::{
    a_call_out_of_turn_is_refused, a_client_that_joined_is_served_first, a_wait_follows_a_look,
    an_event_ends_what_was_served, only_what_is_ready_is_tried,
    what_can_be_served_again_comes_back, what_cant_be_served_is_set_aside,
    what_is_due_is_told_before_a_wait, what_is_owed_is_written, what_is_ready_stands_once,
    what_is_to_be_started_is_started_first, what_was_served_stands_last,
};
pub use thing::Thing;
