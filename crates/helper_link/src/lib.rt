//! The agent's link to its helper process, which uses the keys: what was asked, what is to be sent,
//! and what the helper's stream settles (ours; docs/PROTOCOL.md, "Messages of child processes").
//! Stands on `child_msg` (messages), `frame_core`, `secret_buf` (buffers) and `plain_lists`.
#![tactic(auto)]

mod answer;
mod ask;
mod fault;
mod laws;
mod link;
mod rows;
mod settle;
mod state;
mod stop;

pub use answer::{Answer, Settled, Told};
pub use ask::{Ask, AskKind};
pub use fault::{AskFault, LinkFault};
pub use laws::{
    an_ask_has_a_number_of_its_own, answers_go_to_who_asked, ask_numbers_never_begin_again,
    cuts_of_the_stream_do_not_matter, links_stay_sound, no_ask_was_put_after_the_last_second,
    the_oldest_ask_is_the_longest_unanswered,
};
pub use link::Link;
pub use rows::{bodies_fill_the_places, the_oldest_unanswered_ask_counts};
pub use state::LinkState;
