//! Signatures that wait for the user's consent, each with the child process that asks, and what the user is asked
//! (ours; docs/PROTOCOL.md, "Messages of child processes").
//! Stands on `child_msg` (messages), `frame_core`, `secret_buf` (buffers), `key_blob` (fingerprints), `key_purposes`,
//! `userauth_blob` and `sshsig_blob` (what a message is for), and `plain_lists`.
#![tactic(auto)]

mod consent;
mod desk;
mod fault;
mod held;
mod laws;
mod line;
mod line_rows;
mod list;
mod pending;
mod question;
mod rows;
mod shown;

pub use desk::{Desk, MAX_CONFIRMATIONS};
pub use fault::DeskFault;
pub use held::{Held, Verdict};
pub use laws::{
    a_decision_is_taken_once, a_third_line_tells_what_is_signed, confirmations_stay_in_order,
    cuts_of_the_bytes_do_not_matter, desks_stay_sound, none_was_raised_after_the_last_second,
    questions_are_about_what_is_held, questions_are_short,
    the_oldest_confirmation_is_the_longest_open,
};
pub use line_rows::{
    a_key_with_purposes_has_a_third_line, a_login_is_shown_with_its_host,
    each_message_has_its_line, names_are_printable,
};
pub use pending::Pending;
pub use question::{prompt, prompt_for};
pub use rows::{
    a_decision_ends_one_confirmation, confirmations_are_kept_in_order,
    only_a_grant_of_the_job_is_a_yes, prompts_are_printable, the_least_port_is_owed_first,
    the_oldest_confirmation_counts,
};
