//! The law of records: the record of a run is the same run again, as clients and the outside
//! see it.
#![tactic(auto)]

mod laws;
mod recorded;
mod redacted;
mod rows;
mod secrets;
mod ticks;

pub use laws::replays;
pub use recorded::a_recorder_tells_what_was_sent;
pub use redacted::{names_of_passphrases_change_no_answer, what_is_told_brings_the_same};
pub use rows::{
    a_late_port_is_passed_over, a_list_is_recorded, a_lock_is_replayed, an_addition_is_replayed,
    what_is_not_served_is_replayed, what_is_refused_is_replayed,
};
pub use secrets::{a_lock_has_another_name, a_record_tells_no_secret};
pub use ticks::{a_tick_before_an_event_changes_nothing, what_fits_fits_behind_its_tick};
