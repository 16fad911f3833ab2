//! The log of a record, over any input and any output: the schedule that an agent's run was recorded as is run again
//! line by line as it is read, and each signing request that was read in it is a line, with its fate. docs/PROTOCOL.md,
//! "A log".
//! Stands on agent_core, audit_core, helper_link, log_book, log_laws, replay_run, schedule_text and world_ports.
#![tactic(auto)]

mod laws;
mod lines;
mod log_run;
mod rounds;
mod rows;
mod seeing;
mod status;
mod top;
mod writing;

pub use laws::{a_log_is_of_the_records_run, a_log_sees_what_an_audit_lists};
pub use rounds::write_log;
pub use rows::a_cut_line_waits;
pub use seeing::Seeing;
pub use status::LogStatus;
pub use top::log_main;
