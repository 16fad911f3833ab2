//! An audit of a record, over any files and any output: the schedule that an agent's run was recorded as is run again
//! line by line, what it prints is compared, and each signing request that was put to a helper is reported.
//! docs/PROTOCOL.md, "An audit". Stands on agent_core, agent_laws, helper_link, replay_run, schedule_text and
//! world_ports.
#![tactic(auto)]

mod comparison;
mod laws;
mod lines;
mod noting;
mod put;
mod report;
mod rows;
mod status;
mod texts;
mod top;
mod words;
mod writing;

pub use comparison::{Finding, compare};
pub use laws::{all_that_is_put_is_listed, an_event_puts_its_newest_ask};
pub use lines::{put_end, run_next};
pub use noting::Noting;
pub use put::Put;
pub use report::{put_sign, put_total};
pub use rows::{audits_are_reported, texts_differ_at_a_line};
pub use status::AuditStatus;
pub use top::{audit, audit_main};
pub use writing::{Stop, write_report};
