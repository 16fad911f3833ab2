//! What a record's run tells of signing requests: what was seen at clients' sockets and of the helper becomes one told
//! request after another, each with its fate, and each is a line of text. docs/PROTOCOL.md, "A log".
//! Stands on agent_msg, frame_core, key_blob, key_purposes, userauth_blob and schedule_text.
#![tactic(auto)]

mod asked;
mod book;
mod clock;
mod list;
mod peer;
mod reading;
mod rows;
mod shown;
mod sight;
mod told;
mod told_line;

pub use book::Book;
pub use rows::{requests_are_told, seconds_are_dates, what_is_shown_is_plain};
pub use sight::{Sight, What};
pub use told::{Asked, Course, Fate, Told};
pub use told_line::put_told;
