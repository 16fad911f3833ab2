//! Schedules and output as text: a line of a schedule is read, and a line of the output is written.
//! The format is this repository's own: docs/PROTOCOL.md, "Schedules".
//! Stands on world_ports and plain_lists, and on hex and itoa of the kit.
#![tactic(auto)]

mod deed;
mod fault;
mod fields;
mod laws;
mod numbers;
mod read;
mod step;
mod step_line;
mod texts;
mod write;

pub use crate::deed::Deed;
pub use crate::fault::LineFault;
pub use crate::laws::a_written_step_is_read_back;
pub use crate::numbers::number as read_number;
pub use crate::read::read_line;
pub use crate::step::Step;
pub use crate::step_line::put_step;
pub use crate::texts::{put_hex, put_number};
pub use crate::write::put_deed;
