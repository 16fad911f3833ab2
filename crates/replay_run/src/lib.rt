//! The run of a schedule: lines of events are read from a source, run by the agent's core, and what
//! they bring is written to a sink. The format is this repository's own: docs/PROTOCOL.md, "Schedules".
//! A drill draws its lines from a seed, and sums up what came of them: docs/PROTOCOL.md, "The drill".
//! Stands on agent_core, schedule_text and world_ports, and on wire_core, frame_core and child_msg for the drill's messages.
#![tactic(auto)]

mod choices;
mod drill;
mod feed;
mod held;
mod lawful;
mod laws;
mod limits;
mod replay;
mod run;
mod run_end;
mod settle;
mod watch;

pub use choices::{read_lived, read_settings, read_with, served_settings};
pub use drill::run_drill;
use feed::Feed;
pub use held::Held;
pub use lawful::{a_drill_is_lawful, a_schedule_is_lawful};
pub use laws::{a_moment_without_limits_closes_nothing, nothing_is_owed_after_settling};
pub use limits::LONGEST_SCHEDULE;
pub use replay::Replay;
pub use run::run_replay;
pub use run_end::RunEnd;
pub use watch::Watch;
