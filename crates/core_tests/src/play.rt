//! One step of the agent, or one look at it, a function, with a label that a failure prints. A test that owns an agent
//! has nothing but calls then: at each exit of its own the agent's drop would be proved once more.

use agent_core::{Agent, Event, Settings};
use std::process::Abort;
use std::test::*;
use world_ports::{Job, Moment};

/// Identities live for ever, and all is waited for as long.
pub const NO_SETTINGS: Settings = Settings {
    default_life: None,
    ask_limit: None,
    confirm_limit: None,
};

/// The moment of a step where none is told.
pub const NOW: Moment = Moment { mono: 7, wall: 0 };

/// One event that fits, at a moment.
pub fn tell_at(rt: &impl Abort, agent: &mut Agent, moment: Moment, event: &Event<'_>) {
    assert!(rt; agent.fits(event), "the event fits");
    let stepped = agent.step(moment, event).is_ok();
    assert!(rt; stepped, "memory is ample");
}

/// One event that fits.
pub fn tell(rt: &impl Abort, agent: &mut Agent, event: &Event<'_>) {
    tell_at(rt, agent, NOW, event)
}

/// These bytes come from a port.
pub fn hear(rt: &impl Abort, agent: &mut Agent, port: u64, piece: &[u8]) {
    tell(rt, agent, &Event::Heard { port, piece })
}

/// A port takes all that it is owed.
pub fn take_all(rt: &impl Abort, agent: &mut Agent, port: u64) {
    let count = agent.owed(port).len();
    tell(rt, agent, &Event::Took { port, count })
}

/// The client of port 1 sends a request at a second of the monotonic clock, and takes its reply.
pub fn ask_at(rt: &impl Abort, agent: &mut Agent, mono: u64, piece: &[u8], reply: &[u8]) {
    let moment = Moment { mono, wall: 0 };
    tell_at(rt, agent, moment, &Event::Heard { port: 1, piece });
    owes(rt, agent, 1, reply, "a reply");
    let count = reply.len();
    tell_at(rt, agent, moment, &Event::Took { port: 1, count });
}

/// What a port is owed.
pub fn owes(rt: &impl Abort, agent: &Agent, port: u64, bytes: &[u8], label: &str) {
    assert_eq!(rt; agent.owed(port), bytes, "{label}");
}

/// Which ports the last step closed.
pub fn closes(rt: &impl Abort, agent: &Agent, ports: &[u64], label: &str) {
    assert_eq!(rt; agent.closes(), ports, "{label}");
}

/// Which jobs are to be started.
pub fn starts(rt: &impl Abort, agent: &Agent, jobs: &[Job], label: &str) {
    assert_eq!(rt; agent.starts(), jobs, "{label}");
}

/// A number that was looked for, as that of a port or of a second.
pub fn finds(rt: &impl Abort, found: Option<u64>, wanted: Option<u64>, label: &str) {
    assert_eq!(rt; found, wanted, "{label}");
}

/// What has to be so.
pub fn holds(rt: &impl Abort, does: bool, label: &str) {
    assert!(rt; does, "{label}");
}
