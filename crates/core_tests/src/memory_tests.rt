//! A run that answers where memory is refused: `rt try --test --fail-alloc N` refuses the Nth allocation of each test.

use crate::helper_tests::{HELLO, SIGN_REQUEST, SIGNED_1, TICKET};
use crate::play::{NO_SETTINGS, NOW, finds, holds};
use crate::tests::{ADD, LIST};
use agent_core::{Agent, Event};
use std::alloc::AllocError;
use std::process::Abort;
use std::test::*;
use world_ports::Door;

// One event that fits, where memory may be refused.
fn step(rt: &impl Abort, agent: &mut Agent, event: &Event<'_>) -> Result<(), AllocError> {
    assert!(rt; agent.fits(event), "the event fits");
    agent.step(NOW, event)
}

fn hear(rt: &impl Abort, agent: &mut Agent, port: u64, piece: &[u8]) -> Result<(), AllocError> {
    step(rt, agent, &Event::Heard { port, piece })
}

fn take_all(rt: &impl Abort, agent: &mut Agent, port: u64) -> Result<(), AllocError> {
    let count = agent.owed(port).len();
    step(rt, agent, &Event::Took { port, count })
}

// A key is added, listed and used.
fn play(rt: &impl Abort, agent: &mut Agent) -> Result<(), AllocError> {
    step(rt, agent, &Event::Joined(Door::Clients))?;
    hear(rt, agent, 1, ADD)?;
    take_all(rt, agent, 1)?;
    hear(rt, agent, 1, &LIST)?;
    take_all(rt, agent, 1)?;
    hear(rt, agent, 1, SIGN_REQUEST)?;
    let started = Event::Started {
        job: 1,
        ticket: TICKET,
    };
    step(rt, agent, &started)?;
    step(rt, agent, &Event::Joined(Door::Children))?;
    hear(rt, agent, 2, HELLO)?;
    take_all(rt, agent, 2)?;
    hear(rt, agent, 2, SIGNED_1)
}

#[test]
fn a_refused_step_leaves_a_new_agent(rt: HostRuntime) {
    let mut agent = Agent::new(rt.alloc(), NO_SETTINGS);
    let played = play(&rt, &mut agent).is_ok();
    holds(&rt, (agent.clients() == 1) == played, "no client stays");
    holds(&rt, (agent.held() == 1) == played, "no identity stays");
    let owed = if played { Some(1) } else { None };
    finds(&rt, agent.next_owed(0), owed, "nobody is owed");
}
