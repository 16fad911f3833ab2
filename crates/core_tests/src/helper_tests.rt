//! Two clients' signatures through the helper: what is started, who is owed, and which faults are counted.

use crate::play::{NO_SETTINGS, closes, finds, hear, holds, owes, starts, take_all, tell};
use crate::tests::{ADD, ADD_FOR_ONE_USE, FAILURE, SUCCESS};
use agent_core::{Agent, Event};
use std::process::Abort;
use std::test::*;
use world_ports::{Door, Job, JobKind};

/// SSH_AGENTC_SIGN_REQUEST, 13 (draft-miller-ssh-agent, "Protocol Messages"), of two bytes by the key of `ADD`.
pub const SIGN_REQUEST: &[u8] = b"\0\0\0\x4f\x0d\0\0\0\x40\
    \0\0\0\x18keyed-sha256@example.com\
    \0\0\0\x20\x11\x11\x11\x11\x11\x11\x11\x11\x11\x11\x11\x11\x11\x11\x11\x11\
    \x11\x11\x11\x11\x11\x11\x11\x11\x11\x11\x11\x11\x11\x11\x11\x11\
    \0\0\0\x02\x01\x02\0\0\0\0";
/// SSH_AGENT_SIGN_RESPONSE, 14, with the signature "sig".
const SIGN_RESPONSE: &[u8] = b"\0\0\0\x08\x0e\0\0\0\x03sig";

// Messages of child processes (docs/PROTOCOL.md, "Messages of child processes").
pub const TICKET: [u8; 16] = *b"0123456789abcdef";
/// HELLO, 1, of job 1 with that ticket.
pub const HELLO: &[u8] = b"\0\0\0\x1d\x01\0\0\0\0\0\0\0\x01\0\0\0\x100123456789abcdef";
/// SIGNED, 101, to ask 1 and to ask 2, with the signature "sig".
pub const SIGNED_1: &[u8] = b"\0\0\0\x10\x65\0\0\0\0\0\0\0\x01\0\0\0\x03sig";

const SIGNED_2: &[u8] = b"\0\0\0\x10\x65\0\0\0\0\0\0\0\x02\0\0\0\x03sig";
/// SIGNED to ask 2, and then a frame that announces no byte.
const SIGNED_2_AND_BAD: &[u8] = b"\0\0\0\x10\x65\0\0\0\0\0\0\0\x02\0\0\0\x03sig\0\0\0\0";

// Clients 1 and 2 asked for a signature, and the helper's process was started.
fn two_ask(rt: &impl Abort, agent: &mut Agent) {
    tell(rt, agent, &Event::Joined(Door::Clients));
    tell(rt, agent, &Event::Joined(Door::Clients));
    hear(rt, agent, 1, ADD);
    owes(rt, agent, 1, &SUCCESS, "an addition");
    take_all(rt, agent, 1);
    hear(rt, agent, 1, SIGN_REQUEST);
    hear(rt, agent, 2, SIGN_REQUEST);
    let helper = Job {
        number: 1,
        kind: JobKind::Helper,
    };
    starts(rt, agent, &[helper], "one helper for both");
    finds(rt, agent.next_owed(0), None, "nobody is owed yet");
    let started = Event::Started {
        job: 1,
        ticket: TICKET,
    };
    tell(rt, agent, &started);
    starts(rt, agent, &[], "it was started");
    holds(rt, !agent.fits(&started), "a start is told once");
    tell(rt, agent, &Event::Joined(Door::Children))
}

#[test]
fn each_client_gets_its_own_answer(rt: HostRuntime) {
    let mut agent = Agent::new(rt.alloc(), NO_SETTINGS);
    two_ask(&rt, &mut agent);
    for end in 1..34 {
        owes(&rt, &agent, 3, &[], "before its hello is whole");
        hear(&rt, &mut agent, 3, &HELLO[end - 1..end]);
    }
    holds(&rt, !agent.is_client(3), "the helper is no client");
    holds(&rt, agent.clients() == 2, "two clients");
    finds(&rt, agent.next_owed(0), Some(3), "the helper is owed");
    // Two frames of SIGN.
    holds(&rt, agent.owed(3).len() == 2 * 195, "both requests");
    take_all(&rt, &mut agent, 3);
    hear(&rt, &mut agent, 3, SIGNED_2);
    owes(&rt, &agent, 1, &[], "no answer yet");
    owes(&rt, &agent, 2, SIGN_RESPONSE, "the second's answer");
    hear(&rt, &mut agent, 3, &SIGNED_1[..7]);
    hear(&rt, &mut agent, 3, &SIGNED_1[7..]);
    owes(&rt, &agent, 1, SIGN_RESPONSE, "the first's answer");
    holds(&rt, agent.link_faults() == 0, "no fault");
}

#[test]
fn a_faulty_helper_is_lost_behind_its_good_answers(rt: HostRuntime) {
    let mut agent = Agent::new(rt.alloc(), NO_SETTINGS);
    two_ask(&rt, &mut agent);
    hear(&rt, &mut agent, 3, HELLO);
    hear(&rt, &mut agent, 3, SIGNED_2_AND_BAD);
    owes(&rt, &agent, 2, SIGN_RESPONSE, "the good answer");
    owes(&rt, &agent, 1, &FAILURE, "the other request");
    closes(&rt, &agent, &[3], "the helper");
    holds(&rt, agent.link_faults() == 1, "one fault");
    // The next ask starts another.
    take_all(&rt, &mut agent, 1);
    hear(&rt, &mut agent, 1, SIGN_REQUEST);
    holds(&rt, agent.starts().len() == 1, "another helper");
    tell(&rt, &mut agent, &Event::StartFailed { job: 2 });
    owes(&rt, &agent, 1, &FAILURE, "no helper");
    holds(&rt, agent.link_faults() == 2, "two faults");
}

#[test]
fn a_key_is_gone_with_its_last_use(rt: HostRuntime) {
    let mut agent = Agent::new(rt.alloc(), NO_SETTINGS);
    tell(&rt, &mut agent, &Event::Joined(Door::Clients));
    hear(&rt, &mut agent, 1, ADD_FOR_ONE_USE);
    owes(&rt, &agent, 1, &SUCCESS, "an addition");
    take_all(&rt, &mut agent, 1);
    holds(&rt, agent.held() == 1, "one is held");
    finds(&rt, agent.next_due(), Some(17), "for ten seconds");
    hear(&rt, &mut agent, 1, SIGN_REQUEST);
    holds(&rt, agent.starts().len() == 1, "the helper is asked");
    holds(&rt, agent.held() == 0, "none is held");
    finds(&rt, agent.next_due(), None, "none is due");
    tell(&rt, &mut agent, &Event::StartFailed { job: 1 });
    owes(&rt, &agent, 1, &FAILURE, "no helper");
    holds(&rt, agent.held() == 0, "no use comes back");
}
