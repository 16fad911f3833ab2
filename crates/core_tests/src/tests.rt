//! A client's listing, and lifetimes.

use crate::helper_tests::SIGN_REQUEST;
use crate::play::{NO_SETTINGS, ask_at, closes, finds, hear, holds, owes, starts, take_all, tell};
use agent_core::{Agent, Event, Settings};
use std::test::*;
use world_ports::Door;

// Messages of draft-miller-ssh-agent, "Protocol Messages": the length of the body in four bytes, and
// the body, whose first byte is the message's number.
/// SSH_AGENTC_REQUEST_IDENTITIES, 11.
pub const LIST: [u8; 5] = [0, 0, 0, 1, 11];
/// Two of them.
const TWO_LISTS: [u8; 10] = [0, 0, 0, 1, 11, 0, 0, 0, 1, 11];
/// SSH_AGENT_IDENTITIES_ANSWER, 12, with no identity.
const NO_IDENTITIES: [u8; 9] = [0, 0, 0, 5, 12, 0, 0, 0, 0];
/// SSH_AGENT_SUCCESS, 6.
pub const SUCCESS: [u8; 5] = [0, 0, 0, 1, 6];
/// SSH_AGENT_FAILURE, 5.
pub const FAILURE: [u8; 5] = [0, 0, 0, 1, 5];

const JOINED: Event<'static> = Event::Joined(Door::Clients);

// A key of the type keyed-sha256@example.com with tag 11.. and secret 21.., and the comment "one":
// SSH_AGENTC_ADD_IDENTITY, 17, and SSH_AGENTC_ADD_ID_CONSTRAINED, 25, with a lifetime of 10 seconds.
pub const ADD: &[u8] = b"\0\0\0\x6c\x11\
    \0\0\0\x18keyed-sha256@example.com\
    \0\0\0\x20\x11\x11\x11\x11\x11\x11\x11\x11\x11\x11\x11\x11\x11\x11\x11\x11\
    \x11\x11\x11\x11\x11\x11\x11\x11\x11\x11\x11\x11\x11\x11\x11\x11\
    \0\0\0\x20\x21\x21\x21\x21\x21\x21\x21\x21\x21\x21\x21\x21\x21\x21\x21\x21\
    \x21\x21\x21\x21\x21\x21\x21\x21\x21\x21\x21\x21\x21\x21\x21\x21\
    \0\0\0\x03one";

const ADD_FOR_TEN_SECONDS: &[u8] = b"\0\0\0\x71\x19\
    \0\0\0\x18keyed-sha256@example.com\
    \0\0\0\x20\x11\x11\x11\x11\x11\x11\x11\x11\x11\x11\x11\x11\x11\x11\x11\x11\
    \x11\x11\x11\x11\x11\x11\x11\x11\x11\x11\x11\x11\x11\x11\x11\x11\
    \0\0\0\x20\x21\x21\x21\x21\x21\x21\x21\x21\x21\x21\x21\x21\x21\x21\x21\x21\
    \x21\x21\x21\x21\x21\x21\x21\x21\x21\x21\x21\x21\x21\x21\x21\x21\
    \0\0\0\x03one\x01\0\0\0\x0a";
/// The same addition, which may be used once (docs/PROTOCOL.md, "Constraints").
pub const ADD_FOR_ONE_USE: &[u8] = b"\0\0\0\x8e\x19\
    \0\0\0\x18keyed-sha256@example.com\
    \0\0\0\x20\x11\x11\x11\x11\x11\x11\x11\x11\x11\x11\x11\x11\x11\x11\x11\x11\
    \x11\x11\x11\x11\x11\x11\x11\x11\x11\x11\x11\x11\x11\x11\x11\x11\
    \0\0\0\x20\x21\x21\x21\x21\x21\x21\x21\x21\x21\x21\x21\x21\x21\x21\x21\x21\
    \x21\x21\x21\x21\x21\x21\x21\x21\x21\x21\x21\x21\x21\x21\x21\x21\
    \0\0\0\x03one\x01\0\0\0\x0a\xff\0\0\0\x14uses-v00@example.com\0\0\0\x01";
/// SSH_AGENT_IDENTITIES_ANSWER with that key.
const LISTED: &[u8] = b"\0\0\0\x50\x0c\0\0\0\x01\0\0\0\x40\
    \0\0\0\x18keyed-sha256@example.com\
    \0\0\0\x20\x11\x11\x11\x11\x11\x11\x11\x11\x11\x11\x11\x11\x11\x11\x11\x11\
    \x11\x11\x11\x11\x11\x11\x11\x11\x11\x11\x11\x11\x11\x11\x11\x11\
    \0\0\0\x03one";

#[test]
fn a_listing_is_answered_with_ample_memory(rt: HostRuntime) {
    let mut agent = Agent::new(rt.alloc(), NO_SETTINGS);
    holds(&rt, !agent.is_port(1), "no port yet");
    let ended = Event::Ended { port: 1 };
    holds(&rt, !agent.fits(&ended), "no port yet ends");
    finds(&rt, agent.next_owed(0), None, "nobody is owed");
    tell(&rt, &mut agent, &JOINED);
    holds(&rt, agent.is_port(1), "a port");
    holds(&rt, agent.is_client(1), "a client");
    holds(&rt, agent.wants(1), "it is read");
    holds(&rt, agent.clients() == 1, "one client");
    holds(&rt, agent.ports_so_far() == 1, "one port so far");
    starts(&rt, &agent, &[], "nothing is to be started");
    hear(&rt, &mut agent, 1, &LIST);
    finds(&rt, agent.next_owed(0), Some(1), "it is owed");
    owes(&rt, &agent, 1, &NO_IDENTITIES, "no identity");
    let more = Event::Took { port: 1, count: 10 };
    holds(&rt, !agent.fits(&more), "no more than it is owed");
    tell(&rt, &mut agent, &Event::Took { port: 1, count: 9 });
    finds(&rt, agent.next_owed(0), None, "nothing more");
    hear(&rt, &mut agent, 1, &TWO_LISTS);
    holds(&rt, !agent.wants(1), "the second waits for the reply");
    tell(&rt, &mut agent, &ended);
    closes(&rt, &agent, &[1], "its end");
    tell(&rt, &mut agent, &Event::Tick);
    closes(&rt, &agent, &[], "closed once");
}

#[test]
fn a_client_is_read_until_its_next_request_has_begun(rt: HostRuntime) {
    let mut agent = Agent::new(rt.alloc(), NO_SETTINGS);
    tell(&rt, &mut agent, &JOINED);
    hear(&rt, &mut agent, 1, &LIST[..4]);
    holds(&rt, agent.wants(1), "the rest of its first");
    hear(&rt, &mut agent, 1, &LIST[4..]);
    holds(&rt, agent.wants(1), "nothing of its next");
    hear(&rt, &mut agent, 1, &LIST[..1]);
    holds(&rt, !agent.wants(1), "its reply isn't taken");
    tell(&rt, &mut agent, &Event::Took { port: 1, count: 8 });
    holds(&rt, !agent.wants(1), "a byte of it isn't");
    tell(&rt, &mut agent, &Event::Took { port: 1, count: 1 });
    holds(&rt, agent.wants(1), "all is taken");
    hear(&rt, &mut agent, 1, &LIST[1..]);
    take_all(&rt, &mut agent, 1);
    hear(&rt, &mut agent, 1, ADD);
    take_all(&rt, &mut agent, 1);
    hear(&rt, &mut agent, 1, SIGN_REQUEST);
    holds(&rt, agent.wants(1), "it waits and sent nothing more");
    hear(&rt, &mut agent, 1, &LIST[..1]);
    holds(&rt, !agent.wants(1), "it waits and sent a byte");
    // A child process is always read.
    tell(&rt, &mut agent, &Event::Joined(Door::Children));
    hear(&rt, &mut agent, 2, &LIST[..1]);
    holds(&rt, agent.wants(2), "its hello");
}

#[test]
fn an_identity_lives_for_its_lifetime(rt: HostRuntime) {
    let mut agent = Agent::new(rt.alloc(), NO_SETTINGS);
    tell(&rt, &mut agent, &JOINED);
    ask_at(&rt, &mut agent, 10, ADD_FOR_TEN_SECONDS, &SUCCESS);
    holds(&rt, agent.held() == 1, "one is held");
    finds(&rt, agent.next_due(), Some(20), "for ten seconds");
    ask_at(&rt, &mut agent, 19, &LIST, LISTED);
    // A moment that falls back counts as the greatest one.
    ask_at(&rt, &mut agent, 3, &LIST, LISTED);
    ask_at(&rt, &mut agent, 20, &LIST, &NO_IDENTITIES);
    holds(&rt, agent.held() == 0, "none is held");
    finds(&rt, agent.next_due(), None, "none is due");
    // The clock never comes to this death.
    ask_at(&rt, &mut agent, u64::MAX, ADD_FOR_TEN_SECONDS, &SUCCESS);
    finds(&rt, agent.next_due(), None, "past the clock's end");
    ask_at(&rt, &mut agent, u64::MAX, &LIST, LISTED);
}

#[test]
fn the_default_lifetime_is_for_keys_without_one(rt: HostRuntime) {
    let settings = Settings {
        default_life: Some(5),
        ask_limit: None,
        confirm_limit: None,
    };
    let mut agent = Agent::new(rt.alloc(), settings);
    tell(&rt, &mut agent, &JOINED);
    ask_at(&rt, &mut agent, 10, ADD, &SUCCESS);
    finds(&rt, agent.next_due(), Some(15), "the default");
    ask_at(&rt, &mut agent, 11, ADD_FOR_TEN_SECONDS, &SUCCESS);
    finds(&rt, agent.next_due(), Some(21), "its own");
}
