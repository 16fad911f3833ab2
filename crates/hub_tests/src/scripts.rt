//! Scripts of worlds, and what was done there.

ghost use Rattle.std.specs.Prelude.{◌≡◌};
ghost use Rattle.agent_model.specs.State.{first_state, no_settings};

use agent_core::{Agent, Settings};
use plain_lists::Bytes;
use ready_loop::{Core, ServeEnd, serve};
use std::alloc::{AllocError, Global};
use std::sync::Wait;
use world_ports::{Cue, Door, ScriptWorld};

// A request for the identities: its length, and its number.
pub const LIST: &[u8] = b"\x00\x00\x00\x01\x0b";

// Identities live for ever, and all is waited for as long.
pub const NO_SETTINGS: Settings = Settings {
    default_life: None,
    ask_limit: None,
    confirm_limit: None,
};

// Somebody connects as a client.
pub fn connect() -> Cue {
    Cue::Connect(Door::Clients)
}

// A port sends these bytes.
pub fn send(alloc: Global, port: u64, bytes: &[u8]) -> Result<Cue, AllocError> {
    Ok(Cue::Send {
        port,
        bytes: Bytes::from_vec(Vec::from_slice(alloc, bytes)?),
    })
}

// The loop over a script, with this agent: how it ended, and the world then.
pub fn play_with<R: Wait, A: Core>(
    rt: &R,
    alloc: Global,
    agent: &mut A,
    turns: Vec<Vec<Cue>>,
) -> (ServeEnd, ScriptWorld)
    requires { A.state agent.old ≡ first_state no_settings }
{
    let mut world = ScriptWorld::new(alloc, turns, Vec::new(alloc));
    let end = serve(rt, alloc, agent, &mut world, "agent", false);
    (end, world)
}

// The same with a new agent.
pub fn play<R: Wait>(rt: &R, alloc: Global, turns: Vec<Vec<Cue>>) -> (ServeEnd, ScriptWorld) {
    let mut agent = Agent::new(alloc, NO_SETTINGS);
    play_with(rt, alloc, &mut agent, turns)
}
