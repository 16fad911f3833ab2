//! The settling after an event.

ghost use Rattle.std.specs.Prelude.{◌≡◌, ◌++◌, OnOk};
ghost use Rattle.std.specs.List.{flat_map};
ghost use Rattle.agent_model.specs.Sound.{IsSteady};
ghost use Rattle.replay_run.specs.Settling.{next_to_take, settled, takings};
ghost use Rattle.replay_run.specs.Told.{told_from};

use crate::held::Held;
use crate::watch::Watch;
use agent_core::{Agent, Event};
use std::alloc::{AllocError, Global};
use world_ports::Moment;

// The open port of the least number that isn't held and is owed bytes.
fn next_unheld(agent: &Agent, held: &Held) -> Option<u64>
    ensures next { result ≡ next_to_take held.now agent.now.state }
    ensures steady { IsSteady agent.now.state }
{
    let mut after = 0;
    'owed: while let Some(port) = agent.next_owed(after) {
        if !held.has(port) {
            return Some(port);
        }
        after = port;
    }
    None
}

// Every port that isn't held takes what it is owed, the least number first.
pub fn settle<W: Watch>(
    alloc: Global,
    agent: &mut Agent,
    line: u64,
    moment: Moment,
    held: &Held,
    watch: &mut W,
) -> Result<(), AllocError>
    ensures agent { OnOk result (agent.new.state ≡ settled moment held.now agent.old.state) }
    ensures notes { OnOk result (W.notes watch.new ≡ W.notes watch.old ++ flat_map W.notes_of
        (told_from line agent.old.state (takings moment held.now agent.old.state))) }
{
    'takings: while let Some(port) = next_unheld(agent, held) {
        let count = agent.owed(port).len();
        watch.step(alloc, agent, line, moment, &Event::Took { port, count })?;
    }
    Ok(())
}
