//! The signing requests that the lines of a record put, noted as the record is run.

ghost use Rattle.std.specs.Prelude.{◌≡◌, ◌++◌, OnOk, []};
ghost use Rattle.agent_core.specs.Happenings.{happening};
ghost use Rattle.agent_model.specs.State.{Fits};
ghost use Rattle.agent_model.specs.Step.{step};
ghost use Rattle.audit_core.specs.Newest.{put_as, put_since};
ghost use Rattle.audit_core.specs.Puts.{puts_by, puts_in};
ghost use Rattle.audit_core.specs.declared.put.Put.{Put};
ghost use Rattle.replay_run.specs.Settling.{after_event, closed_at};

use crate::Put;
use agent_core::{Agent, Event};
use helper_link::{Ask, AskKind};
use plain_lists::Bytes;
use replay_run::Watch;
use schedule_text::LineFault;
use std::alloc::{AllocError, Global};
use world_ports::Moment;

/// Notes each signing request that the lines of a record put.
#[derive(Drop)]
pub struct Noting {
    pub puts: Vec<Put>,
}

impl Noting {
    pub fn new(alloc: Global) -> Self
        ensures { result.puts.items ≡ [] }
    {
        Noting {
            puts: Vec::new(alloc),
        }
    }
}

// Notes an ask for a signature.
fn note(alloc: Global, puts: &mut Vec<Put>, line: u64, ask: &Ask) -> Result<(), AllocError>
    ensures { OnOk result (puts.new.items ≡ puts.old.items ++ put_as line ask.now ask.now.kind) }
{
    match ask.kind {
        AskKind::Signing => {
            let blob = Bytes::from_vec(Vec::from_slice(alloc, ask.blob.as_slice())?);
            puts.push(Put {
                line,
                ask: ask.number,
                port: ask.asker,
                blob,
            })?;
            Ok(())
        }
        AskKind::Verifying => Ok(()),
    }
}

// Notes the newest ask, where the last one before had another number.
fn note_since(
    alloc: Global,
    puts: &mut Vec<Put>,
    line: u64,
    before: u64,
    agent: &Agent,
) -> Result<(), AllocError>
    ensures { OnOk result (puts.new.items
        ≡ puts.old.items ++ put_since line before agent.now.state.under_way.link) }
{
    if agent.asks() == before {
        return Ok(());
    }
    match agent.newest_ask() {
        Some(ask) => note(alloc, puts, line, ask),
        None => Ok(()),
    }
}

// Takes one step of the agent, and notes what it puts at this line: an event puts one ask at most, and where the number
// of asks rose it is the newest.
fn note_step(
    alloc: Global,
    agent: &mut Agent,
    line: u64,
    moment: Moment,
    event: &Event<'_>,
    puts: &mut Vec<Put>,
) -> Result<(), AllocError>
    requires { Fits (happening event.now) agent.old.state }
    ensures agent { OnOk result
        (agent.new.state ≡ after_event moment agent.old.state (happening event.now)) }
    ensures closes { OnOk result
        (agent.new.closes ≡ closed_at moment agent.old.state (happening event.now)) }
    ensures puts { OnOk result (puts.new.items ≡ puts.old.items
        ++ puts_by line (step agent.old.state moment (happening event.now)).actions) }
{
    let before = agent.asks();
    agent.step(moment, event)?;
    note_since(alloc, puts, line, before, agent)
}

impl Watch for Noting {
    ghost Note = { Put };

    ghost notes_of = { puts_in };

    ghost notes = { λ noting. noting.puts.items };

    fn step(
        &mut self,
        alloc: Global,
        agent: &mut Agent,
        line: u64,
        moment: Moment,
        event: &Event<'_>,
    ) -> Result<(), AllocError> {
        note_step(alloc, agent, line, moment, event, &mut self.puts)
    }

    fn refuse(&mut self, _line: u64, _fault: LineFault) -> Result<(), AllocError> {
        Ok(())
    }
}
