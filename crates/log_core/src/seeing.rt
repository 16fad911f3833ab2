//! What is seen of the events of a record: bytes of clients, and what came of each event.

ghost use Rattle.std.specs.Prelude.{◌≡◌, ◌++◌, IfOk, OnOk, [], map};
ghost use Rattle.agent_core.specs.Happenings.{happening};
ghost use Rattle.agent_model.specs.State.{Fits, find_port};
ghost use Rattle.agent_model.specs.Step.{step};
ghost use Rattle.log_book.specs.declared.sight.Sight.{Sight};
ghost use Rattle.log_book.specs.declared.sight.What.TheVariants as what;
ghost use Rattle.log_core.specs.Logs.{sights_in};
ghost use Rattle.log_core.specs.Seeing.{put_ports, raised_ports};
ghost use Rattle.log_laws.specs.Raised.{port_of};
ghost use Rattle.log_laws.specs.Sights.{closed_sight, event_sights, goes_over, is_of_client, of_client, put_sight, raised_sight, seen_at};
ghost use Rattle.replay_run.specs.Settling.{after_event, at_moment, closed_at};

use agent_core::{Agent, Event};
use helper_link::AskKind;
use log_book::{Sight, What};
use plain_lists::Bytes;
use replay_run::Watch;
use schedule_text::LineFault;
use std::alloc::{AllocError, Global};
use world_ports::{JobKind, Moment};

/// Sees what the lines of a record tell: bytes of clients, and what came of each event.
#[derive(Drop)]
pub struct Seeing {
    pub sights: Vec<Sight>,
}

impl Seeing {
    pub fn new(alloc: Global) -> Self
        ensures { result.sights.items ≡ [] }
    {
        Seeing {
            sights: Vec::new(alloc),
        }
    }
}

// A copy of bytes.
fn copied(alloc: Global, bytes: &[u8]) -> Result<Bytes, AllocError>
    ensures { IfOk result (λ copy. copy ≡ bytes.now) }
{
    Ok(Bytes::from_vec(Vec::from_slice(alloc, bytes)?))
}

// The port that an event is of, 0 where it is of none.
fn port_of(event: &Event<'_>) -> u64
    ensures { result ≡ port_of (happening event.now) }
{
    match *event {
        Event::Heard { port, .. } | Event::Ended { port } | Event::Took { port, .. } => port,
        Event::Joined(_) | Event::Started { .. } | Event::StartFailed { .. } | Event::Tick => 0,
    }
}

// Sees a piece that somebody sent, where that is a client.
fn see_sent(
    alloc: Global,
    agent: &Agent,
    wall: u64,
    port: u64,
    piece: &[u8],
    sights: &mut Vec<Sight>,
) -> Result<(), AllocError>
    ensures { OnOk result (sights.new.items ≡ sights.old.items
        ++ of_client (is_of_client (find_port port agent.now.state.ports))
        (seen_at wall agent.now.state.under_way.link.faults (what.Sent port piece.now))) }
{
    if !agent.is_client(port) {
        return Ok(());
    }
    let piece = copied(alloc, piece)?;
    sights.push(Sight {
        wall,
        faults: agent.link_faults(),
        what: What::Sent { port, piece },
    })?;
    Ok(())
}

// Sees bytes that somebody took, where that is a client.
fn see_given(
    alloc: Global,
    agent: &Agent,
    wall: u64,
    port: u64,
    bytes: &[u8],
    sights: &mut Vec<Sight>,
) -> Result<(), AllocError>
    ensures { OnOk result (sights.new.items ≡ sights.old.items
        ++ of_client (is_of_client (find_port port agent.now.state.ports))
        (seen_at wall agent.now.state.under_way.link.faults (what.Given port bytes.now))) }
{
    if !agent.is_client(port) {
        return Ok(());
    }
    let bytes = copied(alloc, bytes)?;
    sights.push(Sight {
        wall,
        faults: agent.link_faults(),
        what: What::Given { port, bytes },
    })?;
    Ok(())
}

// Sees the bytes that go over a client's socket with an event.
fn see_bytes(
    alloc: Global,
    agent: &Agent,
    moment: Moment,
    event: &Event<'_>,
    sights: &mut Vec<Sight>,
) -> Result<(), AllocError>
    requires { Fits (happening event.now) agent.now.state }
    ensures { OnOk result (sights.new.items ≡ sights.old.items
        ++ goes_over moment agent.now.state (happening event.now)) }
{
    match *event {
        Event::Heard { port, piece } => see_sent(alloc, agent, moment.wall, port, piece, sights),
        Event::Took { port, count } => {
            let bytes = &agent.owed(port)[..count];
            see_given(alloc, agent, moment.wall, port, bytes, sights)
        }
        Event::Joined(_)
        | Event::Ended { .. }
        | Event::Started { .. }
        | Event::StartFailed { .. }
        | Event::Tick => Ok(()),
    }
}

// Sees that the user is asked about the request of a client, where a job to ask him was begun since so many waited.
fn see_raised(
    agent: &Agent,
    wall: u64,
    event: &Event<'_>,
    before: usize,
    sights: &mut Vec<Sight>,
) -> Result<(), AllocError>
    ensures { OnOk result (sights.new.items ≡ sights.old.items
        ++ map (raised_sight wall agent.now.state.under_way.link.faults)
        (raised_ports (happening event.now) before agent.now.state)) }
{
    let Some(job) = agent.starts().get(before) else {
        return Ok(());
    };
    match job.kind {
        JobKind::Confirm => {
            sights.push(Sight {
                wall,
                faults: agent.link_faults(),
                what: What::Raised {
                    port: port_of(event),
                },
            })?;
            Ok(())
        }
        JobKind::Helper => Ok(()),
    }
}

// Sees that a signing request was put to the helper, where the newest ask is one, and the last ask before had another
// number.
fn see_put(agent: &Agent, wall: u64, before: u64, sights: &mut Vec<Sight>) -> Result<(), AllocError>
    ensures { OnOk result (sights.new.items ≡ sights.old.items
        ++ map (put_sight wall agent.now.state.under_way.link.faults)
        (put_ports before agent.now.state.under_way.link)) }
{
    if agent.asks() == before {
        return Ok(());
    }
    let Some(ask) = agent.newest_ask() else {
        return Ok(());
    };
    match ask.kind {
        AskKind::Signing => {
            sights.push(Sight {
                wall,
                faults: agent.link_faults(),
                what: What::Put { port: ask.asker },
            })?;
            Ok(())
        }
        AskKind::Verifying => Ok(()),
    }
}

// Sees that ports were closed.
fn put_closes(
    closes: &[u64],
    wall: u64,
    faults: u64,
    sights: &mut Vec<Sight>,
) -> Result<(), AllocError>
    ensures { OnOk result (sights.new.items ≡ sights.old.items
        ++ map (closed_sight wall faults) closes.now) }
{
    'closes: for port in closes {
        sights.push(Sight {
            wall,
            faults,
            what: What::Closed { port: *port },
        })?;
    }
    Ok(())
}

// Sees which ports the last step closed.
fn see_closes(agent: &Agent, wall: u64, sights: &mut Vec<Sight>) -> Result<(), AllocError>
    ensures { OnOk result (sights.new.items ≡ sights.old.items
        ++ map (closed_sight wall agent.now.state.under_way.link.faults) agent.now.closes) }
{
    put_closes(agent.closes(), wall, agent.link_faults(), sights)
}

// Takes one step of the agent, and sees what it tells.
fn see_step(
    alloc: Global,
    agent: &mut Agent,
    moment: Moment,
    event: &Event<'_>,
    sights: &mut Vec<Sight>,
) -> Result<(), AllocError>
    requires { Fits (happening event.now) agent.old.state }
    ensures agent { OnOk result
        (agent.new.state ≡ after_event moment agent.old.state (happening event.now)) }
    ensures closes { OnOk result
        (agent.new.closes ≡ closed_at moment agent.old.state (happening event.now)) }
    ensures sights { OnOk result (sights.new.items ≡ sights.old.items
        ++ event_sights agent.old.state (at_moment moment (happening event.now))) }
{
    see_bytes(alloc, agent, moment, event, sights)?;
    let jobs = agent.starts().len();
    let asks = agent.asks();
    agent.step(moment, event)?;
    see_raised(agent, moment.wall, event, jobs, sights)?;
    see_put(agent, moment.wall, asks, sights)?;
    see_closes(agent, moment.wall, sights)
}

impl Watch for Seeing {
    ghost Note = { Sight };

    ghost notes_of = { sights_in };

    ghost notes = { λ seeing. seeing.sights.items };

    fn step(
        &mut self,
        alloc: Global,
        agent: &mut Agent,
        _line: u64,
        moment: Moment,
        event: &Event<'_>,
    ) -> Result<(), AllocError> {
        see_step(alloc, agent, moment, event, &mut self.sights)
    }

    fn refuse(&mut self, _line: u64, _fault: LineFault) -> Result<(), AllocError> {
        Ok(())
    }
}
