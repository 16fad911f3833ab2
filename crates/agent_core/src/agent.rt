//! The agent.

ghost use Rattle.std.specs.Prelude.{◌≡◌, ◌↔◌, IsOk, IsSome, IsTrue, OnErr, OnOk, length};
ghost use Rattle.std.specs.Option.{option_copied};
ghost use Rattle.helper_link.specs.HelperLink.{newest};
ghost use Rattle.identity_table.specs.Identities.{IsSound};
ghost use Rattle.agent_model.specs.Actions.{stepped};
ghost use Rattle.agent_model.specs.Sound.{IsSteady};
ghost use Rattle.agent_model.specs.State.{Fits, client_count, find_port, next_due, next_owed, owed_of, starts, wants};
ghost use Rattle.agent_model.specs.Step.{step};
ghost use Rattle.agent_model.specs.Time.{at_moment};
ghost use Rattle.agent_core.specs.Bound.{WantsNoMemory};
ghost use Rattle.agent_core.specs.Happenings.{happening};
ghost use Rattle.agent_core.specs.Owing.{is_client_at};
ghost use Rattle.agent_core.specs.Parts.{IsSpared, opening, settings_in, settings_of, stepped_of};
ghost use Rattle.lists.specs.Rising.{IsRisingList};
ghost use Rattle.under_way.specs.Times.{limits_of};

use crate::keys::Keys;
use crate::parts::Parts;
use crate::ports::Ports;
use crate::{Event, Settings};
use helper_link::Ask;
use std::alloc::{AllocError, Global};
use std::marker::Model;
use under_way::{TimeLimits, UnderWay};
use world_ports::{Job, Moment};

/// An SSH agent without its outside: it is told what happens, and tells what is owed to whom.
///
/// Ports are numbered from 1 in the order in which they join, and no number is used again. A step that ran out of
/// memory leaves an agent that can only be dropped.
#[derive(Drop)]
pub struct Agent {
    alloc: Global,
    settings: Settings,
    parts: Parts,
    // The first second at which something ends by itself: each step brings it up to date.
    due: Option<u64>,
}

impl Model for Agent {
    ghost use Rattle.agent_core.specs.Bound.{IsCurrent};
    ghost use Rattle.agent_core.specs.Parts.{Moved, settings_of};

    ghost Value = { Moved };

    ghost view = { λ a. a.parts };

    ghost invariant = { λ a. IsCurrent (settings_of a.settings) a.due a.parts.state };
}

impl Agent {
    /// An agent that holds nothing and to which nobody is connected. Takes no memory.
    pub fn new(alloc: Global, settings: Settings) -> Agent
        ensures { result ≡ opening (settings_of settings) }
    {
        Agent {
            alloc,
            settings,
            parts: Parts {
                wall: 0,
                keys: Keys::new(alloc, settings.default_life),
                under_way: UnderWay::new(alloc, limits_of(settings)),
                ports: Ports::new(alloc),
            },
            due: None,
        }
    }

    /// Whether the event may come now: the port that it names is open, a piece isn't empty, a port takes at least one
    /// byte and no more than it is owed, and the job that it names waits to be started.
    pub fn fits(&self, event: &Event<'_>) -> bool
        ensures { IsTrue result ↔ Fits (happening event.now) self.now.state }
    {
        match *event {
            Event::Joined(_) => self.parts.ports.last() < u64::MAX,
            Event::Heard { port, piece } => self.parts.ports.is_open(port) && !piece.is_empty(),
            Event::Ended { port } => self.parts.ports.is_open(port),
            Event::Took { port, count } => count > 0 && count <= self.parts.owed(port).len(),
            Event::Started { job, .. } | Event::StartFailed { job } => self
                .parts
                .under_way
                .is_to_start(job),
            Event::Tick => true,
        }
    }

    /// Takes one event at a moment. The monotonic clock counts as never falling, and the wall clock as it is given.
    /// First the identities whose lifetime has run out leave, a helper that hasn't answered in time is lost, and what
    /// the user hasn't answered in time is refused. Where that closed the port that the event names, nothing more follows.
    ///
    /// Where memory runs out, all that was held and owed is wiped, and the agent is as a new one: the run is over,
    /// and it is to be dropped.
    pub fn step(&mut self, moment: Moment, event: &Event<'_>) -> Result<(), AllocError>
        requires { Fits (happening event.now) self.old.state }
        ensures stepped { OnOk result
            (stepped_of self.new ≡ stepped (step self.old.state moment (happening event.now))) }
        ensures spared { OnOk result (IsSpared self.old.state self.new) }
        ensures succeeds { WantsNoMemory (at_moment moment self.old.state) (happening event.now) → IsOk result }
        ensures wiped { OnErr result (self.new ≡ opening (settings_in self.old.state)) }
    {
        let Ok(moved) = self.parts.take(moment, event, self.due) else {
            *self = Agent::new(self.alloc, self.settings);
            return Err(AllocError);
        };
        self.due = self.parts.next_due(moved, self.due);
        Ok(())
    }

    /// What the port is owed: nothing where it isn't open.
    #[inline(always)] // the loop asks it of each thing that it sets in its place
    pub fn owed(&self, port: u64) -> &[u8]
        ensures { result.now ≡ owed_of port self.now.state }
    {
        self.parts.owed(port)
    }

    /// The open port of the least number above `after` that is owed bytes.
    pub fn next_owed(&self, after: u64) -> Option<u64>
        ensures next { result ≡ next_owed after self.now.state }
        ensures steady { IsSteady self.now.state }
    {
        self.parts.next_owed(after)
    }

    /// Whether the port is to be read: not where it isn't open, and not while a request of it waits to be taken.
    #[inline(always)]
    pub fn wants(&self, port: u64) -> bool
        ensures { result ≡ wants port self.now.state }
    {
        self.parts.ports.wants(port)
    }

    /// Whether the port is open.
    #[inline(always)]
    pub fn is_port(&self, port: u64) -> bool
        ensures { IsTrue result ↔ IsSome (find_port port self.now.state.ports) }
    {
        self.parts.ports.is_open(port)
    }

    /// Whether the port is open and a client's.
    #[inline(always)]
    pub fn is_client(&self, port: u64) -> bool
        ensures value { result ≡ is_client_at (find_port port self.now.state.ports) }
        ensures steady { IsSteady self.now.state }
    {
        self.parts.ports.is_client(port)
    }

    /// The child processes that wait to be started.
    pub fn starts(&self) -> &[Job]
        ensures { result.now ≡ starts self.now.state }
    {
        self.parts.under_way.starts()
    }

    /// The ports that the last step closed, rising.
    pub fn closes(&self) -> &[u64]
        ensures { result.now ≡ self.now.closes }
    {
        self.parts.ports.closed()
    }

    /// The ports that the last step touched, rising: any other that it didn't close is as it was before it.
    pub fn touched(&self) -> &[u64]
        ensures value { result.now ≡ self.now.touched }
        ensures rising { IsRisingList self.now.touched }
    {
        self.parts.ports.touched()
    }

    /// The first second from which an identity is dead, or something has been waited for as long as it may be: `None`
    /// where the clock comes to none.
    pub fn next_due(&self) -> Option<u64>
        ensures { result ≡ next_due self.now.state }
    {
        self.due
    }

    /// The greatest second of the monotonic clock so far, 0 before the first event.
    pub fn second(&self) -> u64
        ensures { result ≡ self.now.state.moment.mono }
    {
        self.parts.keys.second()
    }

    /// How many identities are held. Each has its own blob and its own number, one message lists them all, and no
    /// private string is longer than a message.
    pub fn held(&self) -> usize
        ensures value { result ≡ length self.now.state.held.table.identities }
        ensures sound { IsSound self.now.state.held.table.identities self.now.state.held.table.last }
    {
        self.parts.keys.len()
    }

    /// How many clients are connected.
    pub fn clients(&self) -> usize
        ensures { result ≡ client_count self.now.state.ports }
    {
        self.parts.ports.clients()
    }

    /// How often the helper was lost: it stays at 2^64 - 1.
    pub fn link_faults(&self) -> u64
        ensures { result ≡ self.now.state.under_way.link.faults }
    {
        self.parts.under_way.link_faults()
    }

    /// How many asks were put to a helper so far, which is the number of the last one.
    pub fn asks(&self) -> u64
        ensures { result ≡ self.now.state.under_way.link.last }
    {
        self.parts.under_way.asks()
    }

    /// The ask that was put last of those that are unanswered.
    pub fn newest_ask(&self) -> Option<&Ask>
        ensures { option_copied result ≡ newest self.now.state.under_way.link.asks }
    {
        self.parts.under_way.newest_ask()
    }

    /// The number of the last port that joined, 0 where none did.
    pub fn ports_so_far(&self) -> u64
        ensures value { result ≡ self.now.state.last_port }
        ensures steady { IsSteady self.now.state }
    {
        self.parts.ports.last()
    }
}

// How long the settings let wait.
fn limits_of(settings: Settings) -> TimeLimits
    ensures { limits_of result ≡ (settings_of settings).limits }
{
    TimeLimits {
        ask: settings.ask_limit,
        confirmation: settings.confirm_limit,
    }
}
