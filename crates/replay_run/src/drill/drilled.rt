//! A drill: requests that are drawn, and an agent that takes them.

ghost use Rattle.std.specs.Prelude.{◌≡◌, ◌↔◌, ◌+◌, ◌-◌, ◌∷◌, ◌<◌, ◌≤◌, ◌^◌, [], IfOk, IsSome, IsTrue, OnOk, is_some, length};
ghost use Rattle.agent_core.specs.Happenings.{happening};
ghost use Rattle.agent_core.specs.Owing.{is_client_at};
ghost use Rattle.agent_model.specs.Events.{Took};
ghost use Rattle.agent_model.specs.Runs.{last_after};
ghost use Rattle.agent_model.specs.Sound.{IsSteady};
ghost use Rattle.agent_model.specs.State.{Fits, find_port, find_to_start, next_owed, owed_of, starts};
ghost use Rattle.replay_run.specs.Draws.{draws_of};
ghost use Rattle.replay_run.specs.Drill.{drawn_asking, drilled, heard, helped, joined, lined, round_of, signed, start_drill, summary, summary_of};
ghost use Rattle.replay_run.specs.DrillClaims.{left_at};
ghost use Rattle.replay_run.specs.Drilling.{Keeps, TakesNothing, kept, kept_after, noted};
ghost use Rattle.replay_run.specs.Finishing.{state_left};
ghost use Rattle.replay_run.specs.Settling.{after_event, at_moment, takings};

use crate::RunEnd;
use crate::drill::asking::{put_asking, put_hello, put_signed};
use crate::drill::counts::{Counts, last_ask_in};
use crate::drill::draws::Draws;
use crate::drill::texts::put_told;
use crate::watch::is_among;
use agent_core::{Agent, Event, Settings};
use std::alloc::{AllocError, Global};
use std::marker::Model;
use wire_core::put_string;
use world_ports::{Door, Moment};

/// The numbers of clients, keys and kinds of requests.
const CLIENTS: u64 = 8;

const KEYS: u64 = 64;

const KINDS: u64 = 8;

/// The port of the helper, behind the clients.
const HELPER_PORT: u64 = 9;

/// The agent, what clients took of it, the ask that the helper hasn't answered, and the last number drawn.
#[derive(Drop)]
pub struct Drill {
    alloc: Global,
    agent: Agent,
    counts: Counts,
    ask: Option<u64>,
    draws: Draws,
}

impl Model for Drill {
    ghost use Rattle.replay_run.specs.Drilling.{Kept};

    ghost Value = { Kept };

    ghost view = { λ d. record {
      agent = d.agent.state;
      counts = d.counts;
      ask = d.ask;
      number = d.draws.number;
    } };
}

impl Drill {
    pub fn new(alloc: Global, seed: u64) -> Self
        ensures { result ≡ kept (start_drill seed) }
    {
        let settings = Settings {
            default_life: None,
            ask_limit: None,
            confirm_limit: None,
        };
        Drill {
            alloc,
            agent: Agent::new(alloc, settings),
            counts: Counts::new(),
            ask: None,
            draws: Draws { number: seed },
        }
    }

    // The open port of the least number that is owed bytes.
    fn next_owed(&self) -> Option<u64>
        ensures next { result ≡ next_owed 0 self.now.agent }
        ensures steady { IsSteady self.now.agent }
    {
        self.agent.next_owed(0)
    }

    // How many bytes a port is owed.
    fn owed_len(&self, port: u64) -> usize
        ensures { result ≡ length (owed_of port self.now.agent) }
    {
        self.agent.owed(port).len()
    }

    fn is_open(&self, port: u64) -> bool
        ensures { IsTrue result ↔ IsSome (find_port port self.now.agent.ports) }
    {
        self.agent.is_port(port)
    }

    // Whether job 1 waits to be started.
    fn wants_helper(&self) -> bool
        ensures { result ≡ is_some (find_to_start 1 (starts self.now.agent)) }
    {
        is_among(self.agent.starts(), 1)
    }

    // Notes what a port is about to take: replies of a client, asks of a child process.
    #[tactic(auto, unfolding(crate::specs::Drilling::noted))]
    fn note(&mut self, port: u64) -> Result<(), AllocError>
        ensures noted { OnOk result
            (self.new ≡ noted (is_client_at (find_port port self.old.agent.ports))
            (owed_of port self.old.agent) self.old) }
        ensures kept { self.new.agent ≡ self.old.agent }
    {
        let bytes = self.agent.owed(port);
        if self.agent.is_client(port) {
            return self.counts.count_replies(bytes);
        }
        self.ask = last_ask_in(bytes, self.ask);
        Ok(())
    }

    // The agent takes a step.
    fn step(&mut self, moment: Moment, event: &Event<'_>) -> Result<(), AllocError>
        requires { Fits (happening event.now) self.old.agent }
        ensures { OnOk result (self.new ≡ record self.old {
          agent = after_event moment self.old.agent (happening event.now);
        }) }
    {
        self.agent.step(moment, event)
    }

    // The port takes all that it is owed.
    fn take(&mut self, moment: Moment, port: u64) -> Result<(), AllocError>
        requires { 0 < length (owed_of port self.old.agent) }
        ensures { OnOk result (self.new ≡ kept_after
            (at_moment moment (Took port (length (owed_of port self.old.agent))) ∷ []) self.old) }
    {
        let count = self.owed_len(port);
        self.note(port)?;
        self.step(moment, &Event::Took { port, count })?;
        Ok(())
    }

    // Every port takes what it is owed, the least number first.
    fn settle(&mut self, moment: Moment) -> Result<(), AllocError>
        ensures { OnOk result (self.new ≡ kept_after (takings moment [] self.old.agent) self.old) }
    {
        'takings: while let Some(port) = self.next_owed() {
            self.take(moment, port)?;
        }
        Ok(())
    }

    // A line's event, and the settling after it.
    fn line(&mut self, moment: Moment, event: &Event<'_>) -> Result<(), AllocError>
        requires fits { Fits (happening event.now) self.old.agent }
        requires quiet { TakesNothing (happening event.now) }
        ensures line { OnOk result (Keeps (lined moment (happening event.now)) self.old self.new) }
        ensures ports { OnOk result
            (self.new.agent.last_port ≡ last_after (happening event.now) self.old.agent.last_port) }
    {
        self.step(moment, event)?;
        self.settle(moment)?;
        Ok(())
    }

    // The frame of this body comes from a port, where that is open.
    fn hear(&mut self, moment: Moment, port: u64, body: &[u8]) -> Result<(), AllocError>
        requires { length body.now < 2 ^ 32 }
        ensures heard { OnOk result (Keeps (heard moment port body.now) self.old self.new) }
        ensures ports { OnOk result (self.new.agent.last_port ≡ self.old.agent.last_port) }
    {
        if !self.is_open(port) {
            return Ok(());
        }
        let mut frame = Vec::new(self.alloc);
        put_string(&mut frame, body)?;
        let piece = frame.as_slice();
        self.line(moment, &Event::Heard { port, piece })?;
        Ok(())
    }

    // The helper is started, joins and says hello, where the agent wants one.
    fn help(&mut self, moment: Moment) -> Result<(), AllocError>
        requires { self.old.agent.last_port < 2 ^ 64 - 1 }
        ensures { OnOk result (Keeps (helped moment) self.old self.new) }
    {
        if !self.wants_helper() {
            return Ok(());
        }
        let started = Event::Started {
            job: 1,
            ticket: [0; 16],
        };
        self.line(moment, &started)?;
        self.line(moment, &Event::Joined(Door::Children))?;
        let mut hello = Vec::new(self.alloc);
        put_hello(&mut hello)?;
        self.hear(moment, HELPER_PORT, &hello)?;
        Ok(())
    }

    // The helper signs, where it was asked.
    fn sign(&mut self, moment: Moment, round: u64) -> Result<(), AllocError>
        ensures { OnOk result (Keeps (signed moment round) self.old self.new) }
    {
        let Some(ask) = self.ask.take() else {
            return Ok(());
        };
        let mut body = Vec::new(self.alloc);
        put_signed(self.alloc, &mut body, ask, round)?;
        self.hear(moment, HELPER_PORT, &body)?;
        Ok(())
    }

    // Draws the request of a round: who asks, and its body.
    fn draw(&mut self, round: u64) -> Result<(u64, Vec<u8>), AllocError>
        ensures client { IfOk result (λ drawn. drawn.0 ≡ 1 + (draws_of 8 64 8 self.old.number).one) }
        ensures body { IfOk result (λ drawn. drawn.1.items
            ≡ (drawn_asking round (draws_of 8 64 8 self.old.number)).body) }
        ensures drill { OnOk result (self.new ≡ record self.old {
          number = (drawn_asking round (draws_of 8 64 8 self.old.number)).number;
        }) }
    {
        let (client, key, kind) = self.draws.three(CLIENTS, KEYS, KINDS);
        let mut body = Vec::new(self.alloc);
        put_asking(
            self.alloc,
            &mut body,
            kind,
            key as u8,
            round,
            &mut self.draws,
        )?;
        Ok((1 + client, body))
    }

    // A client asks for something, and all that comes of it happens.
    fn round(&mut self, round: u64) -> Result<(), AllocError>
        requires { self.old.agent.last_port < 2 ^ 64 - 1 }
        ensures { OnOk result (Keeps (round_of round) self.old self.new) }
    {
        let moment = Moment {
            mono: round,
            wall: 0,
        };
        self.line(moment, &Event::Tick)?;
        let (client, body) = self.draw(round)?;
        self.hear(moment, client, &body)?;
        self.help(moment)?;
        self.sign(moment, round)?;
        Ok(())
    }

    // The clients join, and so many rounds follow.
    fn run(&mut self, rounds: u32) -> Result<(), AllocError>
        requires few { rounds ≤ 100000 }
        requires start { self.old ≡ kept (start_drill self.old.number) }
        ensures { OnOk result (self.new ≡ kept (drilled rounds self.old.number)) }
    {
        self.join_clients()?;
        'rounds: for round in 0..rounds {
            self.round(u64::from(round) + 1)?;
        }
        Ok(())
    }

    fn join_clients(&mut self) -> Result<(), AllocError>
        requires { self.old ≡ kept (start_drill self.old.number) }
        ensures { OnOk result (self.new ≡ kept (joined 8 (start_drill self.old.number))) }
    {
        let start = Moment { mono: 0, wall: 0 };
        'clients: for _client in 0..CLIENTS {
            self.line(start, &Event::Joined(Door::Clients))?;
        }
        Ok(())
    }

    // The line that sums up these rounds.
    #[tactic(auto, unfolding(crate::specs::Drill::summary_of))]
    fn summary(&self, rounds: u32, seed: u64) -> Result<Vec<u8>, AllocError>
        ensures { IfOk result (λ text. text.items ≡ summary_of rounds seed self.now.counts
            (length self.now.agent.held.table.identities)) }
    {
        let mut text = Vec::new(self.alloc);
        put_told(&mut text, b"drill ", u64::from(rounds))?;
        put_told(&mut text, b" ", seed)?;
        put_told(&mut text, b": requests ", u64::from(rounds))?;
        put_told(&mut text, b", successes ", self.counts.successes)?;
        put_told(&mut text, b", failures ", self.counts.failures)?;
        put_told(&mut text, b", lists ", self.counts.lists)?;
        put_told(&mut text, b", signatures ", self.counts.signatures)?;
        put_told(&mut text, b", held ", self.agent.held() as u64)?;
        text.extend_from_slice(b"\n")?;
        Ok(text)
    }

    /// Runs so many rounds of this seed, and sums them up.
    pub fn run_to_summary(&mut self, rounds: u32, seed: u64) -> Result<Vec<u8>, AllocError>
        requires few { rounds ≤ 100000 }
        requires start { self.old ≡ kept (start_drill seed) }
        ensures run { OnOk result (self.new ≡ kept (drilled rounds seed)) }
        ensures text { IfOk result (λ text. text.items ≡ summary rounds seed) }
    {
        self.run(rounds)?;
        Ok(self.summary(rounds, seed)?)
    }

    /// The agent, where the drill was run to its end.
    pub fn into_agent(self, end: RunEnd) -> Option<Agent>
        ensures { state_left result ≡ left_at end self.agent }
    {
        match end {
            RunEnd::Done => {
                let Drill { agent, .. } = self;
                Some(agent)
            }
            RunEnd::Refused { .. } | RunEnd::Memory | RunEnd::ReadFault | RunEnd::WriteFault =>
                None,
        }
    }
}
