//! The agent as the loop sees it.

ghost use Rattle.std.specs.Prelude.{◌≡◌, List, OnOk, ℕ};
ghost use Rattle.agent_model.specs.Sound.{IsRising};
ghost use Rattle.agent_model.specs.State.{Fits, State, client_count, is_open, next_due, owed_of, starts, wants};
ghost use Rattle.agent_model.specs.Step.{step};
ghost use Rattle.agent_core.specs.Happenings.{happening};
ghost use Rattle.agent_core.specs.Parts.{IsSpared};
ghost use Rattle.lists.specs.Rising.{IsRisingList};

use agent_core::{Agent, Event};
use std::alloc::AllocError;
use world_ports::{Job, Moment};

/// An agent that is told one event at a time, and tells what it owes to whom. The loop is proved over any such
/// agent, by the steps of the abstract one alone.
pub trait Core {
    /// The state of the abstract agent.
    ghost state: { Self → State };

    /// The ports that the last event closed, rising.
    ghost closes: { Self → List ℕ };

    /// The ports that the last event touched, rising.
    ghost touched: { Self → List ℕ };

    /// Takes one event at a moment. A port that it neither closed nor touched is found as it was before, and is owed
    /// what it was owed. Where memory runs out the agent can only be dropped.
    fn step(&mut self, moment: Moment, event: &Event<'_>) -> Result<(), AllocError>
        requires { Fits (happening event.now) (state self.old) }
        ensures stepped { OnOk result
            (state self.new ≡ (step (state self.old) moment (happening event.now)).state) }
        ensures closed { OnOk result
            (closes self.new ≡ (step (state self.old) moment (happening event.now)).closes) }
        ensures spared { OnOk result (IsSpared (state self.old)
            (record { state = state self.new; closes = closes self.new; touched = touched self.new })) };

    /// What the port is owed: nothing where it isn't open.
    fn owed(&self, port: u64) -> &[u8]
        ensures { result.now ≡ owed_of port (state self.now) };

    /// Whether the port is to be read: not where it isn't open.
    fn wants(&self, port: u64) -> bool
        ensures { result ≡ wants port (state self.now) };

    /// Whether the port is open.
    fn is_port(&self, port: u64) -> bool
        ensures { result ≡ is_open port (state self.now) };

    /// The child processes that wait to be started.
    fn starts(&self) -> &[Job]
        ensures { result.now ≡ starts (state self.now) };

    /// The ports that the last event closed, rising.
    fn closes(&self) -> &[u64]
        ensures { result.now ≡ closes self.now };

    /// The ports that the last event touched, rising.
    fn touched(&self) -> &[u64]
        ensures value { result.now ≡ touched self.now }
        ensures rising { IsRisingList (touched self.now) };

    /// The next second at which something is due, so that a moment brings more than its event: an identity is dead, or
    /// a wait has lasted its limit. `None` where the clock comes to none.
    fn next_due(&self) -> Option<u64>
        ensures { result ≡ next_due (state self.now) };

    /// The greatest second of the monotonic clock so far.
    fn second(&self) -> u64
        ensures { result ≡ (state self.now).moment.mono };

    /// How many clients are connected.
    fn clients(&self) -> usize
        ensures { result ≡ client_count (state self.now).ports };

    /// The number of the last port that joined, 0 where none did.
    fn ports_so_far(&self) -> u64
        ensures last { result ≡ (state self.now).last_port }
        ensures rising { IsRising 0 (state self.now).last_port (state self.now).ports };
}

impl Core for Agent {
    ghost state = { λ agent. agent.state };

    ghost closes = { λ agent. agent.closes };

    ghost touched = { λ agent. agent.touched };

    fn step(&mut self, moment: Moment, event: &Event<'_>) -> Result<(), AllocError> {
        Agent::step(self, moment, event)
    }

    fn owed(&self, port: u64) -> &[u8] {
        Agent::owed(self, port)
    }

    fn wants(&self, port: u64) -> bool {
        Agent::wants(self, port)
    }

    fn is_port(&self, port: u64) -> bool {
        Agent::is_port(self, port)
    }

    fn starts(&self) -> &[Job] {
        Agent::starts(self)
    }

    fn closes(&self) -> &[u64] {
        Agent::closes(self)
    }

    fn touched(&self) -> &[u64] {
        Agent::touched(self)
    }

    fn next_due(&self) -> Option<u64> {
        Agent::next_due(self)
    }

    fn second(&self) -> u64 {
        Agent::second(self)
    }

    fn clients(&self) -> usize {
        Agent::clients(self)
    }

    fn ports_so_far(&self) -> u64 {
        Agent::ports_so_far(self)
    }
}
