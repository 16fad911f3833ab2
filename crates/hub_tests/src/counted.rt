//! An agent that counts what it is asked.

ghost use Rattle.std.specs.Prelude.{◌≡◌};
ghost use Rattle.agent_model.specs.State.{first_state, no_settings};

use crate::scripts::NO_SETTINGS;
use agent_core::{Agent, Event};
use ready_loop::Core;
use std::alloc::{AllocError, Global};
use std::cell::Cell;
use world_ports::{Job, Moment};

// An agent, and how often it was asked.
#[derive(Drop)]
pub struct Counted {
    agent: Agent,
    looks: Cell<usize>,
}

impl Counted {
    pub fn new(alloc: Global) -> Counted
        ensures { result.agent.state ≡ first_state no_settings }
    {
        Counted {
            agent: Agent::new(alloc, NO_SETTINGS),
            looks: Cell::new(0),
        }
    }

    // How often it was asked so far.
    pub fn looks(&self) -> usize {
        self.looks.get()
    }

    fn count(&self) {
        self.looks.set(self.looks.get().saturating_add(1));
    }
}

impl Core for Counted {
    ghost state = { λ counted. counted.agent.state };

    ghost closes = { λ counted. counted.agent.closes };

    ghost touched = { λ counted. counted.agent.touched };

    fn step(&mut self, moment: Moment, event: &Event<'_>) -> Result<(), AllocError> {
        self.agent.step(moment, event)
    }

    fn owed(&self, port: u64) -> &[u8] {
        self.count();
        self.agent.owed(port)
    }

    fn wants(&self, port: u64) -> bool {
        self.count();
        self.agent.wants(port)
    }

    fn is_port(&self, port: u64) -> bool {
        self.count();
        self.agent.is_port(port)
    }

    fn starts(&self) -> &[Job] {
        self.count();
        self.agent.starts()
    }

    fn closes(&self) -> &[u64] {
        self.count();
        self.agent.closes()
    }

    fn touched(&self) -> &[u64] {
        self.count();
        self.agent.touched()
    }

    fn next_due(&self) -> Option<u64> {
        self.count();
        self.agent.next_due()
    }

    fn second(&self) -> u64 {
        self.count();
        self.agent.second()
    }

    fn clients(&self) -> usize {
        self.count();
        self.agent.clients()
    }

    fn ports_so_far(&self) -> u64 {
        self.count();
        self.agent.ports_so_far()
    }
}
