//! The calls on pairs in memory: which are to fail, and how many were made and failed.

ghost use Rattle.std.specs.Prelude.{◌≡◌, ◌↔◌, IsErr, is_err};
ghost use Rattle.world_ports.specs.Causes.{HasCause};
ghost use Rattle.world_ports.specs.Memory.{IsNextListed, after_call};

use std::marker::Model;
use world_ports::Fault;

#[derive(Drop)]
pub struct Calls {
    failing: Vec<u64>,
    made: u64,
    failed: u64,
}

impl Model for Calls {
    ghost use Rattle.world_ports.specs.Memory.{CallState};

    ghost Value = { CallState };

    ghost view = { λ c. record { failing = c.failing.items; made = c.made; failed = c.failed } };
}

impl Calls {
    // Takes no memory. The calls with these numbers, from 1, fail.
    pub fn new(failing: Vec<u64>) -> Self
        ensures { result ≡ record { failing = failing.items; made = 0; failed = 0 } }
    {
        Calls {
            failing,
            made: 0,
            failed: 0,
        }
    }

    // Counts one more call, which fails where it is listed.
    pub fn begin(&mut self) -> Result<(), Fault>
        ensures fails { IsErr result ↔ IsNextListed self.old }
        ensures cause { HasCause self.old.failed self.new.failed result }
        ensures value { self.new ≡ after_call (is_err result) self.old }
    {
        self.made = self.made.saturating_add(1);
        if self.failing.contains(&self.made) {
            self.failed = self.failed.saturating_add(1);
            return Err(Fault);
        }
        Ok(())
    }
}
