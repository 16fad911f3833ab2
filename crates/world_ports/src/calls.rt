//! A count of the calls on a source or a sink in memory, some of which are made to fail.

ghost use Rattle.std.specs.Prelude.{◌≡◌, ◌↔◌, ◌⊎◌, IsErr, IsTrue, is_err};
ghost use Rattle.world_ports.specs.Causes.{HasCause};
ghost use Rattle.world_ports.specs.Memory.{CallState, IsNextListed, after_call};

use crate::Fault;
use std::marker::Model;

#[derive(Drop)]
pub struct Calls {
    failing: Vec<u64>,
    made: u64,
    failed: u64,
}

impl Model for Calls {
    ghost Value = { CallState };

    ghost view = { λ c. record { failing = c.failing.items; made = c.made; failed = c.failed } };
}

impl Calls {
    pub fn new(failing: Vec<u64>) -> Self
        ensures { result ≡ record { failing = failing.items; made = 0; failed = 0 } }
    {
        Calls {
            failing,
            made: 0,
            failed: 0,
        }
    }

    // Counts one more call, which fails where it is listed or refused.
    pub fn begin(&mut self, refused: bool) -> Result<(), Fault>
        ensures fails { IsErr result ↔ (IsNextListed self.old ⊎ IsTrue refused) }
        ensures cause { HasCause self.old.failed self.new.failed result }
        ensures value { self.new ≡ after_call (is_err result) self.old }
    {
        self.made = self.made.saturating_add(1);
        if refused || self.failing.contains(&self.made) {
            self.failed = self.failed.saturating_add(1);
            return Err(Fault);
        }
        Ok(())
    }
}
