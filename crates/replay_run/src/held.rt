//! The ports that take bytes only by `take`.

ghost use Rattle.std.specs.Prelude.{◌≡◌, OnOk, []};
ghost use Rattle.replay_run.specs.Holding.{free_port, hold_port, is_held};

use std::alloc::{AllocError, Global};
use std::collections::BTreeSet;
use std::marker::Model;

/// The held ports. One that closes stays, since no number is used again.
#[derive(Drop)]
pub struct Held {
    ports: BTreeSet<u64>,
}

impl Model for Held {
    ghost use Rattle.std.specs.Prelude.{List, ℕ};

    ghost Value = { List ℕ };

    ghost view = { λ held. held.ports.keys };
}

impl Held {
    pub fn new(alloc: Global) -> Self
        ensures { result ≡ [] }
    {
        Held {
            ports: BTreeSet::new(alloc),
        }
    }

    pub fn has(&self, port: u64) -> bool
        ensures { result ≡ is_held port self.now }
    {
        self.ports.contains(&port)
    }

    pub fn hold(&mut self, port: u64) -> Result<(), AllocError>
        ensures { OnOk result (self.new ≡ hold_port port self.old) }
    {
        self.ports.insert(port)?;
        Ok(())
    }

    pub fn free(&mut self, port: u64)
        ensures { self.new ≡ free_port port self.old }
    {
        self.ports.remove(&port);
    }
}
