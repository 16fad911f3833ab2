//! Both connections of a pair in memory: the client's and the one upstream.

ghost use Rattle.std.specs.Prelude.{◌≡◌};
ghost use Rattle.pair_script.specs.Ends.{new_ends, side_of};
ghost use Rattle.world_ports.specs.Script.{new_pipe};

use crate::pipe::Pipe;
use pair_ports::Side;
use std::alloc::Global;
use std::marker::Model;

#[derive(Drop)]
pub struct Ends {
    client: Pipe,
    upstream: Pipe,
}

impl Model for Ends {
    ghost use Rattle.pair_script.specs.Ends.{EndsState};

    ghost Value = { EndsState };

    ghost view = { λ e. record { client = e.client; upstream = e.upstream } };
}

impl Ends {
    pub fn new(alloc: Global) -> Self
        ensures { result ≡ new_ends }
    {
        Ends {
            client: Pipe::new(alloc),
            upstream: Pipe::new(alloc),
        }
    }

    // Another connection to the agent behind begins.
    pub fn renew(&mut self, alloc: Global)
        ensures { self.new ≡ record self.old { upstream = new_pipe } }
    {
        self.upstream = Pipe::new(alloc);
    }

    pub fn at(&self, side: Side) -> &Pipe
        ensures { result.now ≡ side_of side self.now }
    {
        match side {
            Side::Client => &self.client,
            Side::Upstream => &self.upstream,
        }
    }

    pub fn at_mut(&mut self, side: Side) -> &mut Pipe {
        match side {
            Side::Client => &mut self.client,
            Side::Upstream => &mut self.upstream,
        }
    }
}
