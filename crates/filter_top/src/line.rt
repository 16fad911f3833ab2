//! The queue of what is ready: what was served goes to the back, so that all get their turn.

ghost use Rattle.std.specs.Prelude.{◌≡◌, [], OnOk};
ghost use Rattle.filter_model.specs.declared.thing.Thing.TheVariants.{Accept, Write};
ghost use Rattle.pair_ports.specs.declared.side.Side.TheVariants.{Upstream};
ghost use Rattle.filter_model.specs.Lines.{dropped, first_servable, queued, queued_all, queued_by, queued_if, queued_pair, sent_back, without_pair};

use crate::things::{can_serve, has_thing, is_of, is_same};
use filter_core::Filter;
use filter_model::Thing;
use pair_ports::{PairReady, Side};
use std::alloc::{AllocError, Global};
use std::marker::Model;

/// What is ready, until a call found otherwise. What is served goes to the back while it is ready, so that nothing
/// waits for ever behind another.
#[derive(Drop)]
pub struct Line {
    things: Vec<Thing>,
}

impl Model for Line {
    ghost use Rattle.std.specs.Prelude.{List};
    ghost use Rattle.filter_model.specs.declared.thing.Thing.{Thing};

    ghost Value = { List Thing };

    ghost view = { λ line. line.things.items };
}

impl Line {
    // Takes no memory.
    pub fn new(alloc: Global) -> Line
        ensures { result ≡ [] }
    {
        Line {
            things: Vec::new(alloc),
        }
    }

    // The first thing that can be served.
    pub fn first(&self, filter: &Filter) -> Option<Thing>
        ensures { result ≡ first_servable filter.now self.now }
    {
        'things: for thing in &self.things {
            if can_serve(filter, *thing) {
                return Some(*thing);
            }
        }
        None
    }

    // The thing isn't ready any more.
    pub fn remove(&mut self, thing: Thing)
        ensures { self.new ≡ dropped thing self.old }
    {
        self.things.retain(|other| !is_same(thing, *other));
    }

    // The thing was served, and is still ready: it goes behind all others.
    pub fn send_back(&mut self, thing: Thing) -> Result<(), AllocError>
        ensures { OnOk result (self.new ≡ sent_back thing self.old) }
    {
        self.remove(thing);
        self.things.push(thing)?;
        Ok(())
    }

    // A client was accepted at the door, which goes behind all of its pair.
    pub fn accept(&mut self, pair: u64) -> Result<(), AllocError>
        ensures { OnOk result (self.new ≡ sent_back Accept (queued_pair pair self.old)) }
    {
        self.add(Thing::Read(pair, Side::Client))?;
        self.add(Thing::Write(pair, Side::Client))?;
        self.add(Thing::Write(pair, Side::Upstream))?;
        self.send_back(Thing::Accept)
    }

    // A pair's connection to the agent behind was given back: it may have another one.
    pub fn part(&mut self, pair: u64) -> Result<(), AllocError>
        ensures { OnOk result (self.new ≡ queued (Write pair Upstream) self.old) }
    {
        self.add(Thing::Write(pair, Side::Upstream))
    }

    // A pair was closed.
    pub fn close(&mut self, pair: u64)
        ensures { self.new ≡ without_pair pair self.old }
    {
        self.things.retain(|thing| !is_of(*thing, pair));
    }

    // A poll told of these.
    pub fn add_all(&mut self, filter: &Filter, items: &[PairReady]) -> Result<(), AllocError>
        ensures { OnOk result (self.new ≡ queued_all filter.now items.now self.old) }
    {
        'items: for item in items {
            self.add_item(filter, *item)?;
        }
        Ok(())
    }

    // A poll told of this.
    fn add_item(&mut self, filter: &Filter, item: PairReady) -> Result<(), AllocError>
        ensures { OnOk result (self.new
            ≡ queued_by filter.now item.pair item.side item.readable item.writable self.old) }
    {
        let Some(pair) = item.pair else {
            return self.add_if(item.readable, Thing::Accept);
        };
        let is_open = filter.is_open(pair);
        self.add_if(item.readable && is_open, Thing::Read(pair, item.side))?;
        self.add_if(item.writable && is_open, Thing::Write(pair, item.side))
    }

    // The thing is ready, where the test holds.
    fn add_if(&mut self, is_ready: bool, thing: Thing) -> Result<(), AllocError>
        ensures { OnOk result (self.new ≡ queued_if is_ready thing self.old) }
    {
        if is_ready {
            return self.add(thing);
        }
        Ok(())
    }

    // The thing is ready.
    fn add(&mut self, thing: Thing) -> Result<(), AllocError>
        ensures { OnOk result (self.new ≡ queued thing self.old) }
    {
        if !has_thing(&self.things, thing) {
            self.things.push(thing)?;
        }
        Ok(())
    }
}
