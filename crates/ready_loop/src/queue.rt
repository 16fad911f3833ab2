//! What is ready, in the order in which it is served.
//!
//! What an event asks several times is inlined, here and in what stands below: at a call, things and results go through
//! memory, which costs more than what is done with them.

ghost use Rattle.std.specs.Bool.{OnTrue};
ghost use Rattle.std.specs.Prelude.{◌≡◌, ◌&&◌, ◌||◌, ◌==◌, OnOk, Some, false, length, map};
ghost use Rattle.agent_model.specs.State.{is_client};
ghost use Rattle.lists.specs.Rising.{IsRisingList};
ghost use Rattle.loop_model.specs.Aside.{put_aside, things_aside};
ghost use Rattle.loop_model.specs.Elsewhere.{stands};
ghost use Rattle.loop_model.specs.Lines.{after_event, called, called_all, called_own, empty_line, hot_of, in_hand, placed, queued, queued_all, queued_by, queued_if, queued_port, recalled, returned, settled};
ghost use Rattle.loop_model.specs.Queues.{AreApart};
ghost use Rattle.loop_model.specs.Things.{set_of};
ghost use Rattle.ready_loop.specs.Standing.{IsCold, IsFront, IsKept, IsStirred, called_each, door_aside, front_of, listed_last, without_port, without_ports};
ghost use Rattle.loop_model.specs.declared.thing.Thing.TheVariants.{Read, Write};
ghost use Rattle.world_ports.specs.declared.events.Door.TheVariants.{Children, Clients};

use crate::Core;
use crate::marks::Standing;
use crate::standings::Standings;
use crate::things::{can_serve, drop_from, drop_if, has_thing, stands};
use loop_model::Thing;
use std::alloc::{AllocError, Global};
use std::collections::VecDeque;
use std::marker::Model;
use world_ports::{Door, Ready, Spot};

/// What is ready, in the order in which it is served, and whether a client has connected.
#[derive(Drop)]
pub struct Queue {
    // Nothing stands here twice, or both here and aside.
    things: VecDeque<Thing>,
    standings: Standings,
    joined: bool,
}

impl Model for Queue {
    ghost use Rattle.loop_model.specs.Lines.{Line};
    ghost use Rattle.ready_loop.specs.Marks.{IsMarked};

    ghost Value = { Line };

    ghost view = { λ q. record { queue = q.things.items; aside = q.standings.aside; joined = q.joined } };

    ghost invariant = { λ q. IsMarked q.things.items q.standings };
}

impl Queue {
    // Takes no memory.
    pub fn new(alloc: Global) -> Queue
        ensures { result ≡ empty_line }
    {
        Queue {
            things: VecDeque::new(alloc),
            standings: Standings::new(alloc),
            joined: false,
        }
    }

    // Whether a client has connected.
    pub fn has_joined(&self) -> bool
        ensures { result ≡ self.now.joined }
    {
        self.joined
    }

    // The first thing of the list.
    #[inline(always)]
    pub fn first(&self) -> Option<Thing>
        ensures { result ≡ front_of self.now.queue }
    {
        self.things.front().copied()
    }

    // Whether nothing can be served.
    pub fn is_empty(&self) -> bool
        ensures { result ≡ (length self.now.queue == 0) }
    {
        self.things.is_empty()
    }

    // The thing stands first and is served: it is in hand until its event has happened.
    #[inline(always)]
    pub fn take(&mut self, thing: Thing)
        requires { IsFront thing self.old.queue }
        ensures { self.new ≡ in_hand thing self.old }
    {
        self.things.pop_front();
        self.standings.clear(thing);
    }

    // A connection was accepted, and joins: both its directions are ready then.
    pub fn accept<A: Core>(&mut self, agent: &A, door: Door, port: u64) -> Result<(), AllocError>
        ensures { OnOk result (self.new ≡ record (queued_port (A.state agent.now) port self.old) {
          joined = is_client door || self.old.joined;
        }) }
    {
        self.add(agent, Thing::Read(port))?;
        self.add(agent, Thing::Write(port))?;
        self.joined = is_client_door(door) || self.joined;
        Ok(())
    }

    // A poll told of these.
    pub fn add_all<A: Core>(&mut self, agent: &A, items: &[Ready]) -> Result<(), AllocError>
        ensures { OnOk result (self.new ≡ queued_all (A.state agent.now) items.now self.old) }
    {
        'items: for item in items {
            self.add_item(agent, *item)?;
        }
        Ok(())
    }

    // Nothing stands twice in the list.
    pub fn stands_once(&self)
        ensures { AreApart self.now.queue }
    {
        let _ = &self.things;
    }

    // An event happened, of this port, and closed and touched some: what it lets be served comes back, which is at one
    // that it touched, and then what was served, if anything was.
    pub fn turn<A: Core>(
        &mut self,
        agent: &A,
        own: Option<u64>,
        hand: Option<Thing>,
    ) -> Result<(), AllocError>
        requires kept { IsKept (A.state agent.now) (A.closes agent.now) self.old.queue }
        requires stirred { IsStirred (A.state agent.now) (A.touched agent.now) self.old }
        requires cold { IsCold hand self.old }
        ensures { OnOk result (self.new
            ≡ after_event (A.state agent.now) (A.closes agent.now) own hand self.old) }
    {
        self.settle(agent)?;
        self.recall(agent, own)?;
        self.put_back(agent, hand)
    }
}

impl Queue {
    // What is at a port that was closed isn't ready, and a listener is set aside once the last number is taken.
    fn settle<A: Core>(&mut self, agent: &A) -> Result<(), AllocError>
        requires { IsKept (A.state agent.now) (A.closes agent.now) self.old.queue }
        ensures { OnOk result (self.new
            ≡ settled (A.state agent.now) (A.closes agent.now) self.old) }
    {
        self.close_all(agent);
        self.stands_once();
        if !can_serve(agent, Thing::Accept(Door::Clients)) {
            self.set_door_aside(Door::Clients)?;
            self.set_door_aside(Door::Children)?;
        }
        Ok(())
    }

    // The ports that the event closed are gone.
    fn close_all<A: Core>(&mut self, agent: &A)
        ensures { self.new ≡ without_ports (A.closes agent.now) self.old }
    {
        'closes: for port in agent.closes() {
            self.close(*port);
        }
    }

    // A port was closed.
    fn close(&mut self, port: u64)
        ensures { self.new ≡ without_port port self.old }
    {
        let (read, write) = self.standings.forget(port);
        drop_if(read, &mut self.things, Thing::Read(port));
        drop_if(write, &mut self.things, Thing::Write(port));
    }

    // The listener can't be served any more.
    fn set_door_aside(&mut self, door: Door) -> Result<(), AllocError>
        ensures { OnOk result (self.new ≡ door_aside door self.old) }
    {
        if has_thing(&self.things, Thing::Accept(door)) {
            self.standings.set(Thing::Accept(door), Standing::Aside)?;
            drop_from(&mut self.things, Thing::Accept(door));
        }
        Ok(())
    }

    // What was set aside and can be served comes back, the event's own port first.
    fn recall<A: Core>(&mut self, agent: &A, own: Option<u64>) -> Result<(), AllocError>
        requires { IsStirred (A.state agent.now) (A.touched agent.now) self.old }
        ensures { OnOk result (self.new ≡ recalled (A.state agent.now) own self.old) }
    {
        self.call_own(agent, own)?;
        self.call_touched(agent)
    }

    // What was served stands last, or is set aside; it isn't ready where its port was closed.
    #[inline(always)]
    fn put_back<A: Core>(&mut self, agent: &A, hand: Option<Thing>) -> Result<(), AllocError>
        requires { IsCold hand self.old }
        ensures { OnOk result (self.new ≡ returned (A.state agent.now) hand self.old) }
    {
        if let Some(thing) = hand {
            self.place_open(agent, thing)?;
        }
        Ok(())
    }

    // The thing stands last where it can be served, and is set aside where it can't be.
    fn place<A: Core>(&mut self, agent: &A, thing: Thing) -> Result<(), AllocError>
        requires { hot_of self.old thing ≡ false }
        ensures { OnOk result (self.new ≡ placed (A.state agent.now) thing self.old) }
    {
        if can_serve(agent, thing) {
            self.list(thing)?;
        } else {
            self.set_aside(thing)?;
        }
        Ok(())
    }

    // The thing stands last or is set aside where it is at a port that is open. What can be served is at one.
    #[inline(always)]
    fn place_open<A: Core>(&mut self, agent: &A, thing: Thing) -> Result<(), AllocError>
        requires { hot_of self.old thing ≡ false }
        ensures { OnOk result (self.new ≡ returned (A.state agent.now) (Some thing) self.old) }
    {
        if can_serve(agent, thing) {
            self.list(thing)?;
        } else if stands(agent, thing) {
            self.set_aside(thing)?;
        }
        Ok(())
    }

    // The thing stands last, and not aside.
    #[inline(always)]
    fn list(&mut self, thing: Thing) -> Result<(), AllocError>
        requires { set_of self.old.queue thing ≡ false }
        ensures { OnOk result (self.new ≡ listed_last thing self.old) }
    {
        self.standings.set(thing, Standing::Listed)?;
        let Ok(()) = self.things.push_back(thing) else {
            self.standings.clear(thing);
            return Err(AllocError);
        };
        Ok(())
    }

    // The thing is set aside.
    #[inline(always)]
    fn set_aside(&mut self, thing: Thing) -> Result<(), AllocError>
        requires { set_of self.old.queue thing ≡ false }
        ensures { OnOk result (self.new ≡ record self.old { aside = put_aside thing self.old.aside }) }
    {
        self.standings.set(thing, Standing::Aside)?;
        Ok(())
    }

    // The thing is ready.
    fn add<A: Core>(&mut self, agent: &A, thing: Thing) -> Result<(), AllocError>
        ensures { OnOk result (self.new ≡ queued (A.state agent.now) thing self.old) }
    {
        if !self.has(thing) {
            self.place(agent, thing)?;
        }
        Ok(())
    }

    // Whether the thing is ready.
    #[inline(always)]
    fn has(&mut self, thing: Thing) -> bool
        ensures there { result ≡ hot_of self.old thing }
        ensures same { self.new ≡ self.old }
    {
        self.standings.has(thing)
    }

    // The thing is ready where the test holds, and it isn't at a port that isn't open.
    #[inline(always)]
    fn add_if<A: Core>(&mut self, agent: &A, test: bool, thing: Thing) -> Result<(), AllocError>
        ensures { OnOk result (self.new
            ≡ queued_if (test && stands thing (A.state agent.now)) (A.state agent.now) thing self.old) }
    {
        if test && !self.has(thing) {
            self.place_open(agent, thing)?;
        }
        Ok(())
    }

    // A poll told of this.
    fn add_item<A: Core>(&mut self, agent: &A, item: Ready) -> Result<(), AllocError>
        ensures { OnOk result (self.new
            ≡ queued_by (A.state agent.now) item.spot item.readable item.writable self.old) }
    {
        match item.spot {
            Spot::Door(door) => self.add_if(agent, item.readable, Thing::Accept(door)),
            Spot::Port(port) => {
                self.add_if(agent, item.readable, Thing::Read(port))?;
                self.add_if(agent, item.writable, Thing::Write(port))
            }
        }
    }

    // The thing comes back where it was set aside and can be served.
    #[inline(always)]
    fn call<A: Core>(&mut self, agent: &A, thing: Thing) -> Result<(), AllocError>
        ensures { OnOk result (self.new ≡ called (A.state agent.now) thing self.old) }
    {
        if self.is_aside(thing) && can_serve(agent, thing) {
            self.list(thing)?;
        }
        Ok(())
    }

    // Both directions of the event's port come back where they were set aside and can be served.
    #[inline(always)]
    fn call_own<A: Core>(&mut self, agent: &A, own: Option<u64>) -> Result<(), AllocError>
        ensures { OnOk result (self.new ≡ called_own (A.state agent.now) own self.old) }
    {
        if let Some(port) = own {
            self.call(agent, Thing::Read(port))?;
            self.call(agent, Thing::Write(port))?;
        }
        Ok(())
    }

    // Whether the thing is set aside, and so not in the list.
    #[inline(always)]
    fn is_aside(&mut self, thing: Thing) -> bool
        ensures there { result ≡ set_of (things_aside self.old.aside) thing }
        ensures apart { OnTrue result (set_of self.old.queue thing ≡ false) }
        ensures same { self.new ≡ self.old }
    {
        self.standings.is_aside(thing)
    }

    // The numbers of the ports rise that are set aside, to be read and to be written to.
    fn aside_rises(&self)
        ensures reads { IsRisingList self.now.aside.reads }
        ensures writes { IsRisingList self.now.aside.writes }
    {
        self.standings.aside_rises();
    }

    // What was set aside at a port that the event touched comes back where it can be served: what is to be read first.
    #[inline(always)]
    fn call_touched<A: Core>(&mut self, agent: &A) -> Result<(), AllocError>
        requires { IsStirred (A.state agent.now) (A.touched agent.now) self.old }
        ensures { OnOk result (self.new ≡ called_all (A.state agent.now) self.old) }
    {
        self.aside_rises();
        let touched = agent.touched();
        self.call_reads(agent, touched)?;
        self.call_writes(agent, touched)?;
        Ok(())
    }

    // What is to be read at these ports comes back where it was set aside and can be served.
    #[inline(always)]
    fn call_reads<A: Core>(&mut self, agent: &A, ports: &[u64]) -> Result<(), AllocError>
        ensures { OnOk result (self.new ≡ called_each (A.state agent.now) (map Read ports.now) self.old) }
    {
        'ports: for port in ports {
            self.call(agent, Thing::Read(*port))?;
        }
        Ok(())
    }

    // What is to be written there comes back where it was set aside and can be served.
    #[inline(always)]
    fn call_writes<A: Core>(&mut self, agent: &A, ports: &[u64]) -> Result<(), AllocError>
        ensures { OnOk result (self.new ≡ called_each (A.state agent.now) (map Write ports.now) self.old) }
    {
        'ports: for port in ports {
            self.call(agent, Thing::Write(*port))?;
        }
        Ok(())
    }
}

// Whether clients connect at this listener.
fn is_client_door(door: Door) -> bool
    ensures { result ≡ is_client door }
{
    match door {
        Door::Clients => true,
        Door::Children => false,
    }
}
