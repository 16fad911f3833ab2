//! The open ports.

ghost use Rattle.std.specs.Prelude.{◌≡◌, ◌↔◌, ◌≤◌, [], None, Some, IsSome, IsTrue, MatchOption, length};
ghost use Rattle.agent_model.specs.Sound.{IsRising};
ghost use Rattle.agent_model.specs.State.{Port, client_count, find_port, unnamed_count, wants_by};
ghost use Rattle.agent_core.specs.Owing.{is_client_at};
ghost use Rattle.agent_core.specs.Roles.{door_by};
ghost use Rattle.agent_core.specs.Slots.{chain_of, first_above, heard_in, owing_of, port_of};
ghost use Rattle.lists.specs.Rising.{IsRisingList};

mod joining;
mod serving;

use crate::counting;
use crate::places::{next_owing, place_near};
use crate::slot::{self, Slot};
use dest_rule::Chain;
use std::alloc::Global;
use std::marker::Model;
use under_way::UnderWay;
use world_ports::Door;

/// The open ports in the order of their numbers.
pub struct Ports {
    slots: Vec<Slot>,
    // Where the port stands that sent or took last, which is looked at first.
    near: usize,
    // Those that were closed since the event began, rising.
    closed: Vec<u64>,
    // Those whose slot was written since then, or that joined: rising too, each of them open or closed since.
    touched: Vec<u64>,
    last: u64,
}

impl Model for Ports {
    ghost use Rattle.std.specs.Prelude.{vec_capacity};
    ghost use Rattle.agent_core.specs.Slots.{IsListed, MarkedPorts, ports_of};

    ghost Value = { MarkedPorts };

    ghost view = { λ p. record {
      ports = ports_of p.slots.items;
      last = p.last;
      closed = p.closed.items;
      touched = p.touched.items;
    } };

    ghost invariant = { λ p. IsListed p.slots.items p.closed.items (vec_capacity p.closed) p.touched.items
        (vec_capacity p.touched) p.last };
}

impl Ports {
    pub fn new(alloc: Global) -> Ports
        ensures { result ≡ record { ports = []; last = 0; closed = []; touched = [] } }
    {
        Ports {
            slots: Vec::new(alloc),
            near: 0,
            closed: Vec::new(alloc),
            touched: Vec::new(alloc),
            last: 0,
        }
    }

    /// How many clients are open.
    pub fn clients(&self) -> usize
        ensures value { result ≡ client_count self.now.ports }
        ensures few { result ≤ length self.now.ports }
    {
        counting::clients(&self.slots)
    }

    /// How many child processes are open that haven't named themselves.
    pub fn unnamed(&self, under_way: &UnderWay) -> usize
        ensures value { result ≡ unnamed_count under_way.now self.now.ports }
        ensures few { result ≤ length self.now.ports }
    {
        counting::unnamed(&self.slots, under_way)
    }

    /// The open port of this number.
    #[inline(always)]
    pub fn find(&self, number: u64) -> Option<&Slot>
        ensures { MatchOption result (find_port number self.now.ports ≡ None)
            (λ slot. find_port number self.now.ports ≡ Some (port_of slot.now)) }
    {
        match place_near(&self.slots, self.near, number) {
            Some(place) => Some(&self.slots[place]),
            None => None,
        }
    }

    /// The door through which an open port came.
    pub fn door(&self, number: u64) -> Option<Door>
        ensures { result ≡ door_by (find_port number self.now.ports) }
    {
        match self.find(number) {
            Some(slot) => Some(slot.door),
            None => None,
        }
    }

    /// Whether the port is open and a client's.
    #[inline(always)]
    pub fn is_client(&self, number: u64) -> bool
        ensures { result ≡ is_client_at (find_port number self.now.ports) }
    {
        match self.find(number) {
            Some(slot) => slot.door == Door::Clients,
            None => false,
        }
    }

    pub fn last(&self) -> u64
        ensures { result ≡ self.now.last }
    {
        self.last
    }

    pub fn closed(&self) -> &[u64]
        ensures { result.now ≡ self.now.closed }
    {
        &self.closed
    }

    pub fn touched(&self) -> &[u64]
        ensures value { result.now ≡ self.now.touched }
        ensures rising { IsRisingList self.now.touched }
    {
        &self.touched
    }

    #[inline(always)]
    pub fn is_open(&self, number: u64) -> bool
        ensures { IsTrue result ↔ IsSome (find_port number self.now.ports) }
    {
        self.find(number).is_some()
    }

    /// What was heard at a port and not taken.
    pub fn heard(&self, number: u64) -> &[u8]
        ensures { result.now ≡ heard_in (find_port number self.now.ports) }
    {
        match self.find(number) {
            Some(slot) => slot.heard.live(),
            None => &[],
        }
    }

    #[inline(always)]
    pub fn wants(&self, number: u64) -> bool
        ensures { result ≡ wants_by (find_port number self.now.ports) }
    {
        match self.find(number) {
            Some(slot) => slot::wants(slot),
            None => false,
        }
    }

    /// The hosts that the connection of an open port was bound to.
    pub fn chain(&self, number: u64) -> Option<&Chain>
        ensures { MatchOption result (find_port number self.now.ports ≡ None) (λ chain. (port : Port)
            → find_port number self.now.ports ≡ Some port → chain.now ≡ chain_of port) }
    {
        match self.find(number) {
            Some(slot) => Some(&slot.chain),
            None => None,
        }
    }

    /// The first client above `after` that is owed bytes.
    pub fn next_owed(&self, after: u64) -> Option<u64>
        ensures next { result ≡ first_above after (owing_of self.now.ports) }
        ensures rising { IsRising 0 self.now.last self.now.ports }
    {
        next_owing(&self.slots, after)
    }
}

impl Drop for Ports {
    fn drop(self)
        requires { self ≡ self }
    {
        let Ports {
            mut slots,
            near: _,
            closed: _,
            touched: _,
            last: _,
        } = self;
        'slots: while let Some(slot) = slots.pop() {
            slot.close();
        }
        slots.destroy_empty();
    }
}
