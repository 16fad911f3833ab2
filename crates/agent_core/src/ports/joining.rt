//! How ports come and go.

ghost use Rattle.std.specs.Prelude.{◌≡◌, ◌↔◌, ◌-◌, ◌^◌, ◌<◌, [], true, None, suc, IsSome, IsTrue, OnOk, if◌then◌else◌, ◌∷◌};
ghost use Rattle.agent_model.specs.Actions.{closing};
ghost use Rattle.agent_model.specs.NumberLists.{put_all};
ghost use Rattle.agent_model.specs.Sound.{IsRising};
ghost use Rattle.agent_model.specs.State.{find_port, remove_port};
ghost use Rattle.agent_model.specs.Step.{admitted};
ghost use Rattle.agent_core.specs.Slots.{Spares, open_of};
ghost use Rattle.lists.specs.Rising.{inserted};

use crate::owed::Owed;
use crate::places::place_near;
use crate::ports::Ports;
use crate::slot::Slot;
use crate::waits::Waits;
use dest_rule::Chain;
use secret_buf::ScrubBuf;
use std::alloc::{AllocError, AllocFailed};
use world_ports::Door;

impl Ports {
    /// An event begins: none was closed or touched by it yet.
    pub fn begin(&mut self)
        ensures { self.new ≡ record self.old { closed = []; touched = [] } }
    {
        self.closed.clear();
        self.touched.clear();
    }

    /// Lets a port join, where there is room for it. Its number is the next in either case.
    pub fn join(&mut self, door: Door, has_room: bool) -> Result<(), AllocError>
        requires { self.old.last < 2 ^ 64 - 1 }

        ensures ports { OnOk result (open_of self.new ≡ record {
          ports = admitted has_room (suc self.old.last) door self.old.ports;
          last = suc self.old.last;
          closed = put_all self.old.closed (if has_room then [] else suc self.old.last ∷ []);
        }) }
        ensures spared { Spares self.old self.new }
    {
        if has_room {
            self.admit(door)?;
        } else {
            self.closed.reserve(self.slots.len() + 1)?;
            self.touched.reserve(self.closed.capacity())?;
            self.last += 1;
            lists::put_in(&mut self.closed, self.last);
        }
        Ok(())
    }

    /// Closes a port. What it was owed and what was heard of it is wiped. Takes no memory.
    pub fn close(&mut self, number: u64)
        requires { IsSome (find_port number self.old.ports) }

        ensures ports { open_of self.new ≡ record (open_of self.old) {
          ports = remove_port number self.old.ports;
          closed = inserted number self.old.closed;
        } }
        ensures spared { Spares self.old self.new }
        ensures gone { find_port number self.new.ports ≡ None }
        ensures rising { IsRising 0 self.old.last self.old.ports }
    {
        let Some(place) = place_near(&self.slots, self.near, number) else {
            unreachable!()
        };
        self.slots.remove(place).close();
        lists::put_in(&mut self.closed, number);
    }

    /// Closes a port, where it is open. What it was owed and what was heard of it is wiped. Takes no memory.
    pub fn close_open(&mut self, number: u64)
        ensures ports { open_of self.new ≡ record (open_of self.old) {
          ports = remove_port number self.old.ports;
          closed = put_all self.old.closed (closing number self.old.ports []);
        } }
        ensures spared { Spares self.old self.new }
        ensures gone { find_port number self.new.ports ≡ None }
        ensures rising { IsRising 0 self.old.last self.old.ports }
    {
        if self.has(number) {
            self.close(number);
        }
    }
}

impl Ports {
    // A port joins, and is touched by that; room is taken to list it there, and when it is closed.
    fn admit(&mut self, door: Door) -> Result<(), AllocError>
        requires { self.old.last < 2 ^ 64 - 1 }

        ensures ports { OnOk result (open_of self.new ≡ record (open_of self.old) {
          ports = admitted true (suc self.old.last) door self.old.ports;
          last = suc self.old.last;
        }) }
        ensures spared { Spares self.old self.new }
    {
        let alloc = *self.slots.allocator();
        let owed = Owed::new(alloc)?;
        self.closed.reserve(self.slots.len() + 1)?;
        self.touched.reserve(self.closed.capacity())?;
        let slot = Slot {
            number: self.last + 1,
            door,
            heard: ScrubBuf::new(alloc),
            owed,
            chain: Chain::new(alloc),
            waits: Waits::Nothing,
        };
        if let Err(AllocFailed { value }) = self.slots.push(slot) {
            value.close();
            return Err(AllocError);
        }
        self.last += 1;
        lists::put_in(&mut self.touched, self.last);
        Ok(())
    }

    // Whether a port is open, among those that rise.
    fn has(&self, number: u64) -> bool
        ensures value { IsTrue result ↔ IsSome (find_port number self.now.ports) }
        ensures rising { IsRising 0 self.now.last self.now.ports }
    {
        match place_near(&self.slots, self.near, number) {
            Some(_) => true,
            None => false,
        }
    }
}
