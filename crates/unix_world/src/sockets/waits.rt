//! Waits in epoll for as long as may be, and tells what is ready and what is owed.

ghost use Rattle.std.specs.Prelude.{◌≡◌, ◌<◌, Contains, IsSomeAnd, IsTrue, None, OnErr, OnOk, Some, vec_len};
ghost use Rattle.world_ports.specs.declared.answers.Ready.{Ready};
ghost use Rattle.world_ports.specs.declared.answers.Spot.TheVariants as spot;
ghost use Rattle.world_ports.specs.declared.events.Door.TheVariants as at;
ghost use Rattle.unix_world.specs.Rounds.{BeginsRound, DoesNotWait, IsAwaited, IsTold, StaysOwed, readable_at};

use crate::children::Children;
use crate::doors::Listener;
use crate::owed::{Owed, ready_at};
use crate::ports::Ports;
use crate::sockets::{CLIENTS, Sockets};
use mio::{Events, Token};
use std::alloc::AllocError;
use std::io;
use std::process::OpenProcess;
use std::time::Clock;
use world_ports::{Door, Ready, Spot};

// What epoll tells of a port or of a listener.
fn told_at(spot: Spot, event: &mio::event::Event) -> Ready {
    Ready {
        spot,
        readable: event.is_readable() || event.is_read_closed() || event.is_error(),
        writable: event.is_writable() || event.is_write_closed(),
    }
}

// The less of both, where the one is no bound if there is none.
fn least(wait: Option<u64>, other: u64) -> u64 {
    match wait {
        Some(wait) => wait.min(other),
        None => other,
    }
}

// How long a poll waits that has to tell of nothing: a second at the most while a listener is stuck, and no longer than
// until something is due of a child process.
fn wait_for(wait: Option<u64>, is_stuck: bool, due: Option<u64>) -> Option<u64> {
    let most = if is_stuck { Some(least(wait, 1)) } else { wait };
    match due {
        Some(due) => Some(least(most, due)),
        None => most,
    }
}

// Tells of what epoll told of ports and of the listener, and keeps it. What it told of a connection that wasn't accepted
// yet is kept alone.
fn tell_told<P: OpenProcess + Drop>(
    events: &Events,
    ports: &mut Ports<P>,
    out: &mut Vec<Ready>,
) -> Result<(), AllocError> {
    for event in events.iter() {
        match event.token() {
            CLIENTS => out.push(told_at(Spot::Door(Door::Clients), event))?,
            Token(key) => {
                if let Some(found) = ports.get_mut(key) {
                    if event.is_read_closed() || event.is_error() {
                        found.port.marks.shut();
                    } else if event.is_readable() {
                        found.port.marks.wake();
                    }
                    if let Some(number) = found.number {
                        out.push(told_at(Spot::Port(number), event))?;
                    }
                }
            }
        }
    }
    Ok(())
}

// Does what is due of child processes. Where it ends one that hasn't named itself, the next thing told is its port.
fn tend<P: OpenProcess + Drop, R: Clock>(
    rt: &R,
    started: &mut Children<P>,
    ports: &mut Ports<P>,
    owed: &mut Owed,
) -> Result<(), AllocError>
    ensures { StaysOwed owed.old owed.new }
{
    if started.is_quiet() {
        return Ok(());
    }
    owed.reserve()?;
    started.look(rt);
    started.reap();
    let Some(key) = started.late() else {
        return Ok(());
    };
    let Some(late) = ports.get_mut(key) else {
        return Ok(());
    };
    late.give_up();
    if let Some(number) = late.number {
        owed.owe(number)?;
    }
    Ok(())
}

// Whether the listener is owed, so that the next poll doesn't wait.
fn is_owed(clients: &Option<Listener>) -> bool
    ensures { IsSomeAnd clients.now (λ door. IsTrue door.is_owed) → IsTrue result }
{
    match clients {
        Some(door) => door.is_owed,
        None => false,
    }
}

// Whether the listener is to be tried again.
fn is_stuck(clients: &Option<Listener>) -> bool {
    match clients {
        Some(door) => door.is_stuck,
        None => false,
    }
}

// Tells of the doors: the listener that is owed, and child processes that wait to be accepted.
fn tell_doors<P: OpenProcess + Drop>(
    clients: &Option<Listener>,
    started: &Children<P>,
    out: &mut Vec<Ready>,
) -> Result<(), AllocError>
    ensures more { (item : Ready) → Contains out.old.items item → Contains out.new.items item }
    ensures listener { OnOk result (IsSomeAnd clients.now (λ door. IsTrue door.is_owed)
        → Contains out.new.items (readable_at (spot.Door at.Clients))) }
    ensures child { OnOk result (IsAwaited started.now → Contains out.new.items (readable_at (spot.Door at.Children))) }
{
    if let Some(door) = clients {
        if door.is_due() {
            out.push(ready_at(Spot::Door(Door::Clients)))?;
        }
    }
    if started.waiting().is_some() {
        out.push(ready_at(Spot::Door(Door::Children)))?;
    }
    Ok(())
}

// Tells of what is owed, and of doors; a round begins.
fn tell_owed<P: OpenProcess + Drop>(
    clients: &mut Option<Listener>,
    started: &Children<P>,
    owed: &mut Owed,
    out: &mut Vec<Ready>,
) -> Result<(), AllocError>
    ensures told { OnOk result (IsTold owed.old out.new.items) }
    ensures listener { OnOk result (IsSomeAnd clients.old (λ door. IsTrue door.is_owed)
        → Contains out.new.items (readable_at (spot.Door at.Clients))) }
    ensures child { OnOk result (IsAwaited started.now → Contains out.new.items (readable_at (spot.Door at.Children))) }
    ensures round { OnOk result (BeginsRound owed.old owed.new) }
    ensures stays { OnErr result (owed.new ≡ owed.old) }
{
    owed.tell(out)?;
    tell_doors(clients, started, out)?;
    if let Some(door) = clients {
        door.renew();
    }
    owed.begin_round();
    Ok(())
}

impl<P: OpenProcess + Drop> Sockets<P> {
    // How long a poll waits, where the agent asks for so many seconds: not at all where it has to tell of something.
    fn wait_of(&self, owed: &Owed, wait: Option<u64>) -> Option<u64>
        ensures { DoesNotWait owed.now self.now.clients self.now.started result }
    {
        if !owed.is_none() || self.started.waiting().is_some() || is_owed(&self.clients) {
            return Some(0);
        }
        wait_for(wait, is_stuck(&self.clients), self.started.next_wait())
    }

    /// Waits for so many seconds at the most, and tells what is ready: what epoll tells of, and what is owed.
    pub fn wait<R: Clock>(
        &mut self,
        rt: &R,
        owed: &mut Owed,
        wait: Option<u64>,
        out: &mut Vec<Ready>,
    ) -> io::Result<()>
        ensures asked { DoesNotWait owed.old self.old.clients self.old.started self.new.epoll.asked }
        ensures told { OnOk result (IsTold owed.old out.new.items) }
        ensures listener { OnOk result (IsSomeAnd self.old.clients (λ door. IsTrue door.is_owed)
            → Contains out.new.items (readable_at (spot.Door at.Clients))) }
        ensures child { OnOk result (IsAwaited self.new.started
            → Contains out.new.items (readable_at (spot.Door at.Children))) }
        ensures round { OnOk result (BeginsRound owed.old owed.new) }
        ensures stays { OnErr result (StaysOwed owed.old owed.new) }
    {
        out.clear();
        let most = self.wait_of(owed, wait);
        self.epoll.wait(most)?;
        tell_told(&self.epoll.events, &mut self.ports, out)?;
        tend(rt, &mut self.started, &mut self.ports, owed)?;
        tell_owed(&mut self.clients, &self.started, owed, out)?;
        Ok(())
    }
}
