//! The ports that were put off since the last poll, of which the next one has to tell.

ghost use Rattle.std.specs.Prelude.{◌≡◌, ◌<◌, ◌++◌, Contains, IsFalse, OnOk, map, vec_len};
ghost use Rattle.world_ports.specs.declared.answers.Spot.TheVariants.{Port};
ghost use Rattle.unix_world.specs.Rounds.{BeginsRound, IsNothingOwed, IsTold, StaysOwed, readable_at, writable_at};

use std::alloc::{AllocError, Global};
use world_ports::{Ready, Spot};

/// The round, and the ports of which the next poll has to tell.
#[derive(Drop)]
pub struct Owed {
    /// The polls that told of all so far, and 1 more.
    pub round: u64,
    // As such that may be read, and as such that may be written. A port that was closed since is told of too: its number
    // is never given again.
    reads: Vec<u64>,
    writes: Vec<u64>,
}

/// What is ready at a port or at a listener: something to be read, or a connection.
pub fn ready_at(spot: Spot) -> Ready
    ensures { result ≡ readable_at spot }
{
    Ready {
        spot,
        readable: true,
        writable: false,
    }
}

// What is ready at a port where a write was put off.
fn room_at(spot: Spot) -> Ready
    ensures { result ≡ writable_at spot }
{
    Ready {
        spot,
        readable: false,
        writable: true,
    }
}

// Tells of each of these ports as one that may be read.
fn tell_reads(ports: &[u64], out: &mut Vec<Ready>) -> Result<(), AllocError>
    ensures { OnOk result (out.new.items ≡ out.old.items ++ map (λ port. readable_at (Port port)) ports.now) }
{
    for port in ports {
        out.push(ready_at(Spot::Port(*port)))?;
    }
    Ok(())
}

// Tells of each of these ports as one that may be written.
fn tell_writes(ports: &[u64], out: &mut Vec<Ready>) -> Result<(), AllocError>
    ensures { OnOk result (out.new.items ≡ out.old.items ++ map (λ port. writable_at (Port port)) ports.now) }
{
    for port in ports {
        out.push(room_at(Spot::Port(*port)))?;
    }
    Ok(())
}

impl Owed {
    /// Before the first poll.
    pub fn new(alloc: Global) -> Owed
        ensures { IsNothingOwed result }
    {
        Owed {
            round: 1,
            reads: Vec::new(alloc),
            writes: Vec::new(alloc),
        }
    }

    /// Whether the next poll has to tell of no port.
    pub fn is_none(&self) -> bool
        ensures reads { 0 < vec_len self.now.reads → IsFalse result }
        ensures writes { 0 < vec_len self.now.writes → IsFalse result }
    {
        self.reads.is_empty() && self.writes.is_empty()
    }

    /// Takes room for one more that may be read.
    pub fn reserve(&mut self) -> Result<(), AllocError>
        ensures { StaysOwed self.old self.new }
    {
        self.reads.reserve(1)
    }

    /// The next poll has to tell of this port as one that may be read.
    pub fn owe(&mut self, port: u64) -> Result<(), AllocError>
        ensures owed { OnOk result (Contains self.new.reads.items port) }
        ensures stays { StaysOwed self.old self.new }
    {
        self.reads.push(port)?;
        Ok(())
    }

    /// A read of this port was put off. Once a round it is noted, at the place that is kept with the port.
    pub fn put_off_read(&mut self, port: u64, place: &mut usize) -> Result<(), AllocError>
        ensures owed { OnOk result (Contains self.new.reads.items port) }
        ensures stays { StaysOwed self.old self.new }
    {
        if let Some(owed) = self.reads.get(*place) {
            if *owed == port {
                return Ok(());
            }
        }
        *place = self.reads.len();
        self.owe(port)
    }

    /// A write of this port was put off.
    pub fn put_off_write(&mut self, port: u64) -> Result<(), AllocError>
        ensures owed { OnOk result (Contains self.new.writes.items port) }
        ensures stays { StaysOwed self.old self.new }
    {
        self.writes.push(port)?;
        Ok(())
    }

    /// Tells of each port behind what is told already. All of them are owed until the round ends.
    pub fn tell(&self, out: &mut Vec<Ready>) -> Result<(), AllocError>
        ensures { OnOk result (IsTold self.now out.new.items) }
    {
        tell_reads(&self.reads, out)?;
        tell_writes(&self.writes, out)?;
        Ok(())
    }

    /// A poll told of all: a round begins.
    pub fn begin_round(&mut self)
        ensures { BeginsRound self.old self.new }
    {
        self.reads.clear();
        self.writes.clear();
        self.round = self.round.wrapping_add(1);
    }
}
