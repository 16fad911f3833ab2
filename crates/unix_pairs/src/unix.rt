//! Pairs of Unix sockets over epoll, which implement the trait of pair_ports.

ghost use Rattle.std.specs.Prelude.{◌≡◌, ◌≤◌, ◌<◌, ◌+◌, ◌^◌, ◌-◌, length, OnErr, IfOk, Ok};
ghost use Rattle.world_ports.specs.Causes.{Rose};
ghost use Rattle.world_ports.specs.Worlds.{OnFailed, NumbersPort, GotWithin, KeepsRest, TookWithin};

use crate::connected::{Connected, LISTENER, PAST_LAST, token_of};
use mio::net::UnixStream;
use mio::{Events, Interest, Poll};
use pair_ports::{Linked, PairReady, Pairs, Side};
use std::alloc::{AllocError, Global};
use std::collections::HashMap;
use std::fs::{File, Files};
use std::io;
use std::io::{Error, ErrorKind};
use std::net::Net;
use std::time::Clock;
use unix_world::{BoundFile, Listener, Port, is_memory, listen_at, remove_bound};
use world_ports::{Accepted, Got, Polled, READ_ROOM, WorldFault, Wrote};

// epoll keeps what doesn't fit for the next wait.
const EVENTS: usize = 64;

// As many pairs may be open: the filter would close one more.
const MOST_PAIRS: usize = 128;

/// Pairs of Unix sockets over epoll.
///
/// A connection is registered for reading; for writing only once a write found no room. Between two polls each side of
/// a pair is read once, and the listener gives a bounded number of connections; where that may leave something waiting,
/// the next poll tells of it and doesn't wait. Who connects while as many pairs are open as may be waits. A pair for which
/// the agent behind has no place is told of by the next poll, which waits 20 milliseconds at the most.
#[derive(Drop)]
pub struct UnixPairs<'a, R> {
    rt: &'a R,
    alloc: Global,
    pub(crate) poll: Poll,
    pub(crate) events: Events,
    pub(crate) listener: Option<Listener>,
    file: Option<BoundFile>,
    upstream: String,
    pub(crate) pairs: HashMap<u64, Connected>,
    inbox: Vec<u8>,
    // The polls so far, and 1 more.
    pub(crate) round: u64,
    // The sides of which the next poll has to tell.
    pub(crate) owed: Vec<(u64, Side)>,
    // The pairs that found no place at the agent behind since the last poll.
    pub(crate) waiting: Vec<u64>,
    pub(crate) last_pair: u64,
    pub(crate) faults: u64,
}

// Whether this side stands at this place among those of which the next poll has to tell.
fn is_among(owed: &[(u64, Side)], place: usize, pair: u64, side: Side) -> bool {
    match owed.get(place) {
        Some((at, owed)) => *at == pair && *owed == side,
        None => false,
    }
}

impl<'a, R: Net> UnixPairs<'a, R> {
    /// Pairs with no listener and no connection yet. Fails where the system or memory does.
    pub fn new(rt: &'a R, alloc: Global) -> io::Result<UnixPairs<'a, R>>
        ensures { IfOk result (λ pairs. pairs.last_pair ≡ 0) }
    {
        Ok(UnixPairs {
            rt,
            alloc,
            poll: Poll::new(rt)?,
            events: Events::with_capacity(alloc, EVENTS)?,
            listener: None,
            file: None,
            upstream: String::new(alloc),
            pairs: HashMap::new(alloc),
            inbox: vec![in alloc; 0; READ_ROOM]?,
            round: 1,
            owed: Vec::new(alloc),
            waiting: Vec::new(alloc),
            last_pair: 0,
            faults: 0,
        })
    }
}

impl<R: Files<File = File> + Clock> UnixPairs<'_, R> {
    /// Removes the file of the listener, where it is still the one that was made.
    pub fn remove_file(&self) {
        if let Some(file) = &self.file {
            remove_bound(self.rt, file);
        }
    }
}

impl<R: Files<File = File> + Net + Clock> UnixPairs<'_, R> {
    // The fault of a refused call, which is counted where it is the outside's.
    fn fault_of(&mut self, error: &Error) -> WorldFault
        ensures later { self.old.faults ≤ self.new.faults }
        ensures cause { OnFailed result (Rose self.old.faults self.new.faults) }
        ensures pairs { self.new.last_pair ≡ self.old.last_pair }
    {
        if is_memory(error) {
            return WorldFault::Memory;
        }
        self.faults = self.faults.saturating_add(1);
        WorldFault::Failed
    }

    fn listen(&mut self, path: &str, upstream: &str) -> io::Result<()>
        ensures faults { self.new.faults ≡ self.old.faults }
        ensures pairs { self.new.last_pair ≡ self.old.last_pair }
    {
        let upstream = String::from_str(self.alloc, upstream)?;
        let path = String::from_str(self.alloc, path)?;
        let lock = format!(in self.alloc; "{}.lock", path.as_str())?;
        let (listener, made) = listen_at(self.rt, path.as_str(), lock.as_str())?;
        self.file = Some(BoundFile {
            path,
            lock,
            // A filter asks nobody: no relay of it takes turns.
            questions: String::new(self.alloc),
            made: Some(made),
        });
        self.upstream = upstream;
        self.watch(listener)
    }

    // epoll tells of who connects.
    fn watch(&mut self, listener: Listener) -> io::Result<()>
        ensures faults { self.new.faults ≡ self.old.faults }
        ensures pairs { self.new.last_pair ≡ self.old.last_pair }
    {
        let mut listener = listener;
        self.poll
            .registry()
            .register(&mut listener.listener, LISTENER, Interest::READABLE)?;
        self.listener = Some(listener);
        Ok(())
    }

    // The number of a pair that is to be made.
    fn next_number(&self) -> io::Result<u64>
        requires { self.now.last_pair < 2 ^ 64 - 1 }
        ensures { IfOk result (λ number. number ≡ self.now.last_pair + 1) }
    {
        if self.last_pair + 1 >= PAST_LAST {
            return Err(Error::from(ErrorKind::Other));
        }
        Ok(self.last_pair + 1)
    }

    // The next client, while fewer pairs are open than may be.
    fn next_client(&mut self) -> io::Result<Option<UnixStream>>
        ensures faults { self.new.faults ≡ self.old.faults }
        ensures pairs { self.new.last_pair ≡ self.old.last_pair }
    {
        let is_full = self.pairs.len() >= MOST_PAIRS;
        match &mut self.listener {
            Some(listener) if is_full => {
                listener.is_withheld = true;
                Ok(None)
            }
            Some(listener) => listener.next(),
            None => Err(Error::from(ErrorKind::NotFound)),
        }
    }

    // Makes the pair of this number. Whether a client waits.
    fn join(&mut self, number: u64) -> io::Result<bool>
        ensures faults { self.new.faults ≡ self.old.faults }
        ensures pairs { self.new.last_pair ≡ self.old.last_pair }
    {
        self.pairs.reserve(1)?;
        let Some(client) = self.next_client()? else {
            return Ok(false);
        };
        let client = Port::new(self.poll.registry(), token_of(number, Side::Client), client)?;
        self.pairs
            .insert(number, Connected::new(client))
            .map_err(AllocError::from)?;
        Ok(true)
    }

    fn take(&mut self) -> io::Result<Accepted>
        requires { self.old.last_pair < 2 ^ 64 - 1 }
        ensures faults { self.new.faults ≡ self.old.faults }
        ensures ok { IfOk result (λ accepted. NumbersPort (Ok accepted) self.old.last_pair self.new.last_pair) }
        ensures err { OnErr result (self.new.last_pair ≡ self.old.last_pair) }
    {
        let number = self.next_number()?;
        if !self.join(number)? {
            return Ok(Accepted::NotNow);
        }
        self.last_pair = number;
        Ok(Accepted::Port(number))
    }

    // Connects the pair to the agent behind, where that has a place.
    fn link(&mut self, pair: u64) -> io::Result<Linked>
        ensures faults { self.new.faults ≡ self.old.faults }
        ensures pairs { self.new.last_pair ≡ self.old.last_pair }
    {
        let Some(connected) = self.pairs.get_mut(&pair) else {
            return Err(Error::from(ErrorKind::NotFound));
        };
        match UnixStream::connect(self.rt, self.upstream.as_str()) {
            Ok(stream) => {
                let token = token_of(pair, Side::Upstream);
                connected.link(Port::new(self.poll.registry(), token, stream)?);
                Ok(Linked::Made)
            }
            Err(error) if error.kind() == ErrorKind::WouldBlock => {
                self.waiting.push(pair)?;
                Ok(Linked::NotNow)
            }
            Err(error) => Err(error),
        }
    }

    fn read_from(&mut self, pair: u64, side: Side, room: &mut [u8]) -> io::Result<Got>
        requires { 0 < length room.old }
        ensures within { IfOk result (λ got. GotWithin (Ok got) (length room.old)) }
        ensures rest { IfOk result (λ got. KeepsRest (Ok got) room.old room.new) }
        ensures unchanged { OnErr result (room.new ≡ room.old) }
        ensures faults { self.new.faults ≡ self.old.faults }
        ensures pairs { self.new.last_pair ≡ self.old.last_pair }
    {
        let Some(connected) = self.pairs.get_mut(&pair) else {
            return Err(Error::from(ErrorKind::NotFound));
        };
        let Some(port) = connected.side(side) else {
            return Err(Error::from(ErrorKind::NotConnected));
        };
        if port.marks.asks(self.round) {
            return port.read(self.round, &mut self.inbox, room);
        }
        if port.marks.may_wait() && !is_among(&self.owed, port.marks.place, pair, side) {
            port.marks.place = self.owed.len();
            self.owed.push((pair, side))?;
        }
        Ok(Got::NotNow)
    }

    fn write_to(&mut self, pair: u64, side: Side, bytes: &[u8]) -> io::Result<Wrote>
        requires { 0 < length bytes.now }
        ensures within { IfOk result (λ wrote. TookWithin (Ok wrote) (length bytes.now)) }
        ensures faults { self.new.faults ≡ self.old.faults }
        ensures pairs { self.new.last_pair ≡ self.old.last_pair }
    {
        let Some(connected) = self.pairs.get_mut(&pair) else {
            return Err(Error::from(ErrorKind::NotFound));
        };
        match connected.side(side) {
            Some(port) => port.write(self.poll.registry(), token_of(pair, side), bytes),
            None => Err(Error::from(ErrorKind::NotConnected)),
        }
    }

    // A pair was closed, so there is room for a client that was left waiting.
    fn left(&mut self)
        ensures faults { self.new.faults ≡ self.old.faults }
        ensures pairs { self.new.last_pair ≡ self.old.last_pair }
    {
        if let Some(listener) = &mut self.listener {
            listener.make_room();
        }
    }
}

impl<R: Files<File = File> + Net + Clock> Pairs for UnixPairs<'_, R> {
    ghost use Rattle.std.specs.Prelude.{None};

    ghost journal = { λ _. None };

    ghost faults = { λ pairs. pairs.faults };

    ghost last_pair = { λ pairs. pairs.last_pair };

    fn bind(&mut self, path: &str, upstream: &str) -> Result<(), WorldFault> {
        match self.listen(path, upstream) {
            Ok(()) => Ok(()),
            Err(error) => Err(self.fault_of(&error)),
        }
    }

    fn poll(&mut self, out: &mut Vec<PairReady>) -> Result<Polled, WorldFault> {
        match self.wait(out) {
            Ok(()) => Ok(Polled::Some),
            Err(error) => Err(self.fault_of(&error)),
        }
    }

    fn accept(&mut self) -> Result<Accepted, WorldFault> {
        match self.take() {
            Ok(accepted) => Ok(accepted),
            Err(error) => Err(self.fault_of(&error)),
        }
    }

    fn connect(&mut self, pair: u64) -> Result<Linked, WorldFault> {
        match self.link(pair) {
            Ok(linked) => Ok(linked),
            Err(error) => Err(self.fault_of(&error)),
        }
    }

    fn read(&mut self, pair: u64, side: Side, room: &mut [u8]) -> Result<Got, WorldFault> {
        match self.read_from(pair, side, room) {
            Ok(got) => Ok(got),
            Err(error) => Err(self.fault_of(&error)),
        }
    }

    fn write(&mut self, pair: u64, side: Side, bytes: &[u8]) -> Result<Wrote, WorldFault> {
        match self.write_to(pair, side, bytes) {
            Ok(wrote) => Ok(wrote),
            Err(error) => Err(self.fault_of(&error)),
        }
    }

    fn disconnect(&mut self, pair: u64) -> Result<(), AllocError> {
        if let Some(connected) = self.pairs.get_mut(&pair) {
            connected.part();
        }
        Ok(())
    }

    fn close(&mut self, pair: u64) -> Result<(), AllocError> {
        if self.pairs.remove(&pair).is_some() {
            self.left();
        }
        Ok(())
    }
}
