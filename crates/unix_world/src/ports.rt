//! The open connections by their keys, found by the numbers that they were accepted under.

ghost use Rattle.std.specs.Prelude.{◌≡◌, ◌<◌, length, IfOk, IfSome, IsTrue, Ok, OnErr};
ghost use Rattle.world_ports.specs.Worlds.{KeepsRest, GotWithin, TookWithin};
ghost use Rattle.unix_world.specs.Rounds.{IsAt, OnNoBytes, OnNoRoom, ReadsNothing, StaysOwed, WritesNothing};

use crate::connection::Connection;
use crate::owed::Owed;
use mio::{Registry, Token};
use slab::Slab;
use std::alloc::{AllocError, Global};
use std::collections::HashMap;
use std::io;
use std::io::{Error, ErrorKind};
use std::process::OpenProcess;
use world_ports::{Got, Wrote};

// How many numbers have a place of their own: as many clients may be open, and connections are numbered one by one.
const NEAR: usize = 128;

/// The open connections, each under the key that is its token, and the keys of those that were accepted by their numbers.
///
/// A key is given again once its connection is gone. Nothing that was told of the former one comes to the next: what
/// epoll tells is turned into numbers at once, and a number is never given again.
#[derive(Drop)]
pub struct Ports<P: OpenProcess + Drop> {
    open: Slab<Connection<P>>,
    keys: HashMap<u64, usize>,
    // At a number's place the key of the last connection with that place: a guess that spares the map's look-up, which is
    // right where the connection under that key has the number.
    near: [usize; NEAR],
}

// The place of a number among those that are near.
#[inline(always)]
fn place_of(number: u64) -> usize
    ensures { result < NEAR }
{
    (number % NEAR as u64) as usize
}

impl<P: OpenProcess + Drop> Ports<P> {
    pub fn new(alloc: Global) -> Ports<P> {
        Ports {
            open: Slab::new(alloc),
            keys: HashMap::new(alloc),
            near: [0; NEAR],
        }
    }

    /// Takes room for one more.
    pub fn reserve(&mut self) -> Result<(), AllocError> {
        self.open.reserve(1)?;
        self.keys.reserve(1)
    }

    /// The key of the connection that is added next.
    pub fn next_key(&self) -> usize {
        self.open.vacant_key()
    }

    pub fn add(&mut self, connection: Connection<P>) -> Result<(), AllocError> {
        self.open.insert(connection).map_err(AllocError::from)?;
        Ok(())
    }

    /// The connection with this key was accepted under this number.
    pub fn number(&mut self, key: usize, number: u64) -> Result<(), AllocError> {
        self.keys.insert(number, key).map_err(AllocError::from)?;
        self.near[place_of(number)] = key;
        if let Some(connection) = self.open.get_mut(key) {
            connection.number = Some(number);
        }
        Ok(())
    }

    // The key of the connection with this number.
    #[inline(always)]
    fn key_of(&self, number: u64) -> Option<usize>
        ensures { IfSome result (λ key. IsAt self.now.open key number) }
    {
        let near = self.near[place_of(number)];
        if self.is_at(near, number) {
            return Some(near);
        }
        match self.keys.get(&number) {
            Some(key) if self.is_at(*key, number) => Some(*key),
            _ => None,
        }
    }

    // Whether the connection under this key has this number.
    #[inline(always)]
    fn is_at(&self, key: usize, number: u64) -> bool
        ensures { IsTrue result → IsAt self.now.open key number }
    {
        match self.open.get(key) {
            Some(connection) => connection.number == Some(number),
            None => false,
        }
    }

    /// Reads from the connection with this number, or puts that off. The key of a child process that named itself by this
    /// comes back too.
    #[inline(always)]
    pub fn read(
        &mut self,
        port: u64,
        owed: &mut Owed,
        inbox: &mut [u8],
        room: &mut [u8],
    ) -> io::Result<(Got, Option<usize>)>
        requires { 0 < length room.old }
        ensures within { IfOk result (λ read. GotWithin (Ok read.0) (length room.old)) }
        ensures rest { IfOk result (λ read. KeepsRest (Ok read.0) room.old room.new) }
        ensures unchanged { OnErr result (room.new ≡ room.old) }
        ensures stays { StaysOwed owed.old owed.new }
        ensures why { IfOk result (λ read. OnNoBytes read.0
            (ReadsNothing owed.old.round port self.old.open self.new.open owed.new)) }
    {
        let Some(key) = self.key_of(port) else {
            return Err(Error::from(ErrorKind::NotFound));
        };
        let Some(found) = self.open.get_mut(key) else {
            return Err(Error::from(ErrorKind::NotFound));
        };
        let (got, is_named) = found.read_or_owe(port, owed, inbox, room)?;
        Ok((got, if is_named { Some(key) } else { None }))
    }

    /// Writes to the connection with this number, or puts that off.
    #[inline(always)]
    pub fn write(
        &mut self,
        port: u64,
        owed: &mut Owed,
        is_long: bool,
        registry: &Registry,
        bytes: &[u8],
    ) -> io::Result<Wrote>
        requires { 0 < length bytes.now }
        ensures within { IfOk result (λ wrote. TookWithin (Ok wrote) (length bytes.now)) }
        ensures stays { StaysOwed owed.old owed.new }
        ensures why { IfOk result (λ wrote. OnNoRoom wrote
            (WritesNothing owed.old.round port self.old.open self.new.open owed.new)) }
    {
        let Some(key) = self.key_of(port) else {
            return Err(Error::from(ErrorKind::NotFound));
        };
        match self.open.get_mut(key) {
            Some(found) => found.write_or_owe(port, owed, is_long, registry, Token(key), bytes),
            None => Err(Error::from(ErrorKind::NotFound)),
        }
    }

    #[inline(always)]
    pub fn get_mut(&mut self, key: usize) -> Option<&mut Connection<P>> {
        self.open.get_mut(key)
    }

    /// Takes out the connection with this number, and tells its key.
    pub fn remove(&mut self, number: u64) -> Option<(usize, Connection<P>)> {
        let key = self.keys.remove(&number)?;
        let connection = self.open.try_remove(key)?;
        Some((key, connection))
    }
}
