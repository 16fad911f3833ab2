//! The sockets under epoll: the clients' listener, connections, and the child processes at the other ends of some.

ghost use Rattle.std.specs.Prelude.{◌≡◌, ◌<◌, length, IfOk, Ok, OnErr};
ghost use Rattle.world_ports.specs.Worlds.{GotWithin, KeepsRest, TookWithin};
ghost use Rattle.unix_world.specs.Rounds.{OnNoBytes, OnNoRoom, ReadsNothing, StaysOwed, WritesNothing};

mod waits;

use crate::children::Children;
use crate::connection::Connection;
use crate::doors::Listener;
use crate::epoll::Epoll;
use crate::owed::Owed;
use crate::port::Port;
use crate::ports::Ports;
use mio::net::UnixStream;
use mio::{Interest, Token};
use std::alloc::Global;
use std::io;
use std::io::{Error, ErrorKind};
use std::net::Net;
use std::process::OpenProcess;
use std::time::Clock;
use world_ports::{Door, Got, READ_ROOM, Wrote};

// As many clients may be open: the agent would close one more.
const MOST_CLIENTS: usize = 128;

// The listener's token. Those of connections are keys of the slab, and below it.
const CLIENTS: Token = Token(usize::MAX);

/// The sockets, and what is due of child processes.
#[derive(Drop)]
pub struct Sockets<P: OpenProcess + Drop> {
    pub epoll: Epoll,
    clients: Option<Listener>,
    open_clients: usize,
    pub ports: Ports<P>,
    inbox: Vec<u8>,
    pub started: Children<P>,
}

impl<P: OpenProcess + Drop> Sockets<P> {
    pub fn new<R: Net>(rt: &R, alloc: Global) -> io::Result<Sockets<P>> {
        let inbox = vec![in alloc; 0; READ_ROOM]?;
        Ok(Sockets {
            epoll: Epoll::new(rt, alloc)?,
            clients: None,
            open_clients: 0,
            ports: Ports::new(alloc),
            inbox,
            started: Children::new(alloc),
        })
    }

    /// epoll tells of who connects at this listener.
    pub fn watch(&mut self, made: Listener) -> io::Result<()> {
        let mut made = made;
        self.epoll
            .poll
            .registry()
            .register(&mut made.listener, CLIENTS, Interest::READABLE)?;
        self.clients = Some(made);
        Ok(())
    }

    // The next connection of a client, while fewer are open than may be.
    fn next_client(&mut self) -> io::Result<Option<UnixStream>> {
        let is_full = self.open_clients >= MOST_CLIENTS;
        match &mut self.clients {
            Some(door) if is_full => {
                door.is_withheld = true;
                Ok(None)
            }
            Some(door) => door.next(),
            None if is_full => Ok(None),
            None => Err(Error::from(ErrorKind::NotFound)),
        }
    }

    // Joins a client's connection to those that are open, under this number. Whether there is one.
    fn join_client(&mut self, number: u64) -> io::Result<bool> {
        self.ports.reserve()?;
        let Some(stream) = self.next_client()? else {
            return Ok(false);
        };
        let key = self.ports.next_key();
        let port = Port::new(self.epoll.poll.registry(), Token(key), stream)?;
        self.ports.add(Connection {
            number: None,
            port,
            child: None,
        })?;
        self.ports.number(key, number)?;
        self.open_clients = self.open_clients.saturating_add(1);
        Ok(true)
    }

    // Gives this number to the connection of a child process that was started, where one waits for that.
    fn join_child(&mut self, number: u64) -> io::Result<bool> {
        let Some(key) = self.started.waiting() else {
            return Ok(false);
        };
        self.ports.number(key, number)?;
        self.started.accept();
        Ok(true)
    }

    /// Joins the next connection at a door under this number. Whether there is one.
    pub fn join(&mut self, door: Door, number: u64) -> io::Result<bool> {
        match door {
            Door::Clients => self.join_client(number),
            Door::Children => self.join_child(number),
        }
    }

    /// Reads from a connection, or puts that off.
    #[inline(always)]
    pub fn read(&mut self, port: u64, owed: &mut Owed, room: &mut [u8]) -> io::Result<Got>
        requires { 0 < length room.old }
        ensures within { IfOk result (λ got. GotWithin (Ok got) (length room.old)) }
        ensures rest { IfOk result (λ got. KeepsRest (Ok got) room.old room.new) }
        ensures unchanged { OnErr result (room.new ≡ room.old) }
        ensures stays { StaysOwed owed.old owed.new }
        ensures why { IfOk result (λ got. OnNoBytes got
            (ReadsNothing owed.old.round port self.old.ports.open self.new.ports.open owed.new)) }
    {
        let (got, named) = self.ports.read(port, owed, &mut self.inbox, room)?;
        if let Some(key) = named {
            self.started.name(key);
        }
        Ok(got)
    }

    /// Writes to a connection, or puts that off.
    #[inline(always)]
    pub fn write(
        &mut self,
        port: u64,
        owed: &mut Owed,
        is_long: bool,
        bytes: &[u8],
    ) -> io::Result<Wrote>
        requires { 0 < length bytes.now }
        ensures within { IfOk result (λ wrote. TookWithin (Ok wrote) (length bytes.now)) }
        ensures stays { StaysOwed owed.old owed.new }
        ensures why { IfOk result (λ wrote. OnNoRoom wrote
            (WritesNothing owed.old.round port self.old.ports.open self.new.ports.open owed.new)) }
    {
        let registry = self.epoll.poll.registry();
        self.ports.write(port, owed, is_long, registry, bytes)
    }

    /// Closes a connection, where it is open.
    pub fn close<R: Clock>(&mut self, rt: &R, port: u64) {
        let Some((key, closed)) = self.ports.remove(port) else {
            return;
        };
        let Connection {
            number: _,
            port,
            child,
        } = closed;
        drop(port);
        match child {
            Some(child) => {
                self.started.look(rt);
                self.started.name(key);
                self.started.leave(child);
            }
            None => self.client_left(),
        }
    }

    // A client's connection was closed.
    fn client_left(&mut self) {
        self.open_clients = self.open_clients.saturating_sub(1);
        if let Some(door) = &mut self.clients {
            door.make_room();
        }
    }
}
