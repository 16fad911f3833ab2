//! `UnixWorld`, the world of Unix sockets over epoll, of child processes and of clocks.

ghost use Rattle.std.specs.Prelude.{◌≡◌, ◌≤◌, IfOk};
ghost use Rattle.world_ports.specs.Causes.{Rose};
ghost use Rattle.world_ports.specs.Worlds.{OnFailed};

mod starts;

use crate::clocks::Clocks;
use crate::doors::{BoundFile, Listener, listen_at, listen_by, remove_bound};
use crate::owed::Owed;
use crate::programs::Programs;
use crate::sockets::Sockets;
use crate::unix::starts::{Starter, begin};
use std::alloc::{AllocError, AllocGlobal, Global};
use std::env::Env;
use std::fs::{File, Files};
use std::io;
use std::io::{Error, ErrorKind};
use std::net::Net;
use std::os::fd::OwnedFd;
use std::process::Processes;
use std::random::RandomSource;
use std::time::Clock;
use world_ports::{Accepted, Door, Got, Job, Moment, Polled, Ready, World, WorldFault, Wrote};

/// Unix sockets over epoll, child processes, the system's clocks.
///
/// A connection is registered for reading; for writing only once a write found no room. Between two polls each port is
/// read once and written 16 times, or once where these take 10 milliseconds; the listener gives a bounded number of
/// connections. What that may leave is told of by the next poll, which doesn't wait. The clocks are looked at behind a
/// poll, and again after 64 looks or 10 milliseconds, which is looked at with every other one; they are read where the
/// kernel's tick has moved on since, which takes some milliseconds at the most.
///
/// A child process's standard input is its connection, the other end of which is there to be accepted from its start on;
/// nothing else connects at the children's door. Where the connection ends before the hello, or brings anything else, or
/// nothing for a minute, the world says the hello there and ends it. Who has no connection any more has two seconds to
/// end, is killed then, and is reaped.
#[derive(Drop)]
pub struct UnixWorld<'a, R: Processes> {
    rt: &'a R,
    alloc: Global,
    // Relative paths at which it listens are those of this folder, where there is one.
    folder: Option<String>,
    file: Option<BoundFile>,
    // The listener's socket, where whoever started this process opened it.
    given: Option<OwnedFd>,
    starter: Starter,
    sockets: Sockets<R::Started>,
    owed: Owed,
    clocks: Clocks,
    last_port: u64,
    faults: u64,
}

impl<'a, R: Files + Net + Processes + Env + AllocGlobal> UnixWorld<'a, R> {
    /// A world with no listener and no connection yet. Fails where the system or memory does.
    pub fn new(rt: &'a R, alloc: Global, programs: Programs) -> io::Result<UnixWorld<'a, R>>
        ensures { IfOk result (λ world. world.last_port ≡ 0) }
    {
        let starter = Starter::new(rt, alloc, programs)?;
        Ok(UnixWorld {
            rt,
            alloc,
            folder: None,
            file: None,
            given: None,
            starter,
            sockets: Sockets::new(rt, alloc)?,
            owed: Owed::new(alloc),
            clocks: Clocks::new(),
            last_port: 0,
            faults: 0,
        })
    }

    /// Relative paths at which it is to listen are those of this folder, and no longer of the working folder.
    pub fn set_folder(&mut self, folder: String)
        ensures ports { self.new.last_port ≡ self.old.last_port }
    {
        self.folder = Some(folder);
    }

    /// It is to listen by this socket, which is open already, and to make no file: at the path to which the socket is
    /// bound, under that or another name, whose file is this user's and no other's to open. Else its bind fails.
    pub fn set_listener(&mut self, fd: OwnedFd)
        ensures ports { self.new.last_port ≡ self.old.last_port }
    {
        self.given = Some(fd);
    }
}

impl<R: Files<File = File> + Processes + Clock> UnixWorld<'_, R> {
    /// Removes the file that this world made, where it is still the same. One that is gone already is no matter, and one
    /// of a socket that it was given stays.
    pub fn remove_file(&self) {
        if let Some(file) = &self.file {
            remove_bound(self.rt, file);
        }
    }
}

/// Memory ran out within this program: the system's own want of it has a number, and is its refusal.
pub fn is_memory(error: &Error) -> bool {
    error.kind() == ErrorKind::OutOfMemory && error.raw_os_error().is_none()
}

// The fault of a refused call, which is counted where it is the outside's.
fn fault_of(faults: &mut u64, error: &Error) -> WorldFault
    ensures later { faults.old ≤ faults.new }
    ensures cause { OnFailed result (Rose faults.old faults.new) }
{
    if is_memory(error) {
        return WorldFault::Memory;
    }
    *faults = faults.saturating_add(1);
    WorldFault::Failed
}

// A path in a folder, where it doesn't begin at the root.
fn path_in(alloc: Global, folder: &Option<String>, path: &str) -> Result<String, AllocError> {
    match folder {
        Some(folder) if !path.starts_with('/') => {
            format!(in alloc; "{}/{}", folder.as_str(), path)
        }
        _ => String::from_str(alloc, path),
    }
}

// Listens at a path, by the socket that was given or by one that it makes, and keeps which file that made.
fn listen<R: Files<File = File> + Net + Clock>(
    rt: &R,
    alloc: Global,
    path: String,
    given: Option<OwnedFd>,
    file: &mut Option<BoundFile>,
) -> io::Result<Listener> {
    let lock = format!(in alloc; "{}.lock", path.as_str())?;
    let questions = format!(in alloc; "{}.questions", path.as_str())?;
    let (listener, made) = match given {
        Some(fd) => (listen_by(rt, fd, path.as_str(), lock.as_str())?, None),
        None => {
            let (listener, made) = listen_at(rt, path.as_str(), lock.as_str())?;
            (listener, Some(made))
        }
    };
    *file = Some(BoundFile {
        path,
        lock,
        questions,
        made,
    });
    Ok(listener)
}

// Listens at a path, and has epoll tell of who connects there.
fn open<R: Files<File = File> + Net + Processes + Clock>(
    rt: &R,
    alloc: Global,
    path: String,
    given: Option<OwnedFd>,
    file: &mut Option<BoundFile>,
    sockets: &mut Sockets<R::Started>,
) -> io::Result<()> {
    let listener = listen(rt, alloc, path, given, file)?;
    sockets.watch(listener)
}

impl<R: Files<File = File> + Net + Processes + RandomSource + Clock + Eprint> World
    for UnixWorld<'_, R> {
    ghost use Rattle.std.specs.Prelude.{◌<◌, ◌-◌, ◌^◌, Contains, IsSomeAnd, IsTrue, None, length, is_err, OnErr, OnOk};
    ghost use Rattle.world_ports.specs.Journal.{Tells, got_of, is_short};
    ghost use Rattle.world_ports.specs.Worlds.{GotWithin, IsCounted, KeepsRest, NumbersPort, ReadsClock, TookWithin};
    ghost use Rattle.world_ports.specs.declared.answers.Spot.TheVariants as spot;
    ghost use Rattle.world_ports.specs.declared.entry.Entry.TheVariants as entry;
    ghost use Rattle.world_ports.specs.declared.events.Door.TheVariants as at;
    ghost use Rattle.unix_world.specs.Rounds.{BeginsRound, DoesNotWait, IsAwaited, IsTold, Looks, OnNoBytes, OnNoRoom};
    ghost use Rattle.unix_world.specs.Rounds.{ReadsNothing, StaysOwed, WritesNothing, readable_at};

    ghost journal = { λ _. None };

    ghost faults = { λ world. world.faults };

    ghost last_port = { λ world. world.last_port };

    ghost greatest = { λ world. world.clocks.moment.mono };

    fn bind(&mut self, door: Door, path: &str) -> Result<(), WorldFault>
        ensures told { Tells None None (is_short result) (entry.Bind door path.now result) }
        ensures cause { IsCounted self.old.faults self.new.faults result }
        ensures ports { self.new.last_port ≡ self.old.last_port }
        ensures moment { self.new.clocks.moment.mono ≡ self.old.clocks.moment.mono }
        ensures owed { self.new.owed ≡ self.old.owed }
    {
        // Child processes are started with their connections, and connect to no file.
        if door == Door::Children {
            return Ok(());
        }
        let path = path_in(self.alloc, &self.folder, path)?;
        let given = self.given.take();
        match open(
            self.rt,
            self.alloc,
            path,
            given,
            &mut self.file,
            &mut self.sockets,
        ) {
            Ok(()) => Ok(()),
            Err(error) => Err(fault_of(&mut self.faults, &error)),
        }
    }

    fn poll(&mut self, wait: Option<u64>, out: &mut Vec<Ready>) -> Result<Polled, WorldFault>
        ensures told { Tells None None (is_short result) (entry.Poll wait out.new.items result) }
        ensures cause { IsCounted self.old.faults self.new.faults result }
        ensures ports { self.new.last_port ≡ self.old.last_port }
        ensures moment { self.new.clocks.moment.mono ≡ self.old.clocks.moment.mono }
        // It asks epoll for no wait where a port or the listener is owed, or a child process waits to be accepted.
        ensures asked { DoesNotWait self.old.owed self.old.sockets.clients self.old.sockets.started
            self.new.sockets.epoll.asked }
        ensures owed { OnOk result (IsTold self.old.owed out.new.items) }
        ensures listener { OnOk result (IsSomeAnd self.old.sockets.clients (λ door. IsTrue door.is_owed)
            → Contains out.new.items (readable_at (spot.Door at.Clients))) }
        ensures child { OnOk result (IsAwaited self.new.sockets.started
            → Contains out.new.items (readable_at (spot.Door at.Children))) }
        ensures round { OnOk result (BeginsRound self.old.owed self.new.owed) }
        ensures stays { OnErr result (StaysOwed self.old.owed self.new.owed) }
    {
        match self.sockets.wait(self.rt, &mut self.owed, wait, out) {
            Ok(()) => Ok(Polled::Some),
            Err(error) => Err(fault_of(&mut self.faults, &error)),
        }
    }

    fn accept(&mut self, door: Door) -> Result<Accepted, WorldFault>
        requires { self.old.last_port < 2 ^ 64 - 1 }
        ensures told { Tells None None (is_short result) (entry.Accept door result) }
        ensures cause { IsCounted self.old.faults self.new.faults result }
        ensures ports { NumbersPort result self.old.last_port self.new.last_port }
        ensures moment { self.new.clocks.moment.mono ≡ self.old.clocks.moment.mono }
        ensures owed { self.new.owed ≡ self.old.owed }
    {
        let number = self.last_port + 1;
        match self.sockets.join(door, number) {
            Ok(true) => {
                self.last_port = number;
                Ok(Accepted::Port(number))
            }
            Ok(false) => Ok(Accepted::NotNow),
            Err(error) => Err(fault_of(&mut self.faults, &error)),
        }
    }

    fn read(&mut self, port: u64, room: &mut [u8]) -> Result<Got, WorldFault>
        requires { 0 < length room.old }
        ensures told { Tells None None (is_short result)
            (entry.Read port (length room.old) (got_of result room.new) result) }
        ensures within { GotWithin result (length room.old) }
        ensures rest { KeepsRest result room.old room.new }
        ensures cause { IsCounted self.old.faults self.new.faults result }
        ensures ports { self.new.last_port ≡ self.old.last_port }
        ensures moment { self.new.clocks.moment.mono ≡ self.old.clocks.moment.mono }
        ensures put_off { IfOk result (λ got. OnNoBytes got (ReadsNothing self.old.owed.round port
            self.old.sockets.ports.open self.new.sockets.ports.open self.new.owed)) }
        ensures owed { StaysOwed self.old.owed self.new.owed }
    {
        match self.sockets.read(port, &mut self.owed, room) {
            Ok(got) => Ok(got),
            Err(error) => Err(fault_of(&mut self.faults, &error)),
        }
    }

    fn write(&mut self, port: u64, bytes: &[u8]) -> Result<Wrote, WorldFault>
        requires { 0 < length bytes.now }
        ensures told { Tells None None (is_short result) (entry.Write port bytes.now result) }
        ensures within { TookWithin result (length bytes.now) }
        ensures cause { IsCounted self.old.faults self.new.faults result }
        ensures ports { self.new.last_port ≡ self.old.last_port }
        ensures moment { self.new.clocks.moment.mono ≡ self.old.clocks.moment.mono }
        ensures put_off { IfOk result (λ wrote. OnNoRoom wrote (WritesNothing self.old.owed.round port
            self.old.sockets.ports.open self.new.sockets.ports.open self.new.owed)) }
        ensures owed { StaysOwed self.old.owed self.new.owed }
    {
        let is_long = self.clocks.is_long(self.owed.round);
        match self.sockets.write(port, &mut self.owed, is_long, bytes) {
            Ok(wrote) => Ok(wrote),
            Err(error) => Err(fault_of(&mut self.faults, &error)),
        }
    }

    fn close(&mut self, port: u64) -> Result<(), AllocError>
        ensures told { Tells None None (is_err result) (entry.Close port result) }
        ensures cause { self.new.faults ≡ self.old.faults }
        ensures ports { self.new.last_port ≡ self.old.last_port }
        ensures moment { self.new.clocks.moment.mono ≡ self.old.clocks.moment.mono }
        ensures owed { self.new.owed ≡ self.old.owed }
    {
        self.sockets.close(self.rt, port);
        Ok(())
    }

    fn start(&mut self, job: Job) -> Result<[u8; 16], WorldFault>
        ensures told { Tells None None (is_short result) (entry.Start job result) }
        ensures cause { IsCounted self.old.faults self.new.faults result }
        ensures ports { self.new.last_port ≡ self.old.last_port }
        ensures moment { self.new.clocks.moment.mono ≡ self.old.clocks.moment.mono }
        ensures owed { self.new.owed ≡ self.old.owed }
    {
        match begin(
            self.rt,
            self.alloc,
            &mut self.starter,
            &self.file,
            &mut self.sockets,
            job,
        ) {
            Ok(ticket) => Ok(ticket),
            Err(error) => Err(fault_of(&mut self.faults, &error)),
        }
    }

    #[inline(always)]
    fn now(&mut self) -> Result<Moment, AllocError>
        ensures told { Tells None None (is_err result) (entry.Now result) }
        ensures cause { self.new.faults ≡ self.old.faults }
        ensures ports { self.new.last_port ≡ self.old.last_port }
        ensures moment { ReadsClock result self.old.clocks.moment.mono self.new.clocks.moment.mono }
        ensures looked { Looks self.old.owed.round self.old.clocks self.new.clocks }
        ensures owed { self.new.owed ≡ self.old.owed }
    {
        Ok(self.clocks.look(self.rt, self.owed.round))
    }

    ghost stays = { λ _. tt };

    ghost goes_on = { λ _ _ _ _ _. tt };
}
