//! Ends child processes that don't name themselves, or stay once their connection was closed.

ghost use Rattle.std.specs.Prelude.{◌↔◌, IsSome};
ghost use Rattle.unix_world.specs.Rounds.{IsAwaited};

use crate::clock::seconds;
use crate::started::Started;
use std::alloc::{AllocError, Global};
use std::process::OpenProcess;
use std::time::Clock;

// As many may be accepted that haven't named themselves: the agent would close one more.
const MOST_UNNAMED: usize = 32;

// How many seconds behind its start a child process has to have named itself.
const HELLO_LIMIT: u64 = 60;

// How many seconds it has to end by itself once its connection was closed. The clock is read in whole seconds, so one
// more keeps it from having less.
const END_LIMIT: u64 = 2 + 1;

// How many seconds behind a kill it is looked for again.
const KILL_PAUSE: u64 = 1;

// What was due has been done.
const NEVER: u64 = u64::MAX;

// Whose hello wasn't read yet: its connection's key, and from which second on it is ended.
#[derive(Clone, Copy)]
struct Unnamed {
    key: usize,
    due: u64,
}

/// The child processes of which something is due.
#[derive(Drop)]
pub struct Children<P: OpenProcess + Drop> {
    // In the order of their starts, in which they are accepted.
    unnamed: Vec<Unnamed>,
    // How many of these were accepted: the first ones.
    accepted: usize,
    // How many have a connection.
    connected: usize,
    // Those whose connection was closed, until they are reaped.
    ending: Vec<Started<P>>,
    // The second at which it was last looked what is due of them.
    second: u64,
}

impl<P: OpenProcess + Drop> Children<P> {
    pub fn new(alloc: Global) -> Children<P> {
        Children {
            unnamed: Vec::new(alloc),
            accepted: 0,
            connected: 0,
            ending: Vec::new(alloc),
            second: 0,
        }
    }

    /// Reads the clock that they are bounded by.
    pub fn look<R: Clock>(&mut self, rt: &R) {
        if let Some(second) = seconds(rt) {
            self.second = second;
        }
    }

    /// Takes room for one more, and for the end of all that there are then.
    pub fn reserve(&mut self) -> Result<(), AllocError> {
        self.unnamed.reserve(1)?;
        self.ending.reserve(self.connected.saturating_add(1))
    }

    /// One was started, whose connection has this key.
    pub fn begin(&mut self, key: usize) -> Result<(), AllocError> {
        self.unnamed.push(Unnamed {
            key,
            due: self.second.saturating_add(HELLO_LIMIT),
        })?;
        self.connected = self.connected.saturating_add(1);
        Ok(())
    }

    /// The connection that is to be accepted next, where one may be.
    pub fn waiting(&self) -> Option<usize>
        ensures { IsSome result ↔ IsAwaited self.now }
    {
        if self.accepted >= MOST_UNNAMED {
            return None;
        }
        match self.unnamed.get(self.accepted) {
            Some(child) => Some(child.key),
            None => None,
        }
    }

    /// That one was accepted.
    pub fn accept(&mut self) {
        self.accepted = self.accepted.saturating_add(1);
    }

    /// The hello of the one with this connection was read, or its connection was closed.
    pub fn name(&mut self, key: usize) {
        if let Some(place) = self.unnamed.iter().position(|child| child.key == key) {
            self.unnamed.remove(place);
            if place < self.accepted {
                self.accepted -= 1;
            }
        }
    }

    /// The connection of one that should have named itself by now. Each is told once.
    pub fn late(&mut self) -> Option<usize> {
        let second = self.second;
        for child in self.unnamed.iter_mut() {
            if child.due <= second {
                child.due = NEVER;
                return Some(child.key);
            }
        }
        None
    }

    /// The connection of this child process was closed.
    pub fn leave(&mut self, child: Started<P>) {
        let mut child = child;
        self.connected = self.connected.saturating_sub(1);
        child.due = self.second.saturating_add(END_LIMIT);
        // `reserve` took room for it. Without room it would be neither waited for nor killed.
        let _ = self.ending.push(child);
        self.reap();
    }

    /// Asks the system which of those without a connection have ended, and kills those that should have.
    pub fn reap(&mut self) {
        let second = self.second;
        for child in self.ending.iter_mut() {
            child.reap();
            if child.due <= second {
                child.kill();
                child.due = second.saturating_add(KILL_PAUSE);
            }
        }
        self.ending.retain(|child| !child.has_ended());
    }

    /// Whether nothing is due.
    pub fn is_quiet(&self) -> bool {
        self.unnamed.is_empty() && self.ending.is_empty()
    }

    // The second at which something is due first.
    fn next_due(&self) -> Option<u64> {
        let mut next = None;
        for child in self.unnamed.iter() {
            next = Some(child.due.min(next.unwrap_or(NEVER)));
        }
        for child in self.ending.iter() {
            next = Some(child.due.min(next.unwrap_or(NEVER)));
        }
        next
    }

    /// How many seconds it takes until something is due.
    pub fn next_wait(&self) -> Option<u64> {
        match self.next_due() {
            Some(due) => Some(due.saturating_sub(self.second)),
            None => None,
        }
    }
}
