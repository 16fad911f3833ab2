//! epoll, what it told last, and how long it was asked to wait for that.

ghost use Rattle.std.specs.Prelude.{◌≡◌};

use mio::{Events, Poll};
use std::alloc::Global;
use std::io;
use std::net::Net;
use std::time::Duration;

// More than there are connections and listeners at once. epoll keeps what doesn't fit for the next wait.
const EVENTS: usize = 256;

/// epoll, and the events of the last wait.
#[derive(Drop)]
pub struct Epoll {
    pub poll: Poll,
    pub events: Events,
    // For how many seconds it was last asked to wait at the most, without a bound where there is none.
    asked: Option<u64>,
}

impl Epoll {
    pub fn new<R: Net>(rt: &R, alloc: Global) -> io::Result<Epoll> {
        let poll = Poll::new(rt)?;
        Ok(Epoll {
            poll,
            events: Events::with_capacity(alloc, EVENTS)?,
            asked: None,
        })
    }

    /// Waits until there is something to be told of, for so many seconds at the most.
    pub fn wait(&mut self, most: Option<u64>) -> io::Result<()>
        ensures { self.new.asked ≡ most }
    {
        self.asked = most;
        self.poll
            .poll(&mut self.events, self.asked.map(Duration::from_secs))
    }
}
