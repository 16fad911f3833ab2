//! How a poll waits for epoll, and tells what is ready and what is still owed.

ghost use Rattle.std.specs.Prelude.{◌≡◌};

use crate::UnixPairs;
use crate::connected::{LISTENER, side_of};
use pair_ports::{PairReady, Side};
use std::fs::{File, Files};
use std::io;
use std::net::Net;
use std::time::{Clock, Duration};

// How long a pair waits for a place at the agent behind before it tries again, in milliseconds.
const RETRY: u64 = 20;

// What epoll told of: the listener, or a side of a pair.
fn item_of(event: &mio::event::Event) -> PairReady {
    let (pair, side) = side_of(event.token());
    PairReady {
        pair: if event.token() == LISTENER {
            None
        } else {
            Some(pair)
        },
        side,
        readable: event.is_readable() || event.is_read_closed() || event.is_error(),
        writable: event.is_writable() || event.is_write_closed(),
    }
}

// A pair may be connected to the agent behind.
fn room_at(pair: u64) -> PairReady {
    PairReady {
        pair: Some(pair),
        side: Side::Upstream,
        readable: false,
        writable: true,
    }
}

// There is something to be read at a side, or a connection at the listener.
fn ready_at(pair: Option<u64>, side: Side) -> PairReady {
    PairReady {
        pair,
        side,
        readable: true,
        writable: false,
    }
}

impl<R: Files<File = File> + Net + Clock> UnixPairs<'_, R> {
    // How long a poll waits, in milliseconds: not at all where it has to tell of something, 20 at the most while a pair
    // waits for a place at the agent behind, and a second while the listener is stuck.
    fn most_millis(&self) -> Option<u64> {
        let listener = self.listener.as_ref();
        if !self.owed.is_empty() || listener.is_some_and(|listener| listener.is_owed) {
            return Some(0);
        }
        if !self.waiting.is_empty() {
            return Some(RETRY);
        }
        if listener.is_some_and(|listener| listener.is_stuck) {
            return Some(1000);
        }
        None
    }

    // What epoll told of a side is kept.
    fn note(&mut self)
        ensures faults { self.new.faults ≡ self.old.faults }
        ensures pairs { self.new.last_pair ≡ self.old.last_pair }
    {
        for event in self.events.iter() {
            let (pair, side) = side_of(event.token());
            if let Some(connected) = self.pairs.get_mut(&pair) {
                if let Some(port) = connected.side(side) {
                    if event.is_read_closed() || event.is_error() {
                        port.marks.shut();
                    } else if event.is_readable() {
                        port.marks.wake();
                    }
                }
            }
        }
    }

    // Tells of what epoll told, and of what is owed; a round begins.
    fn tell(&mut self, out: &mut Vec<PairReady>) -> io::Result<()>
        ensures faults { self.new.faults ≡ self.old.faults }
        ensures pairs { self.new.last_pair ≡ self.old.last_pair }
    {
        for event in self.events.iter() {
            out.push(item_of(event))?;
        }
        for (pair, side) in self.owed.iter() {
            out.push(ready_at(Some(*pair), *side))?;
        }
        self.owed.clear();
        for pair in self.waiting.iter() {
            out.push(room_at(*pair))?;
        }
        self.waiting.clear();
        self.round = self.round.wrapping_add(1);
        if let Some(listener) = &mut self.listener {
            if listener.is_due() {
                out.push(ready_at(None, Side::Client))?;
            }
            listener.renew();
        }
        Ok(())
    }

    pub(crate) fn wait(&mut self, out: &mut Vec<PairReady>) -> io::Result<()>
        ensures faults { self.new.faults ≡ self.old.faults }
        ensures pairs { self.new.last_pair ≡ self.old.last_pair }
    {
        out.clear();
        let most = self.most_millis();
        self.poll
            .poll(&mut self.events, most.map(Duration::from_millis))?;
        self.note();
        self.tell(out)
    }
}
