//! The trait of a listener and its pairs, with what each call adds to the journal.

ghost use Rattle.std.specs.Prelude.{◌≡◌, ◌<◌, ◌-◌, ◌^◌, ℕ, List, Option, length, is_err};
ghost use Rattle.world_ports.specs.Journal.{Tells, got_of, is_short};
ghost use Rattle.world_ports.specs.Worlds.{IsCounted, GotWithin, KeepsRest, NumbersPort, TookWithin};
ghost use Rattle.pair_ports.specs.declared.entry.PairEntry.{PairEntry};
ghost use Rattle.pair_ports.specs.declared.entry.PairEntry.TheVariants as entry;

use crate::{Linked, PairReady, Side};
use std::alloc::AllocError;
use world_ports::{Accepted, Got, Polled, WorldFault, Wrote};

/// A listener and pairs of connections, none of which a call waits for but `poll`. A pair is a client's connection, and
/// from a `connect` to a `disconnect` one of its own to the agent behind.
///
/// Each call tells the journal its own entry, where there is one. A call that wants memory may leave its entry out.
pub trait Pairs {
    /// The calls so far, in order. `None` claims nothing.
    ghost journal: { Self → Option (List PairEntry) };

    /// How many calls the outside refused, which stays at 2^64 - 1.
    ghost faults: { Self → ℕ };

    /// The number of the last pair that was accepted, 0 before the first.
    ghost last_pair: { Self → ℕ };

    /// Listens at a path. The agent behind is at the other one.
    fn bind(&mut self, path: &str, upstream: &str) -> Result<(), WorldFault>
        ensures told { Tells (journal self.old) (journal self.new) (is_short result)
            (entry.Bind path.now upstream.now result) }
        ensures cause { IsCounted (faults self.old) (faults self.new) result }
        ensures pairs { last_pair self.new ≡ last_pair self.old };

    /// Waits until something is ready. What became ready since the last wait replaces what stands in `out`. It may name
    /// things that aren't ready, and nothing at all.
    fn poll(&mut self, out: &mut Vec<PairReady>) -> Result<Polled, WorldFault>
        ensures told { Tells (journal self.old) (journal self.new) (is_short result)
            (entry.Poll out.new.items result) }
        ensures cause { IsCounted (faults self.old) (faults self.new) result }
        ensures pairs { last_pair self.new ≡ last_pair self.old };

    /// Takes the next client, with no connection to the agent behind.
    fn accept(&mut self) -> Result<Accepted, WorldFault>
        requires { last_pair self.old < 2 ^ 64 - 1 }
        ensures told { Tells (journal self.old) (journal self.new) (is_short result)
            (entry.Accept result) }
        ensures cause { IsCounted (faults self.old) (faults self.new) result }
        ensures pairs { NumbersPort result (last_pair self.old) (last_pair self.new) };

    /// Connects a pair to the agent behind. Where that has no place yet, a later poll tells that the pair's upstream side
    /// may be written: then is the time to try again.
    fn connect(&mut self, pair: u64) -> Result<Linked, WorldFault>
        ensures told { Tells (journal self.old) (journal self.new) (is_short result)
            (entry.Connect pair result) }
        ensures cause { IsCounted (faults self.old) (faults self.new) result }
        ensures pairs { last_pair self.new ≡ last_pair self.old };

    /// Reads into the front of `room`, and leaves the rest of it as it was.
    fn read(&mut self, pair: u64, side: Side, room: &mut [u8]) -> Result<Got, WorldFault>
        requires { 0 < length room.old }
        ensures told { Tells (journal self.old) (journal self.new) (is_short result)
            (entry.Read pair side (length room.old) (got_of result room.new) result) }
        ensures within { GotWithin result (length room.old) }
        ensures rest { KeepsRest result room.old room.new }
        ensures cause { IsCounted (faults self.old) (faults self.new) result }
        ensures pairs { last_pair self.new ≡ last_pair self.old };

    /// Writes some of `bytes` from their front.
    fn write(&mut self, pair: u64, side: Side, bytes: &[u8]) -> Result<Wrote, WorldFault>
        requires { 0 < length bytes.now }
        ensures told { Tells (journal self.old) (journal self.new) (is_short result)
            (entry.Write pair side bytes.now result) }
        ensures within { TookWithin result (length bytes.now) }
        ensures cause { IsCounted (faults self.old) (faults self.new) result }
        ensures pairs { last_pair self.new ≡ last_pair self.old };

    /// Gives a pair's connection to the agent behind back, and closes it. Only the journal may want memory for it.
    fn disconnect(&mut self, pair: u64) -> Result<(), AllocError>
        ensures told { Tells (journal self.old) (journal self.new) (is_err result)
            (entry.Disconnect pair result) }
        ensures cause { faults self.new ≡ faults self.old }
        ensures pairs { last_pair self.new ≡ last_pair self.old };

    /// Closes all connections of a pair. Only the journal may want memory for it.
    fn close(&mut self, pair: u64) -> Result<(), AllocError>
        ensures told { Tells (journal self.old) (journal self.new) (is_err result)
            (entry.Close pair result) }
        ensures cause { faults self.new ≡ faults self.old }
        ensures pairs { last_pair self.new ≡ last_pair self.old };
}
