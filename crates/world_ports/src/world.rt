//! The trait of an agent's outside, with what each call adds to the journal.

ghost use Rattle.std.specs.Prelude.{◌≡◌, ◌<◌, ◌-◌, ◌^◌, ⊤, ℕ, List, Option, length, is_err};
ghost use Rattle.world_ports.specs.declared.entry.Entry.{Entry};
ghost use Rattle.world_ports.specs.declared.entry.Entry.TheVariants as entry;
ghost use Rattle.world_ports.specs.Journal.{Tells, got_of, is_short};
ghost use Rattle.world_ports.specs.Worlds.{IsCounted, GotWithin, KeepsRest, NumbersPort, ReadsClock, TookWithin};

use crate::{Accepted, Door, Got, Job, Moment, Polled, Ready, WorldFault, Wrote};
use std::alloc::AllocError;

/// The room of each read of a loop, in bytes (ours).
pub const READ_ROOM: usize = 16_384;

/// Listeners, connections, child processes and clocks, none of which a call waits for but `poll`.
///
/// Each call tells the journal its own entry, where there is one. A call that wants memory may leave
/// its entry out.
pub trait World {
    /// The calls so far, in order. `None` claims nothing.
    ghost journal: { Self → Option (List Entry) };

    /// How many calls the outside refused, which stays at 2^64 - 1.
    ghost faults: { Self → ℕ };

    /// The number of the last connection that was accepted, 0 before the first.
    ghost last_port: { Self → ℕ };

    /// The greatest second of the monotonic clock that `now` gave, 0 before the first.
    ghost greatest: { Self → ℕ };

    /// The second is a later state of the same world as the first, or the same.
    ghost leads: { Self → Self → Type 0 } = { λ _ _. ⊤ };

    /// Listens at a path.
    fn bind(&mut self, door: Door, path: &str) -> Result<(), WorldFault>
        ensures told { Tells (journal self.old) (journal self.new) (is_short result)
            (entry.Bind door path.now result) }
        ensures cause { IsCounted (faults self.old) (faults self.new) result }
        ensures ports { last_port self.new ≡ last_port self.old }
        ensures moment { greatest self.new ≡ greatest self.old }
        ensures led { leads self.old self.new };

    /// Waits until something is ready, for so many seconds at the most, or without a bound. What
    /// became ready since the last wait replaces what stands in `out`. It may wait for less, and
    /// name things that aren't ready.
    fn poll(&mut self, wait: Option<u64>, out: &mut Vec<Ready>) -> Result<Polled, WorldFault>
        ensures told { Tells (journal self.old) (journal self.new) (is_short result)
            (entry.Poll wait out.new.items result) }
        ensures cause { IsCounted (faults self.old) (faults self.new) result }
        ensures ports { last_port self.new ≡ last_port self.old }
        ensures moment { greatest self.new ≡ greatest self.old }
        ensures led { leads self.old self.new };

    /// Takes the next connection at a listener.
    fn accept(&mut self, door: Door) -> Result<Accepted, WorldFault>
        requires { last_port self.old < 2 ^ 64 - 1 }
        ensures told { Tells (journal self.old) (journal self.new) (is_short result)
            (entry.Accept door result) }
        ensures cause { IsCounted (faults self.old) (faults self.new) result }
        ensures ports { NumbersPort result (last_port self.old) (last_port self.new) }
        ensures moment { greatest self.new ≡ greatest self.old }
        ensures led { leads self.old self.new };

    /// Reads into the front of `room`, and leaves the rest of it as it was.
    fn read(&mut self, port: u64, room: &mut [u8]) -> Result<Got, WorldFault>
        requires { 0 < length room.old }
        ensures told { Tells (journal self.old) (journal self.new) (is_short result)
            (entry.Read port (length room.old) (got_of result room.new) result) }
        ensures within { GotWithin result (length room.old) }
        ensures rest { KeepsRest result room.old room.new }
        ensures cause { IsCounted (faults self.old) (faults self.new) result }
        ensures ports { last_port self.new ≡ last_port self.old }
        ensures moment { greatest self.new ≡ greatest self.old }
        ensures led { leads self.old self.new };

    /// Writes some of `bytes` from their front.
    fn write(&mut self, port: u64, bytes: &[u8]) -> Result<Wrote, WorldFault>
        requires { 0 < length bytes.now }
        ensures told { Tells (journal self.old) (journal self.new) (is_short result)
            (entry.Write port bytes.now result) }
        ensures within { TookWithin result (length bytes.now) }
        ensures cause { IsCounted (faults self.old) (faults self.new) result }
        ensures ports { last_port self.new ≡ last_port self.old }
        ensures moment { greatest self.new ≡ greatest self.old }
        ensures led { leads self.old self.new };

    /// Closes a connection. Only the journal may want memory for it.
    fn close(&mut self, port: u64) -> Result<(), AllocError>
        ensures told { Tells (journal self.old) (journal self.new) (is_err result)
            (entry.Close port result) }
        ensures cause { faults self.new ≡ faults self.old }
        ensures ports { last_port self.new ≡ last_port self.old }
        ensures moment { greatest self.new ≡ greatest self.old }
        ensures led { leads self.old self.new };

    /// Starts a child process, and answers the one-time token that it was given.
    fn start(&mut self, job: Job) -> Result<[u8; 16], WorldFault>
        ensures told { Tells (journal self.old) (journal self.new) (is_short result)
            (entry.Start job result) }
        ensures cause { IsCounted (faults self.old) (faults self.new) result }
        ensures ports { last_port self.new ≡ last_port self.old }
        ensures moment { greatest self.new ≡ greatest self.old }
        ensures led { leads self.old self.new };

    /// Reads the clocks. The monotonic one is never lower than before. Only the journal may want
    /// memory for it.
    fn now(&mut self) -> Result<Moment, AllocError>
        ensures told { Tells (journal self.old) (journal self.new) (is_err result)
            (entry.Now result) }
        ensures cause { faults self.new ≡ faults self.old }
        ensures ports { last_port self.new ≡ last_port self.old }
        ensures moment { ReadsClock result (greatest self.old) (greatest self.new) }
        ensures led { leads self.old self.new };

    ghost stays: { (world : Self) → leads world world };

    ghost goes_on: { (first then last : Self) → leads first then → leads then last → leads first last };
}
