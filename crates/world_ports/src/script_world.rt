//! A world for tests, which plays a turn of its script at each poll and keeps a journal.

ghost use Rattle.std.specs.Prelude.{◌≡◌, ◌++◌, ◌∷◌, ◌≤◌, ◌<◌, ◌-◌, ◌^◌, [], IfOk, OnOk, OnErr, Some, length, take, vec_len};
ghost use Rattle.world_ports.specs.declared.entry.Entry.{Entry};
ghost use Rattle.world_ports.specs.declared.entry.Entry.TheVariants as entry;
ghost use Rattle.world_ports.specs.Journal.{Tells, got_of, is_short};
ghost use Rattle.world_ports.specs.Memory.{FailsAsListed};
ghost use Rattle.world_ports.specs.Script.{next_accepted, next_got, next_polled, next_ticket, next_wrote, pipe_of, waiting_at};
ghost use Rattle.world_ports.specs.Worlds.{IsCounted, GotWithin, KeepsRest, NumbersPort, TookWithin};

use crate::calls::Calls;
use crate::outside::Outside;
use crate::{
    Accepted, Cue, Door, Entry, Got, Job, Moment, Polled, Ready, World, WorldFault, Wrote,
};
use plain_lists::{Bytes, PlainList};
use std::alloc::{AllocError, Global};

/// A world in memory: each poll plays the next turn of its script, and names what that made ready.
/// After the last turn a poll is answered `Over`. The clocks stand at 0 until a cue sets them.
#[derive(Drop)]
pub struct ScriptWorld {
    alloc: Global,
    // The last one comes next.
    turns: Vec<Vec<Cue>>,
    calls: Calls,
    journal: Vec<Entry>,
    outside: Outside,
    greatest: u64,
    ghost in_order: { greatest ≤ outside.moment.mono },
}

impl ScriptWorld {
    /// Takes no memory. The calls whose numbers, from 1, stand in `failing` fail. A close and a
    /// reading of the clocks can't fail and have no number.
    pub fn new(alloc: Global, mut turns: Vec<Vec<Cue>>, failing: Vec<u64>) -> ScriptWorld
        ensures journal { result.journal.items ≡ [] }
        ensures calls { result.calls ≡ record { failing = failing.items; made = 0; failed = 0 } }
        ensures ports { result.outside.last_port ≡ 0 }
        ensures moment { result.greatest ≡ 0 }
    {
        turns.reverse();
        ScriptWorld {
            alloc,
            turns,
            calls: Calls::new(failing),
            journal: Vec::new(alloc),
            outside: Outside::new(alloc),
            greatest: 0,
        }
    }

    /// The calls so far.
    pub fn journal(&self) -> &[Entry]
        ensures { result.now ≡ self.now.journal.items }
    {
        &self.journal
    }

    fn put(&mut self, entry: Entry) -> Result<(), AllocError>
        ensures ok { OnOk result (self.new.journal.items ≡ self.old.journal.items ++ entry ∷ []) }
        ensures err { OnErr result (self.new.journal.items ≡ self.old.journal.items) }
        ensures calls { self.new.calls ≡ self.old.calls }
        ensures outside { self.new.outside ≡ self.old.outside }
        ensures greatest { self.new.greatest ≡ self.old.greatest }
    {
        self.journal.push(entry)?;
        Ok(())
    }

    // Plays the next turn.
    fn play(&mut self, out: &mut Vec<Ready>) -> Result<Polled, AllocError>
        ensures journal { self.new.journal ≡ self.old.journal }
        ensures calls { self.new.calls ≡ self.old.calls }
        ensures ports { self.new.outside.last_port ≡ self.old.outside.last_port }
        ensures greatest { self.new.greatest ≡ self.old.greatest }
        ensures answer { IfOk result (λ polled. polled ≡ next_polled (vec_len self.old.turns)) }
    {
        let Some(turn) = self.turns.pop() else {
            return Ok(Polled::Over);
        };
        self.outside.play_all(turn, out)?;
        Ok(Polled::Some)
    }
}

impl World for ScriptWorld {
    ghost journal = { λ w. Some w.journal.items };

    ghost faults = { λ w. w.calls.failed };

    ghost last_port = { λ w. w.outside.last_port };

    ghost greatest = { λ w. w.greatest };

    fn bind(&mut self, door: Door, path: &str) -> Result<(), WorldFault>
        ensures told { Tells (Some self.old.journal.items) (Some self.new.journal.items)
            (is_short result) (entry.Bind door path.now result) }
        ensures cause { IsCounted self.old.calls.failed self.new.calls.failed result }
        ensures ports { self.new.outside.last_port ≡ self.old.outside.last_port }
        ensures moment { self.new.greatest ≡ self.old.greatest }
        ensures fails { FailsAsListed self.old.calls result }
    {
        let answer = match self.calls.begin(false) {
            Ok(()) => Ok(()),
            Err(_) => Err(WorldFault::Failed),
        };
        let path = Bytes::from_vec(Vec::from_slice(self.alloc, path.as_bytes())?);
        self.put(Entry::Bind { door, path, answer })?;
        answer
    }

    fn poll(&mut self, wait: Option<u64>, out: &mut Vec<Ready>) -> Result<Polled, WorldFault>
        ensures told { Tells (Some self.old.journal.items) (Some self.new.journal.items)
            (is_short result) (entry.Poll wait out.new.items result) }
        ensures cause { IsCounted self.old.calls.failed self.new.calls.failed result }
        ensures ports { self.new.outside.last_port ≡ self.old.outside.last_port }
        ensures moment { self.new.greatest ≡ self.old.greatest }
        ensures fails { FailsAsListed self.old.calls result }
        ensures answer { IfOk result (λ polled. polled ≡ next_polled (vec_len self.old.turns)) }
    {
        out.clear();
        let answer = match self.calls.begin(false) {
            Ok(()) => Ok(self.play(out)?),
            Err(_) => Err(WorldFault::Failed),
        };
        let items = PlainList::from_vec(Vec::from_slice(self.alloc, out)?);
        self.put(Entry::Poll {
            wait,
            items,
            answer,
        })?;
        answer
    }

    fn accept(&mut self, door: Door) -> Result<Accepted, WorldFault>
        requires { self.old.outside.last_port < 2 ^ 64 - 1 }
        ensures told { Tells (Some self.old.journal.items) (Some self.new.journal.items)
            (is_short result) (entry.Accept door result) }
        ensures cause { IsCounted self.old.calls.failed self.new.calls.failed result }
        ensures ports { NumbersPort result self.old.outside.last_port self.new.outside.last_port }
        ensures moment { self.new.greatest ≡ self.old.greatest }
        ensures fails { FailsAsListed self.old.calls result }
        ensures answer { IfOk result (λ accepted. accepted ≡ next_accepted
            (waiting_at self.old.outside.waiting_clients self.old.outside.waiting_children door)
            self.old.outside.last_port) }
    {
        let answer = match self.calls.begin(false) {
            Ok(()) => Ok(self.outside.next_accepted(door)),
            Err(_) => Err(WorldFault::Failed),
        };
        self.outside.make_room()?;
        self.put(Entry::Accept { door, answer })?;
        if let Ok(Accepted::Port(_)) = answer {
            self.outside.admit(door);
        }
        answer
    }

    fn read(&mut self, port: u64, room: &mut [u8]) -> Result<Got, WorldFault>
        requires { 0 < length room.old }
        ensures told { Tells (Some self.old.journal.items) (Some self.new.journal.items)
            (is_short result) (entry.Read port (length room.old) (got_of result room.new) result) }
        ensures within { GotWithin result (length room.old) }
        ensures rest { KeepsRest result room.old room.new }
        ensures cause { IsCounted self.old.calls.failed self.new.calls.failed result }
        ensures ports { self.new.outside.last_port ≡ self.old.outside.last_port }
        ensures moment { self.new.greatest ≡ self.old.greatest }
        ensures fails { FailsAsListed self.old.calls result }
        ensures answer { IfOk result (λ got. got ≡ next_got
            (pipe_of self.old.outside.pipes port) (length room.old)) }
        ensures bytes { IfOk result (λ _. got_of result room.new ≡ take (length (got_of result room.new))
            (pipe_of self.old.outside.pipes port).left) }
    {
        let answer = match self.calls.begin(false) {
            Ok(()) => Ok(self.outside.next_got(port, room.len())),
            Err(_) => Err(WorldFault::Failed),
        };
        let n = match answer {
            Ok(Got::Bytes(n)) => n as usize,
            _ => 0,
        };
        let piece = self.outside.front(port, n)?;
        let got = Bytes::from_vec(Vec::from_slice(self.alloc, &piece)?);
        self.put(Entry::Read {
            port,
            room: room.len(),
            got,
            answer,
        })?;
        room[..n].copy_from_slice(&piece);
        self.outside.skip(port, n);
        answer
    }

    fn write(&mut self, port: u64, bytes: &[u8]) -> Result<Wrote, WorldFault>
        requires { 0 < length bytes.now }
        ensures told { Tells (Some self.old.journal.items) (Some self.new.journal.items)
            (is_short result) (entry.Write port bytes.now result) }
        ensures within { TookWithin result (length bytes.now) }
        ensures cause { IsCounted self.old.calls.failed self.new.calls.failed result }
        ensures ports { self.new.outside.last_port ≡ self.old.outside.last_port }
        ensures moment { self.new.greatest ≡ self.old.greatest }
        ensures fails { FailsAsListed self.old.calls result }
        ensures answer { IfOk result (λ wrote. wrote ≡ next_wrote
            (pipe_of self.old.outside.pipes port) (length bytes.now)) }
    {
        let answer = match self.calls.begin(false) {
            Ok(()) => Ok(self.outside.next_wrote(port, bytes.len())),
            Err(_) => Err(WorldFault::Failed),
        };
        let offered = Bytes::from_vec(Vec::from_slice(self.alloc, bytes)?);
        self.put(Entry::Write {
            port,
            offered,
            answer,
        })?;
        if let Ok(Wrote::Took(n)) = answer {
            self.outside.fill(port, n);
        }
        answer
    }

    fn close(&mut self, port: u64) -> Result<(), AllocError> {
        self.put(Entry::Close {
            port,
            answer: Ok(()),
        })?;
        self.outside.close(port);
        Ok(())
    }

    fn start(&mut self, job: Job) -> Result<[u8; 16], WorldFault>
        ensures told { Tells (Some self.old.journal.items) (Some self.new.journal.items)
            (is_short result) (entry.Start job result) }
        ensures cause { IsCounted self.old.calls.failed self.new.calls.failed result }
        ensures ports { self.new.outside.last_port ≡ self.old.outside.last_port }
        ensures moment { self.new.greatest ≡ self.old.greatest }
        ensures fails { FailsAsListed self.old.calls result }
        ensures answer { IfOk result (λ ticket.
            ticket ≡ next_ticket self.old.outside.tickets.items) }
    {
        let answer = match self.calls.begin(false) {
            Ok(()) => Ok(self.outside.next_ticket()),
            Err(_) => Err(WorldFault::Failed),
        };
        self.put(Entry::Start { job, answer })?;
        if answer.is_ok() {
            self.outside.drop_ticket();
        }
        answer
    }

    fn now(&mut self) -> Result<Moment, AllocError> {
        let moment = self.outside.moment;
        self.put(Entry::Now { answer: Ok(moment) })?;
        self.greatest = moment.mono;
        Ok(moment)
    }

    ghost stays = { λ _. tt };

    ghost goes_on = { λ _ _ _ _ _. tt };
}
