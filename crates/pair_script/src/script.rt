//! Pairs in memory that play a script, one turn at each poll, and keep a journal of calls.

ghost use Rattle.std.specs.Prelude.{◌≡◌, ◌++◌, ◌∷◌, ◌<◌, ◌-◌, ◌^◌, [], IfOk, OnOk, OnErr, Some, length, take, vec_len};
ghost use Rattle.pair_ports.specs.declared.entry.PairEntry.{PairEntry};
ghost use Rattle.pair_ports.specs.declared.entry.PairEntry.TheVariants as entry;
ghost use Rattle.pair_ports.specs.declared.side.Side.TheVariants.{Upstream};
ghost use Rattle.pair_script.specs.Ends.{end_of, next_linked};
ghost use Rattle.world_ports.specs.Journal.{Tells, got_of, is_short};
ghost use Rattle.world_ports.specs.Memory.{FailsAsListed};
ghost use Rattle.world_ports.specs.Script.{next_accepted, next_got, next_polled, next_wrote};
ghost use Rattle.world_ports.specs.Worlds.{GotWithin, IsCounted, KeepsRest, NumbersPort, TookWithin};

use crate::PairCue;
use crate::calls::Calls;
use crate::outside::Outside;
use pair_ports::{Linked, PairEntry, PairReady, Pairs, Side};
use plain_lists::{Bytes, PlainList};
use std::alloc::{AllocError, Global};
use world_ports::{Accepted, Got, Polled, WorldFault, Wrote};

/// Pairs in memory: each poll plays the next turn of their script, and names what that made ready. After the last turn
/// a poll is answered `Over`.
#[derive(Drop)]
pub struct PairScript {
    alloc: Global,
    // The last one comes next.
    turns: Vec<Vec<PairCue>>,
    calls: Calls,
    journal: Vec<PairEntry>,
    outside: Outside,
}

impl PairScript {
    /// Takes no memory. The calls whose numbers, from 1, stand in `failing` fail. A close can't fail and has no number.
    pub fn new(alloc: Global, mut turns: Vec<Vec<PairCue>>, failing: Vec<u64>) -> PairScript
        ensures journal { result.journal.items ≡ [] }
        ensures calls { result.calls ≡ record { failing = failing.items; made = 0; failed = 0 } }
        ensures pairs { result.outside.last_pair ≡ 0 }
    {
        turns.reverse();
        PairScript {
            alloc,
            turns,
            calls: Calls::new(failing),
            journal: Vec::new(alloc),
            outside: Outside::new(alloc),
        }
    }

    /// The calls so far.
    pub fn journal(&self) -> &[PairEntry]
        ensures { result.now ≡ self.now.journal.items }
    {
        &self.journal
    }

    fn put(&mut self, entry: PairEntry) -> Result<(), AllocError>
        ensures ok { OnOk result (self.new.journal.items ≡ self.old.journal.items ++ entry ∷ []) }
        ensures err { OnErr result (self.new.journal.items ≡ self.old.journal.items) }
        ensures calls { self.new.calls ≡ self.old.calls }
        ensures outside { self.new.outside ≡ self.old.outside }
    {
        self.journal.push(entry)?;
        Ok(())
    }

    // Plays the next turn.
    fn play(&mut self, out: &mut Vec<PairReady>) -> Result<Polled, AllocError>
        ensures journal { self.new.journal ≡ self.old.journal }
        ensures calls { self.new.calls ≡ self.old.calls }
        ensures pairs { self.new.outside.last_pair ≡ self.old.outside.last_pair }
        ensures answer { IfOk result (λ polled. polled ≡ next_polled (vec_len self.old.turns)) }
    {
        let Some(turn) = self.turns.pop() else {
            return Ok(Polled::Over);
        };
        self.outside.play_all(turn, out)?;
        Ok(Polled::Some)
    }
}

impl Pairs for PairScript {
    ghost journal = { λ p. Some p.journal.items };

    ghost faults = { λ p. p.calls.failed };

    ghost last_pair = { λ p. p.outside.last_pair };

    fn bind(&mut self, path: &str, upstream: &str) -> Result<(), WorldFault>
        ensures told { Tells (Some self.old.journal.items) (Some self.new.journal.items)
            (is_short result) (entry.Bind path.now upstream.now result) }
        ensures cause { IsCounted self.old.calls.failed self.new.calls.failed result }
        ensures pairs { self.new.outside.last_pair ≡ self.old.outside.last_pair }
        ensures fails { FailsAsListed self.old.calls result }
    {
        let answer = match self.calls.begin() {
            Ok(()) => Ok(()),
            Err(_) => Err(WorldFault::Failed),
        };
        let path = Bytes::from_vec(Vec::from_slice(self.alloc, path.as_bytes())?);
        let upstream = Bytes::from_vec(Vec::from_slice(self.alloc, upstream.as_bytes())?);
        self.put(PairEntry::Bind {
            path,
            upstream,
            answer,
        })?;
        answer
    }

    fn poll(&mut self, out: &mut Vec<PairReady>) -> Result<Polled, WorldFault>
        ensures told { Tells (Some self.old.journal.items) (Some self.new.journal.items)
            (is_short result) (entry.Poll out.new.items result) }
        ensures cause { IsCounted self.old.calls.failed self.new.calls.failed result }
        ensures pairs { self.new.outside.last_pair ≡ self.old.outside.last_pair }
        ensures fails { FailsAsListed self.old.calls result }
        ensures answer { IfOk result (λ polled. polled ≡ next_polled (vec_len self.old.turns)) }
    {
        out.clear();
        let answer = match self.calls.begin() {
            Ok(()) => Ok(self.play(out)?),
            Err(_) => Err(WorldFault::Failed),
        };
        let items = PlainList::from_vec(Vec::from_slice(self.alloc, out)?);
        self.put(PairEntry::Poll { items, answer })?;
        answer
    }

    fn accept(&mut self) -> Result<Accepted, WorldFault>
        requires { self.old.outside.last_pair < 2 ^ 64 - 1 }
        ensures told { Tells (Some self.old.journal.items) (Some self.new.journal.items)
            (is_short result) (entry.Accept result) }
        ensures cause { IsCounted self.old.calls.failed self.new.calls.failed result }
        ensures pairs { NumbersPort result self.old.outside.last_pair self.new.outside.last_pair }
        ensures fails { FailsAsListed self.old.calls result }
        ensures answer { IfOk result (λ accepted. accepted
            ≡ next_accepted self.old.outside.waiting self.old.outside.last_pair) }
    {
        let answer = match self.calls.begin() {
            Ok(()) => Ok(self.outside.next_accepted()),
            Err(_) => Err(WorldFault::Failed),
        };
        self.outside.make_room()?;
        self.put(PairEntry::Accept { answer })?;
        if let Ok(Accepted::Port(_)) = answer {
            self.outside.admit();
        }
        answer
    }

    fn connect(&mut self, pair: u64) -> Result<Linked, WorldFault>
        ensures told { Tells (Some self.old.journal.items) (Some self.new.journal.items)
            (is_short result) (entry.Connect pair result) }
        ensures cause { IsCounted self.old.calls.failed self.new.calls.failed result }
        ensures pairs { self.new.outside.last_pair ≡ self.old.outside.last_pair }
        ensures fails { FailsAsListed self.old.calls result }
        ensures answer { IfOk result (λ linked. linked ≡ next_linked (end_of self.old.outside.pairs pair Upstream)) }
    {
        let answer = match self.calls.begin() {
            Ok(()) => Ok(self.outside.next_linked(pair)),
            Err(_) => Err(WorldFault::Failed),
        };
        self.put(PairEntry::Connect { pair, answer })?;
        answer
    }

    fn read(&mut self, pair: u64, side: Side, room: &mut [u8]) -> Result<Got, WorldFault>
        requires { 0 < length room.old }
        ensures told { Tells (Some self.old.journal.items) (Some self.new.journal.items)
            (is_short result) (entry.Read pair side (length room.old) (got_of result room.new) result) }
        ensures within { GotWithin result (length room.old) }
        ensures rest { KeepsRest result room.old room.new }
        ensures cause { IsCounted self.old.calls.failed self.new.calls.failed result }
        ensures pairs { self.new.outside.last_pair ≡ self.old.outside.last_pair }
        ensures fails { FailsAsListed self.old.calls result }
        ensures answer { IfOk result (λ got. got ≡ next_got
            (end_of self.old.outside.pairs pair side) (length room.old)) }
        ensures bytes { IfOk result (λ _. got_of result room.new ≡ take (length (got_of result room.new))
            (end_of self.old.outside.pairs pair side).left) }
    {
        let answer = match self.calls.begin() {
            Ok(()) => Ok(self.outside.next_got(pair, side, room.len())),
            Err(_) => Err(WorldFault::Failed),
        };
        let n = match answer {
            Ok(Got::Bytes(n)) => n as usize,
            _ => 0,
        };
        let piece = self.outside.front(pair, side, n)?;
        let got = Bytes::from_vec(Vec::from_slice(self.alloc, &piece)?);
        self.put(PairEntry::Read {
            pair,
            side,
            room: room.len(),
            got,
            answer,
        })?;
        room[..n].copy_from_slice(&piece);
        self.outside.skip(pair, side, n);
        answer
    }

    fn write(&mut self, pair: u64, side: Side, bytes: &[u8]) -> Result<Wrote, WorldFault>
        requires { 0 < length bytes.now }
        ensures told { Tells (Some self.old.journal.items) (Some self.new.journal.items)
            (is_short result) (entry.Write pair side bytes.now result) }
        ensures within { TookWithin result (length bytes.now) }
        ensures cause { IsCounted self.old.calls.failed self.new.calls.failed result }
        ensures pairs { self.new.outside.last_pair ≡ self.old.outside.last_pair }
        ensures fails { FailsAsListed self.old.calls result }
        ensures answer { IfOk result (λ wrote. wrote ≡ next_wrote
            (end_of self.old.outside.pairs pair side) (length bytes.now)) }
    {
        let answer = match self.calls.begin() {
            Ok(()) => Ok(self.outside.next_wrote(pair, side, bytes.len())),
            Err(_) => Err(WorldFault::Failed),
        };
        let offered = Bytes::from_vec(Vec::from_slice(self.alloc, bytes)?);
        self.put(PairEntry::Write {
            pair,
            side,
            offered,
            answer,
        })?;
        if let Ok(Wrote::Took(n)) = answer {
            self.outside.fill(pair, side, n);
        }
        answer
    }

    fn disconnect(&mut self, pair: u64) -> Result<(), AllocError> {
        self.put(PairEntry::Disconnect {
            pair,
            answer: Ok(()),
        })?;
        self.outside.disconnect(pair);
        Ok(())
    }

    fn close(&mut self, pair: u64) -> Result<(), AllocError> {
        self.put(PairEntry::Close {
            pair,
            answer: Ok(()),
        })?;
        self.outside.close(pair);
        Ok(())
    }
}
