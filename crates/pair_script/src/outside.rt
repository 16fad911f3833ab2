//! What is there around pairs in memory: clients that wait, and what peers sent and take.

ghost use Rattle.std.specs.Prelude.{◌≡◌, ◌+◌, ◌-◌, ◌^◌, ◌<◌, IfOk, take};
ghost use Rattle.pair_ports.specs.declared.side.Side.TheVariants.{Upstream};
ghost use Rattle.pair_script.specs.Ends.{end_of, next_linked};
ghost use Rattle.world_ports.specs.Script.{next_accepted, next_got, next_wrote};

use crate::PairCue;
use crate::ends::Ends;
use crate::pipe::Pipe;
use pair_ports::{Linked, PairReady, Side};
use std::alloc::{AllocError, Global};
use std::collections::BTreeMap;
use world_ports::{Accepted, Got, Wrote};

#[derive(Drop)]
pub struct Outside {
    alloc: Global,
    pub waiting: u64,
    pub pairs: BTreeMap<u64, Ends>,
    pub last_pair: u64,
}

impl Outside {
    // Takes no memory.
    pub fn new(alloc: Global) -> Self
        ensures { result.last_pair ≡ 0 }
    {
        Outside {
            alloc,
            waiting: 0,
            pairs: BTreeMap::new(alloc),
            last_pair: 0,
        }
    }

    // Lets these things happen in turn, and names in `out` what they made ready.
    pub fn play_all(
        &mut self,
        cues: Vec<PairCue>,
        out: &mut Vec<PairReady>,
    ) -> Result<(), AllocError>
        ensures { self.new.last_pair ≡ self.old.last_pair }
    {
        'cues: for cue in cues {
            self.play(cue, out)?;
        }
        Ok(())
    }

    fn play(&mut self, cue: PairCue, out: &mut Vec<PairReady>) -> Result<(), AllocError>
        ensures { self.new.last_pair ≡ self.old.last_pair }
    {
        match cue {
            PairCue::Connect => {
                self.waiting = self.waiting.saturating_add(1);
                out.push(PairReady {
                    pair: None,
                    side: Side::Client,
                    readable: true,
                    writable: false,
                })?;
            }
            PairCue::Send { pair, side, bytes } => {
                self.make_pair(pair)?;
                if let Some(ends) = self.pairs.get_mut(&pair) {
                    ends.at_mut(side).send(bytes.as_slice())?;
                    self.tell(pair, side, true, false, out)?;
                }
            }
            PairCue::Shut { pair, side } => {
                self.make_pair(pair)?;
                if let Some(ends) = self.pairs.get_mut(&pair) {
                    ends.at_mut(side).shut();
                    self.tell(pair, side, true, false, out)?;
                }
            }
            PairCue::Room { pair, side, count } => {
                self.make_pair(pair)?;
                if let Some(ends) = self.pairs.get_mut(&pair) {
                    ends.at_mut(side).add_room(count);
                    self.tell(pair, side, false, true, out)?;
                }
            }
        }
        Ok(())
    }

    // A pair that isn't accepted yet is known from the first cue that names it.
    fn make_pair(&mut self, pair: u64) -> Result<(), AllocError>
        ensures { self.new ≡ record self.old { pairs = self.new.pairs } }
    {
        if pair > self.last_pair && !self.pairs.contains_key(&pair) {
            self.pairs.insert(pair, Ends::new(self.alloc))?;
        }
        Ok(())
    }

    fn tell(
        &self,
        pair: u64,
        side: Side,
        readable: bool,
        writable: bool,
        out: &mut Vec<PairReady>,
    ) -> Result<(), AllocError> {
        if pair <= self.last_pair {
            out.push(PairReady {
                pair: Some(pair),
                side,
                readable,
                writable,
            })?;
        }
        Ok(())
    }

    // What an accept is answered.
    pub fn next_accepted(&self) -> Accepted
        requires { self.now.last_pair < 2 ^ 64 - 1 }
        ensures { result ≡ next_accepted self.now.waiting self.now.last_pair }
    {
        match self.waiting {
            0 => Accepted::NotNow,
            _ => Accepted::Port(self.last_pair + 1),
        }
    }

    // Makes the place of the next pair, if no cue did.
    pub fn make_room(&mut self) -> Result<(), AllocError>
        requires { self.old.last_pair < 2 ^ 64 - 1 }
        ensures { self.new ≡ record self.old { pairs = self.new.pairs } }
    {
        self.make_pair(self.last_pair + 1)
    }

    // Takes the client that waits.
    pub fn admit(&mut self)
        requires { self.old.last_pair < 2 ^ 64 - 1 }
        ensures { self.new.last_pair ≡ self.old.last_pair + 1 }
    {
        self.last_pair += 1;
        self.waiting = self.waiting.saturating_sub(1);
    }

    // What a connect is answered: there is a place where there is room for a byte.
    pub fn next_linked(&self, pair: u64) -> Linked
        ensures { result ≡ next_linked (end_of self.now.pairs pair Upstream) }
    {
        match self.next_wrote(pair, Side::Upstream, 1) {
            Wrote::Took(_) => Linked::Made,
            Wrote::NotNow => Linked::NotNow,
        }
    }

    // What a read is answered.
    pub fn next_got(&self, pair: u64, side: Side, room: usize) -> Got
        requires { 0 < room }
        ensures { result ≡ next_got (end_of self.now.pairs pair side) room }
    {
        match self.pairs.get(&pair) {
            Some(ends) => ends.at(side).next_got(room),
            None => Got::NotNow,
        }
    }

    // A copy of the first bytes that a peer sent and that weren't read yet.
    pub fn front(&self, pair: u64, side: Side, most: usize) -> Result<Vec<u8>, AllocError>
        ensures { IfOk result (λ piece. piece.items ≡ take most (end_of self.now.pairs pair side).left) }
    {
        match self.pairs.get(&pair) {
            Some(ends) => {
                let left = ends.at(side).left();
                Vec::from_slice(self.alloc, &left[..most.min(left.len())])
            }
            None => Ok(Vec::new(self.alloc)),
        }
    }

    // So many bytes of a side are read.
    pub fn skip(&mut self, pair: u64, side: Side, n: usize)
        ensures { self.new ≡ record self.old { pairs = self.new.pairs } }
    {
        if let Some(ends) = self.pairs.get_mut(&pair) {
            ends.at_mut(side).skip(n);
        }
    }

    // What a write is answered.
    pub fn next_wrote(&self, pair: u64, side: Side, len: usize) -> Wrote
        ensures { result ≡ next_wrote (end_of self.now.pairs pair side) len }
    {
        match self.pairs.get(&pair) {
            Some(ends) => ends.at(side).next_wrote(len),
            None => Pipe::new(self.alloc).next_wrote(len),
        }
    }

    // A side takes so many bytes.
    pub fn fill(&mut self, pair: u64, side: Side, n: u32)
        ensures { self.new ≡ record self.old { pairs = self.new.pairs } }
    {
        if let Some(ends) = self.pairs.get_mut(&pair) {
            ends.at_mut(side).fill(n);
        }
    }

    // What the peer of the agent behind sent over the connection is lost.
    pub fn disconnect(&mut self, pair: u64)
        ensures { self.new ≡ record self.old { pairs = self.new.pairs } }
    {
        if let Some(ends) = self.pairs.get_mut(&pair) {
            ends.renew(self.alloc);
        }
    }

    pub fn close(&mut self, pair: u64)
        ensures { self.new ≡ record self.old { pairs = self.new.pairs } }
    {
        let _ = self.pairs.remove(&pair);
    }
}
