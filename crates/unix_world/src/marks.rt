//! Whether a port is to be read, written or told of again, since epoll tells of a change once.

ghost use Rattle.std.specs.Prelude.{◌≡◌, ◌≢◌, ◌≤◌, ◌<◌, ◌+◌, ◌↔◌, ◌||◌, true, IsTrue, IsFalse, if◌then◌else◌};
ghost use Rattle.std.specs.Bool.{OnTrue, OnFalse};
ghost use Rattle.unix_world.specs.Rounds.{HasTried};

// So many writes of a port are tried in a round that isn't long.
const MOST_WRITES: u32 = 16;

/// Whether a read is to ask the system, whether one more write is to be tried, and where the port stands among those of
/// which the next poll has to tell. Rounds are counted from 1: a round ends with each poll.
#[derive(Clone, Copy)]
pub struct Marks {
    // Bytes may wait, or the end.
    maybe_more: bool,
    // The peer has shut its end, and that wasn't read yet.
    has_ended: bool,
    // The round in which the system was last asked for bytes.
    read_in: u64,
    /// The place at which it was last put among the ports whose reads were put off: it is one of them where it stands
    /// there.
    pub place: usize,
    // The round of the last write, and how many were tried in it.
    wrote_in: u64,
    writes: u32,
}

// How many writes of a port are tried in a round.
#[inline(always)]
fn most_writes(is_long: bool) -> u32
    ensures { result ≡ (if is_long then 1 else 16) }
{
    if is_long { 1 } else { MOST_WRITES }
}

impl Marks {
    /// Of a new connection.
    pub fn new() -> Marks {
        Marks {
            maybe_more: true,
            has_ended: false,
            read_in: 0,
            place: 0,
            wrote_in: 0,
            writes: 0,
        }
    }

    /// A poll told that there is something to read.
    pub fn wake(&mut self)
        ensures { self.new ≡ record self.old { maybe_more = true } }
    {
        self.maybe_more = true;
    }

    /// A poll told that the peer shut its end, or that the connection failed.
    pub fn shut(&mut self)
        ensures { self.new ≡ record self.old { maybe_more = true; has_ended = true } }
    {
        self.maybe_more = true;
        self.has_ended = true;
    }

    /// Whether something may wait of which epoll doesn't tell anew.
    #[inline(always)]
    pub fn may_wait(&self) -> bool
        ensures { result ≡ self.now.maybe_more }
    {
        self.maybe_more
    }

    /// Whether a read asks the system: something may wait, and it is the first read of this round.
    #[inline(always)]
    pub fn asks(&self, round: u64) -> bool
        ensures { IsTrue result ↔ (IsTrue self.now.maybe_more × (self.now.read_in ≢ round)) }
    {
        self.maybe_more && self.read_in != round
    }

    /// Whether one more write is to be tried in this round, which counts as tried then: the first, and 15 more unless the
    /// round is long. Where it isn't, the next poll has to tell of the port.
    pub fn may_write(&mut self, round: u64, is_long: bool) -> bool
        ensures first { self.old.wrote_in ≢ round → IsTrue result }
        ensures more { self.old.writes < (if is_long then 1 else 16) → IsTrue result }
        ensures tried { OnTrue result (HasTried round self.old self.new) }
        ensures bound { OnTrue result (self.new.writes ≤ (if is_long then 1 else 16)) }
        ensures put_off { OnFalse result (self.new ≡ self.old) }
    {
        if self.wrote_in != round {
            self.wrote_in = round;
            self.writes = 0;
        }
        if self.writes >= most_writes(is_long) {
            return false;
        }
        self.writes += 1;
        true
    }

    /// The system was asked, and gave bytes. What comes behind bytes that left room is told by epoll anew.
    pub fn gave(&mut self, round: u64, filled: bool)
        ensures { self.new ≡ record self.old { read_in = round; maybe_more = filled || self.old.has_ended } }
    {
        self.read_in = round;
        self.maybe_more = filled || self.has_ended;
    }

    /// The system was asked, and had nothing.
    pub fn had_none(&mut self, round: u64)
        ensures { self.new ≡ record self.old { read_in = round; maybe_more = self.old.has_ended } }
    {
        self.read_in = round;
        self.maybe_more = self.has_ended;
    }

    /// The end was read, or an error.
    pub fn finish(&mut self) {
        self.maybe_more = false;
        self.has_ended = false;
    }
}
