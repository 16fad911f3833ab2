//! The last reading of both clocks, and which looks at it read them anew.

ghost use Rattle.std.specs.Prelude.{◌≡◌, ◌≢◌, ◌≤◌, ◌<◌, ◌⊎◌, ◌+◌, ◌-◌, ◌^◌, ◌%◌, ◌↔◌, IsTrue};
ghost use Rattle.std.specs.Bool.{OnTrue, OnFalse};
ghost use Rattle.world_ports.specs.Causes.{next_count};
ghost use Rattle.unix_world.specs.Rounds.{Asks, AsksTick, IsDated, IsOver, IsSameTick, Looks};

use crate::clock::{last_tick, seconds};
use std::time::Clock;
use world_ports::Moment;

// The reading is dated anew after so many looks at it,
const MOST_LOOKS: u32 = 64;

// or so many milliseconds, whichever is first.
const MOST_MILLIS: u64 = 10;

// A round is long once it has lasted so many milliseconds: each port is written once in it then.
const LONG_MILLIS: u64 = 10;

/// The last reading of both clocks. It is dated by the kernel's tick, which is asked for at the first look of a round,
/// at every other one from the third on, and at the 64th. The clocks are read where the first or the 64th look, or 10
/// milliseconds, make the reading too old, unless the tick is still that of the reading.
#[derive(Drop)]
pub struct Clocks {
    moment: Moment,
    // The round in which the reading was dated, the looks since, and the kernel's tick then.
    dated_in: u64,
    looks: u32,
    dated_at: Option<u64>,
    // The kernel's tick at the first look of that round, and the last round that was found to be long.
    began_at: Option<u64>,
    long_in: u64,
    // The kernel's tick as it was last told, how often it was asked for, and how often the clocks were read.
    tick: Option<u64>,
    asks: u64,
    readings: u64,
}

// Whether so many milliseconds are over since a tick. Where the system has no such clock they are.
#[inline(always)]
fn is_over(millis: u64, then: Option<u64>, now: Option<u64>) -> bool
    ensures { IsTrue result ↔ IsOver millis then now }
{
    match (then, now) {
        (Some(then), Some(now)) => now.saturating_sub(then) >= millis,
        _ => true,
    }
}

// Whether it is still the same tick.
#[inline(always)]
fn is_same_tick(then: Option<u64>, now: Option<u64>) -> bool
    ensures { IsTrue result ↔ IsSameTick then now }
{
    match (then, now) {
        (Some(then), Some(now)) => then == now,
        _ => false,
    }
}

impl Clocks {
    /// Before the first look.
    pub fn new() -> Clocks
        ensures { result.moment.mono ≡ 0 }
    {
        Clocks {
            moment: Moment { mono: 0, wall: 0 },
            dated_in: 0,
            looks: 0,
            dated_at: None,
            began_at: None,
            long_in: 0,
            tick: None,
            asks: 0,
            readings: 0,
        }
    }

    /// Whether the round was found to have lasted 10 milliseconds.
    #[inline(always)]
    pub fn is_long(&self, round: u64) -> bool
        ensures { IsTrue result ↔ (self.now.long_in ≡ round) }
    {
        self.long_in == round
    }

    // Whether this look asks for the kernel's tick.
    #[inline(always)]
    fn asks_tick(&self, round: u64) -> bool
        ensures { IsTrue result ↔ Asks round self.now }
    {
        self.dated_in != round
            || self.looks >= MOST_LOOKS - 1
            || (self.looks >= 2 && self.looks % 2 == 0)
    }

    /// What both clocks show, no older than they may be.
    #[inline(always)]
    pub fn look<R: Clock>(&mut self, rt: &R, round: u64) -> Moment
        ensures moment { result ≡ self.new.moment }
        ensures later { self.old.moment.mono ≤ self.new.moment.mono }
        ensures looked { Looks round self.old self.new }
    {
        if self.asks_tick(round) {
            self.ask_tick(rt, round);
        } else {
            self.looks += 1;
        }
        self.moment
    }

    // Asks for the kernel's tick, which tells whether the round is long, and whether the reading is too old.
    #[inline(never)]
    fn ask_tick<R: Clock>(&mut self, rt: &R, round: u64)
        ensures later { self.old.moment.mono ≤ self.new.moment.mono }
        ensures asked { AsksTick round self.old self.new }
    {
        self.tick = last_tick();
        self.asks = self.asks.saturating_add(1);
        if self.dated_in != round {
            self.dated_in = round;
            self.began_at = self.tick;
        } else {
            if is_over(LONG_MILLIS, self.began_at, self.tick) {
                self.long_in = round;
            }
            if self.looks < MOST_LOOKS - 1 && !is_over(MOST_MILLIS, self.dated_at, self.tick) {
                self.looks += 1;
                return;
            }
        }
        self.date(rt);
    }

    // Dates the reading by the tick. Where that isn't the reading's, the clocks are read.
    fn date<R: Clock>(&mut self, rt: &R)
        ensures later { self.old.moment.mono ≤ self.new.moment.mono }
        ensures dated { IsDated self.old.dated_in self.old self.new }
        ensures kept { self.new ≡ record self.old {
          moment = self.new.moment;
          looks = 0;
          dated_at = self.old.tick;
          readings = self.new.readings;
        } }
    {
        let is_same = is_same_tick(self.dated_at, self.tick);
        self.looks = 0;
        self.dated_at = self.tick;
        if !is_same {
            self.read(rt);
        }
    }

    // Reads both clocks. The monotonic one counts as never falling.
    fn read<R: Clock>(&mut self, rt: &R)
        ensures later { self.old.moment.mono ≤ self.new.moment.mono }
        ensures read { self.new ≡ record self.old { moment = self.new.moment; readings = next_count self.old.readings } }
    {
        self.readings = self.readings.saturating_add(1);
        if let Some(mono) = seconds(rt) {
            self.moment.mono = self.moment.mono.max(mono);
        }
        if let Ok(wall) = rt.since_1970() {
            self.moment.wall = wall.as_secs();
        }
    }
}
