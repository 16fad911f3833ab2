//! A world over another that records the calls on it.

ghost use Rattle.std.specs.Prelude.{◌≡◌, false, if◌then◌else◌, length};
ghost use Rattle.std.proofs.Common.{◌∙◌, refl};
ghost use Rattle.world_ports.specs.Journal.{got_of};
ghost use Rattle.world_ports.specs.Worlds.{GotWithin};
ghost use Rattle.record_world.specs.Leads.{Leads, taped};
ghost use Rattle.record_world.specs.Recording.{first_recording};
ghost use Rattle.record_world.specs.Orders.{leads-same, leads-twice};

use crate::Tape;
use std::alloc::AllocError;
use world_ports::{
    Accepted, Door, Got, Job, Moment, Polled, Ready, Sink, World, WorldFault, Wrote,
};

/// A world that makes each call on the world it borrows, hands its answer on, and writes the lines of
/// a schedule of format 2 to the sink it borrows.
///
/// Where the sink failed, or passphrases came that take too much room, it says which in one line to the second sink
/// that it borrows, and writes nothing more, and the calls go on, or with `or_stop` each answers that memory ran out,
/// and none is made. Where memory of its own runs out, a call answers so; from there on it writes nothing more either.
/// It asks for memory of its own in `accept` and `read` alone.
#[derive(Drop)]
pub struct Recorder<'w, W: World, O: Sink, E: Sink> {
    inner: &'w mut W,
    out: &'w mut O,
    errors: &'w mut E,
    tape: &'w mut Tape,
    or_stop: bool,
}

impl<'w, W: World, O: Sink, E: Sink> Recorder<'w, W, O, E> {
    /// A recorder of the calls from here on, with a new tape; by `or_stop` they end with what is written. Takes no
    /// memory.
    pub fn new(
        inner: &'w mut W,
        out: &'w mut O,
        errors: &'w mut E,
        tape: &'w mut Tape,
        or_stop: bool,
    ) -> Recorder<'w, W, O, E>
        requires ports { W.last_port inner.old ≡ 0 }
        requires empty { taped (O.seen out.old) (E.seen errors.old) tape.old.is_broken tape.old.is_short tape.old.notes
            ≡ taped (O.seen out.old) (E.seen errors.old) false false first_recording }
        ensures world { result.inner.ghost_name ≡ inner.entry.ghost_name }
        ensures world_value { result.inner.now ≡ inner.old }
        ensures sink { result.out.ghost_name ≡ out.entry.ghost_name }
        ensures errors { result.errors.ghost_name ≡ errors.entry.ghost_name }
        ensures first { taped (O.seen result.out.now) (E.seen result.errors.now) result.tape.now.is_broken
            result.tape.now.is_short result.tape.now.notes
            ≡ taped (O.seen out.old) (E.seen errors.old) false false first_recording }
        ensures or_stop { result.or_stop ≡ or_stop }
    {
        Recorder {
            inner,
            out,
            errors,
            tape,
            or_stop,
        }
    }

    /// Whether the sink failed, or the passphrases that came take too much room.
    pub fn broken(&self) -> bool
        ensures { result ≡ self.now.tape.now.is_broken }
    {
        self.tape.is_broken
    }

    /// Whether the calls end with what is written: where the record broke, by `or_stop`, else where memory ran out in a
    /// call, which answered so or whose next one will.
    pub fn ended(&self) -> bool
        ensures { result ≡ (if self.now.tape.now.is_broken then self.now.or_stop else self.now.tape.now.is_short) }
    {
        if self.tape.is_broken {
            self.or_stop
        } else {
            self.tape.is_short
        }
    }
}

impl<'w, W: World, O: Sink, E: Sink> World for Recorder<'w, W, O, E> {
    ghost journal = { λ r. W.journal r.inner.now };

    ghost faults = { λ r. W.faults r.inner.now };

    ghost last_port = { λ r. W.last_port r.inner.now };

    ghost greatest = { λ r. W.greatest r.inner.now };

    ghost leads = { λ x y. (y.inner.ghost_name ≡ x.inner.ghost_name) × (y.out.ghost_name ≡ x.out.ghost_name)
        × (y.errors.ghost_name ≡ x.errors.ghost_name)
        × W.leads x.inner.now y.inner.now
        × Leads x.or_stop (W.journal x.inner.now) (W.journal y.inner.now)
        (taped (O.seen x.out.now) (E.seen x.errors.now) x.tape.now.is_broken x.tape.now.is_short x.tape.now.notes)
        (taped (O.seen y.out.now) (E.seen y.errors.now) y.tape.now.is_broken y.tape.now.is_short y.tape.now.notes)
        × (y.or_stop ≡ x.or_stop) };

    ghost stays = { λ x. (
      refl,
      refl,
      refl,
      W.stays x.inner.now,
      leads-same x.or_stop (W.journal x.inner.now)
          (taped (O.seen x.out.now) (E.seen x.errors.now) x.tape.now.is_broken x.tape.now.is_short x.tape.now.notes),
      refl,
    ) };

    ghost goes_on = { λ x y z p q. (
      q.0 ∙ p.0,
      q.1 ∙ p.1,
      q.2 ∙ p.2,
      W.goes_on x.inner.now y.inner.now z.inner.now p.3 q.3,
      leads-twice x.or_stop y.or_stop (W.journal x.inner.now) (W.journal y.inner.now) (W.journal z.inner.now)
          (taped (O.seen x.out.now) (E.seen x.errors.now) x.tape.now.is_broken x.tape.now.is_short x.tape.now.notes)
          (taped (O.seen y.out.now) (E.seen y.errors.now) y.tape.now.is_broken y.tape.now.is_short y.tape.now.notes)
          (taped (O.seen z.out.now) (E.seen z.errors.now) z.tape.now.is_broken z.tape.now.is_short z.tape.now.notes)
          p.5 p.4 q.4,
      q.5 ∙ p.5,
    ) };

    fn bind(&mut self, door: Door, path: &str) -> Result<(), WorldFault> {
        if self.tape.refuses(self.or_stop) {
            return Err(WorldFault::Memory);
        }
        let answer = self.inner.bind(door, path);
        self.tape.bind(self.out, self.errors, &answer);
        answer
    }

    fn poll(&mut self, wait: Option<u64>, out: &mut Vec<Ready>) -> Result<Polled, WorldFault> {
        if self.tape.refuses(self.or_stop) {
            return Err(WorldFault::Memory);
        }
        let answer = self.inner.poll(wait, out);
        self.tape.poll(&answer);
        answer
    }

    fn accept(&mut self, door: Door) -> Result<Accepted, WorldFault> {
        if self.tape.refuses(self.or_stop) {
            return Err(WorldFault::Memory);
        }
        if self.tape.lacks_place() {
            return Err(WorldFault::Memory);
        }
        let answer = self.inner.accept(door);
        self.tape.accept(door, &answer);
        answer
    }

    fn read(&mut self, port: u64, room: &mut [u8]) -> Result<Got, WorldFault> {
        if self.tape.refuses(self.or_stop) {
            return Err(WorldFault::Memory);
        }
        if self.tape.lacks_room(port, room.len()) {
            return Err(WorldFault::Memory);
        }
        let answer = self.inner.read(port, room);
        self.tape
            .read(self.errors, port, got(&answer, room), &answer);
        answer
    }

    fn write(&mut self, port: u64, bytes: &[u8]) -> Result<Wrote, WorldFault> {
        if self.tape.refuses(self.or_stop) {
            return Err(WorldFault::Memory);
        }
        let answer = self.inner.write(port, bytes);
        self.tape.write(port, &answer);
        answer
    }

    fn close(&mut self, port: u64) -> Result<(), AllocError> {
        if self.tape.refuses(self.or_stop) {
            return Err(AllocError);
        }
        let answer = self.inner.close(port);
        self.tape.close(port, &answer);
        answer
    }

    fn start(&mut self, job: Job) -> Result<[u8; 16], WorldFault> {
        if self.tape.refuses(self.or_stop) {
            return Err(WorldFault::Memory);
        }
        let answer = self.inner.start(job);
        self.tape.start(job, &answer);
        answer
    }

    fn now(&mut self) -> Result<Moment, AllocError> {
        if self.tape.refuses(self.or_stop) {
            return Err(AllocError);
        }
        let answer = self.inner.now();
        self.tape.now(self.out, self.errors, &answer);
        answer
    }
}

// The bytes that a read brought: the front of the room, or none.
fn got<'r>(answer: &Result<Got, WorldFault>, room: &'r [u8]) -> &'r [u8]
    requires { GotWithin answer.now (length room.now) }
    ensures { result.now ≡ got_of answer.now room.now }
{
    match *answer {
        Ok(Got::Bytes(count)) => &room[..count as usize],
        _ => &[],
    }
}
