//! What a recorder writes for each call on its world, until its sink fails, passphrases have no room or memory
//! runs out.

ghost use Rattle.std.specs.Prelude.{◌≡◌, ◌++◌, ◌||◌, ◌&&◌, ℕ, List, Option, OnErr, OnOk, false, true, is_err, not, []};
ghost use Rattle.std.specs.Io.KnownBytes.{Appends};
ghost use Rattle.world_ports.specs.Causes.{HasCause};
ghost use Rattle.world_ports.specs.Streams.{OnlyWrites, StreamView, WritesPart};
ghost use Rattle.world_ports.specs.declared.Door.{Door};
ghost use Rattle.world_ports.specs.declared.answers.Ready.{Ready};
ghost use Rattle.world_ports.specs.declared.entry.Entry.TheVariants as entry;
ghost use Rattle.world_ports.specs.Journal.{is_short};
ghost use Rattle.record_world.specs.Leads.{Puts, Says, SaysIf, WritesOf, taped};
ghost use Rattle.schedule_text.specs.declared.step.Step.TheVariants as steps;
ghost use Rattle.schedule_text.specs.Steps.{step_line};
ghost use Rattle.record_world.specs.Recording.{first_recording, only, with_due};

use crate::line::{Line, put_at, put_due};
use crate::notes::Notes;
use redact_core::RedactFault;
use std::alloc::{AllocError, Global};
use std::mem;
use world_ports::{
    Accepted, Door, Fault, Got, Job, Moment, Polled, Sink, WorldFault, Wrote, write_all,
};

/// The first line of a record.
const FORMAT: &[u8] = b"schedule 2\n";

/// What is said where a write of the record failed.
const UNWRITTEN: &[u8] = b"mortarleek: the record can't be written: nothing more is recorded\n";

/// What is said where the passphrases that came have no room.
const NO_ROOM: &[u8] =
    b"mortarleek: no room for more passphrases that were tried: nothing more is recorded\n";

/// What a recorder keeps between two calls: whether the record broke, whether memory ran out, and notes. After either it
/// writes nothing more.
#[derive(Drop)]
pub struct Tape {
    pub(crate) is_broken: bool,
    pub(crate) is_short: bool,
    // Memory ran out behind the last call on the inner world: the next call answers so.
    owes: bool,
    pub(crate) notes: Notes,
}

// Whether the call wanted memory.
fn is_short<T>(answer: &Result<T, WorldFault>) -> bool
    ensures { result ≡ is_short answer.now }
{
    matches!(answer, Err(WorldFault::Memory))
}

// Writes one text and then another.
#[tactic(auto, using(crate::proofs::LeadsLemmas::part_longer, crate::proofs::LeadsLemmas::part_behind_err))]
fn write_both<O: Sink>(out: &mut O, first: &[u8], second: &[u8]) -> Result<(), Fault>
    ensures ok { OnOk result
        (Appends (O.seen out.old).written (O.seen out.new).written (first.now ++ second.now)) }
    ensures err { OnErr result
        (WritesPart (first.now ++ second.now) (O.seen out.old) (O.seen out.new)) }
    ensures cause { HasCause (O.seen out.old).write_faults (O.seen out.new).write_faults result }
    ensures only { OnlyWrites (O.seen out.old) (O.seen out.new) }
{
    write_all(out, first)?;
    write_all(out, second)
}

// Writes one text and then another; tells whether the sink failed.
fn put<O: Sink>(out: &mut O, first: &[u8], second: &[u8]) -> bool
    ensures { Puts (first.now ++ second.now) (O.seen out.old) (O.seen out.new) result }
{
    write_both(out, first, second).is_err()
}

// Says why nothing more is recorded. That it can't be said is no fault of the record.
#[tactic(auto, using(crate::proofs::LeadsLemmas::said_once))]
fn say<E: Sink>(errors: &mut E, line: &[u8])
    ensures { Says line.now (E.seen errors.old) (E.seen errors.new) }
{
    put(errors, line, &[]);
}

// Writes one text and then another; tells whether the sink failed, and then says so.
fn put_or_say<O: Sink, E: Sink>(out: &mut O, errors: &mut E, first: &[u8], second: &[u8]) -> bool
    ensures puts { Puts (first.now ++ second.now) (O.seen out.old) (O.seen out.new) result }
    ensures says { SaysIf result (E.seen errors.old) (E.seen errors.new) }
{
    let failed = put(out, first, second);
    if failed {
        say(errors, UNWRITTEN);
    }
    failed
}

impl Tape {
    /// An empty one. Takes no memory.
    pub fn new(alloc: Global) -> Tape
        ensures broken { result.is_broken ≡ false }
        ensures short { result.is_short ≡ false }
        ensures notes { result.notes ≡ first_recording }
    {
        Tape {
            is_broken: false,
            is_short: false,
            owes: false,
            notes: Notes::new(alloc),
        }
    }

    /// Whether the call is to answer that memory ran out: where it ran out behind the last one, and where the calls are
    /// to end with what is written.
    pub(crate) fn refuses(&mut self, or_stop: bool) -> bool
        ensures kept { self.new ≡ record self.old { owes = false } }
        ensures value { result ≡ (self.old.owes || (or_stop && (self.old.is_broken || self.old.is_short))) }
    {
        let owes = mem::take(&mut self.owes);
        owes || (or_stop && (self.is_broken || self.is_short))
    }

    // Whether a call is to be recorded, by whether it wanted memory: then nothing is any more.
    fn records(&mut self, wants_memory: bool) -> bool
        ensures kept { self.new ≡ record self.old { is_short = self.old.is_short || wants_memory } }
        ensures value { result ≡ not (self.old.is_broken || (self.old.is_short || wants_memory)) }
    {
        self.is_short = self.is_short || wants_memory;
        !(self.is_broken || self.is_short)
    }

    // Memory ran out behind a call on the inner world.
    fn run_out(&mut self)
        ensures { self.new ≡ record self.old { is_short = true; owes = true } }
    {
        self.is_short = true;
        self.owes = true;
    }

    /// Whether memory for one connection more is missing: then nothing is recorded any more.
    pub(crate) fn lacks_place(&mut self) -> bool
        ensures { self.new ≡ record self.old { is_short = self.old.is_short || result } }
    {
        let lacks = !self.is_broken && !self.is_short && self.notes.make_place().is_err();
        self.is_short = self.is_short || lacks;
        lacks
    }

    /// The same for so many bytes of a connection.
    pub(crate) fn lacks_room(&mut self, port: u64, room: usize) -> bool
        ensures { self.new ≡ record self.old { is_short = self.old.is_short || result } }
    {
        let lacks = !self.is_broken && !self.is_short && self.notes.make_room(port, room).is_err();
        self.is_short = self.is_short || lacks;
        lacks
    }

    /// A bind was answered so.
    #[tactic(auto, using(crate::proofs::LeadsLemmas::written_by))]
    pub(crate) fn bind<O: Sink, E: Sink>(
        &mut self,
        out: &mut O,
        errors: &mut E,
        answer: &Result<(), WorldFault>,
    )
        ensures wrote { (door : Door) (path : List ℕ) → WritesOf (is_short answer.now) (entry.Bind door path answer.now)
            (taped (O.seen out.old) (E.seen errors.old) self.old.is_broken self.old.is_short self.old.notes)
            (taped (O.seen out.new) (E.seen errors.new) self.new.is_broken self.new.is_short self.new.notes) }
        ensures short { self.new.is_short ≡ (self.old.is_short || is_short answer.now) }
    {
        if self.records(is_short(answer)) && self.notes.bind() {
            self.is_broken = put_or_say(out, errors, FORMAT, &[]);
        }
    }

    /// A poll was answered so.
    pub(crate) fn poll(&mut self, answer: &Result<Polled, WorldFault>)
        ensures wrote { (sink errors : StreamView) (wait : Option ℕ) (items : List Ready) → WritesOf (is_short answer.now) (entry.Poll wait items answer.now)
            (taped sink errors self.old.is_broken self.old.is_short self.old.notes)
            (taped sink errors self.new.is_broken self.new.is_short self.new.notes) }
        ensures short { self.new.is_short ≡ (self.old.is_short || is_short answer.now) }
    {
        if self.records(is_short(answer)) {
            self.notes.pass();
        }
    }

    /// An accept at this door was answered so.
    pub(crate) fn accept(&mut self, door: Door, answer: &Result<Accepted, WorldFault>)
        ensures wrote { (sink errors : StreamView) → WritesOf (is_short answer.now) (entry.Accept door answer.now)
            (taped sink errors self.old.is_broken self.old.is_short self.old.notes)
            (taped sink errors self.new.is_broken self.new.is_short self.new.notes) }
        ensures short { self.new.is_short ≡ true
            → ((self.old.is_short || is_short answer.now) || self.new.owes) ≡ true }
    {
        if self.records(is_short(answer)) {
            match *answer {
                Ok(Accepted::Port(number)) => {
                    if self.notes.join(door, number).is_err() {
                        self.run_out();
                    }
                }
                _ => self.notes.pass(),
            }
        }
    }

    /// A read of a port brought these bytes, or was answered so.
    pub(crate) fn read<E: Sink>(
        &mut self,
        errors: &mut E,
        port: u64,
        bytes: &[u8],
        answer: &Result<Got, WorldFault>,
    )
        ensures wrote { (sink : StreamView) (room : ℕ) → WritesOf (is_short answer.now) (entry.Read port room bytes.now answer.now)
            (taped sink (E.seen errors.old) self.old.is_broken self.old.is_short self.old.notes)
            (taped sink (E.seen errors.new) self.new.is_broken self.new.is_short self.new.notes) }
        ensures short { self.new.is_short ≡ true
            → ((self.old.is_short || is_short answer.now) || self.new.owes) ≡ true }
    {
        if self.records(is_short(answer)) {
            match *answer {
                Ok(Got::Bytes(_)) => match self.notes.hear(port, bytes) {
                    Ok(()) => {}
                    Err(RedactFault::Full) => {
                        self.is_broken = true;
                        say(errors, NO_ROOM);
                    }
                    Err(RedactFault::Memory) => self.run_out(),
                },
                Ok(Got::End) | Err(_) => self.notes.end(port),
                Ok(Got::NotNow) => self.notes.pass(),
            }
        }
    }

    /// A write to a port was answered so.
    pub(crate) fn write(&mut self, port: u64, answer: &Result<Wrote, WorldFault>)
        ensures wrote { (sink errors : StreamView) (offered : List ℕ) → WritesOf (is_short answer.now) (entry.Write port offered answer.now)
            (taped sink errors self.old.is_broken self.old.is_short self.old.notes)
            (taped sink errors self.new.is_broken self.new.is_short self.new.notes) }
        ensures short { self.new.is_short ≡ (self.old.is_short || is_short answer.now) }
    {
        if self.records(is_short(answer)) {
            match *answer {
                Ok(Wrote::Took(count)) => self.notes.take(port, count),
                Ok(Wrote::NotNow) => self.notes.pass(),
                Err(_) => self.notes.end(port),
            }
        }
    }

    /// A close of a port was answered so.
    pub(crate) fn close(&mut self, port: u64, answer: &Result<(), AllocError>)
        ensures wrote { (sink errors : StreamView) → WritesOf (is_err answer.now) (entry.Close port answer.now)
            (taped sink errors self.old.is_broken self.old.is_short self.old.notes)
            (taped sink errors self.new.is_broken self.new.is_short self.new.notes) }
        ensures short { self.new.is_short ≡ (self.old.is_short || is_err answer.now) }
    {
        if self.records(answer.is_err()) {
            self.notes.close(port);
        }
    }

    /// A start of a child process was answered so.
    pub(crate) fn start(&mut self, job: Job, answer: &Result<[u8; 16], WorldFault>)
        ensures wrote { (sink errors : StreamView) → WritesOf (is_short answer.now) (entry.Start job answer.now)
            (taped sink errors self.old.is_broken self.old.is_short self.old.notes)
            (taped sink errors self.new.is_broken self.new.is_short self.new.notes) }
        ensures short { self.new.is_short ≡ (self.old.is_short || is_short answer.now) }
    {
        if self.records(is_short(answer)) {
            match *answer {
                Ok(ticket) => self.notes.start(job.number, ticket),
                Err(_) => self.notes.fail(job.number),
            }
        }
    }

    /// A reading of the clocks was answered so.
    pub(crate) fn now<O: Sink, E: Sink>(
        &mut self,
        out: &mut O,
        errors: &mut E,
        answer: &Result<Moment, AllocError>,
    )
        ensures wrote { WritesOf (is_err answer.now) (entry.Now answer.now)
            (taped (O.seen out.old) (E.seen errors.old) self.old.is_broken self.old.is_short self.old.notes)
            (taped (O.seen out.new) (E.seen errors.new) self.new.is_broken self.new.is_short self.new.notes) }
        ensures short { self.new.is_short ≡ (self.old.is_short || is_err answer.now) }
    {
        if self.records(answer.is_err())
            && let Ok(moment) = *answer
        {
            self.tell(out, errors, moment);
        }
    }

    // Writes the line of a moment, and what waited for it.
    fn tell<O: Sink, E: Sink>(&mut self, out: &mut O, errors: &mut E, moment: Moment)
        ensures short { self.new.is_short ≡ self.old.is_short }
        ensures notes { self.new.notes ≡ with_due (only [] self.old.notes) }
        ensures puts { Puts (step_line (steps.At moment) ++ self.old.notes.due)
            (O.seen out.old) (O.seen out.new) self.new.is_broken }
        ensures says { SaysIf self.new.is_broken (E.seen errors.old) (E.seen errors.new) }
    {
        let mut line = Line::new();
        put_at(&mut line, moment);
        let (due, hearing) = self.notes.due();
        put_due(&mut line, due);
        self.is_broken = put_or_say(out, errors, line.as_slice(), hearing);
        self.notes.pass();
    }
}
