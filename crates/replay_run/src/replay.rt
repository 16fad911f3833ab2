//! A run of a schedule, a line at a time.

ghost use Rattle.std.specs.Prelude.{◌≡◌, ◌≢◌, ◌+◌, ◌<◌, ◌≤◌, ◌++◌, ◌^◌, OnOk};
ghost use Rattle.std.specs.List.{flat_map};
ghost use Rattle.agent_core.specs.Happenings.{happening};
ghost use Rattle.agent_core.specs.Parts.{settings_of};
ghost use Rattle.agent_model.specs.State.{Fits};
ghost use Rattle.schedule_text.specs.Steps.{SaysSome};
ghost use Rattle.replay_run.specs.Counts.{IsCounted};
ghost use Rattle.replay_run.specs.Replay.{brought_turned, happens, longest_schedule, refuse, settles, skips, start_run, step_brings, turned};

mod steps;

use crate::held::Held;
use crate::limits::LONGEST_SCHEDULE;
use crate::settle::settle;
use crate::watch::Watch;
use agent_core::{Agent, Event, Settings};
use schedule_text::{LineFault, Step, read_line};
use std::alloc::{AllocError, Global};
use std::marker::Model;
use world_ports::Moment;

/// The agent, the moment of its events, the ports that the last line closed by its moment, the held ports, and how far the
/// schedule was run.
#[derive(Drop)]
pub struct Replay {
    alloc: Global,
    settings: Settings,
    agent: Agent,
    moment: Moment,
    closed: Vec<u64>,
    held: Held,
    line: u64,
    read: u64,
    refused: Option<LineFault>,
}

impl Model for Replay {
    ghost use Rattle.agent_core.specs.Parts.{settings_of};
    ghost use Rattle.replay_run.specs.Replay.{Run};

    ghost Value = { Run };

    ghost view = { λ r. record {
      settings = settings_of r.settings;
      agent = r.agent.state;
      moment = r.moment;
      closed = r.closed.items;
      held = r.held;
      line = r.line;
      read = r.read;
      refused = r.refused;
    } };
}

impl Replay {
    /// Before the first line. The limits of `settings` are those of format 2 alone.
    pub fn new(alloc: Global, settings: Settings) -> Self
        ensures { result ≡ start_run (settings_of settings) }
    {
        let unlimited = Settings {
            ask_limit: None,
            confirm_limit: None,
            ..settings
        };
        Replay {
            alloc,
            settings,
            agent: Agent::new(alloc, unlimited),
            moment: Moment { mono: 0, wall: 0 },
            closed: Vec::new(alloc),
            held: Held::new(alloc),
            line: 0,
            read: 0,
            refused: None,
        }
    }

    /// How many lines were run, the refused one among them.
    pub fn line(&self) -> u64
        ensures { result ≡ self.now.line }
    {
        self.line
    }

    /// How many bytes these lines had, without the refused one.
    pub fn read(&self) -> u64
        ensures { result ≡ self.now.read }
    {
        self.read
    }

    /// The agent that was run.
    pub fn into_agent(self) -> Agent
        ensures { result.state ≡ self.agent }
    {
        let Replay { agent, .. } = self;
        agent
    }

    /// Why the last line was refused.
    pub fn refused(&self) -> Option<LineFault>
        ensures { result ≡ self.now.refused }
    {
        self.refused
    }

    /// Runs one line, which takes `size` bytes of the schedule, its LF among them.
    pub fn turn<W: Watch>(
        &mut self,
        line: &[u8],
        size: u64,
        watch: &mut W,
    ) -> Result<(), AllocError>
        requires counted { IsCounted self.old }
        requires some { 0 < size }
        requires fits { size + self.old.read < 2 ^ 64 }
        ensures run { OnOk result (self.new ≡ (turned line.now size self.old).run) }
        ensures notes { OnOk result (W.notes watch.new ≡ W.notes watch.old
            ++ flat_map W.notes_of (turned line.now size self.old).told) }
    {
        if self.read + size > LONGEST_SCHEDULE {
            return self.refuse(LineFault::TooLong, watch);
        }
        match read_line(self.alloc, line) {
            Ok(step) => self.take_step(&step, size, watch),
            Err(fault) => self.refuse_for(fault, watch),
        }
    }

    // Does what a line asks for.
    fn take_step<W: Watch>(
        &mut self,
        step: &Step,
        size: u64,
        watch: &mut W,
    ) -> Result<(), AllocError>
        requires counted { IsCounted self.old }
        requires some { 0 < size }
        requires within { self.old.read + size ≤ longest_schedule }
        requires says { SaysSome step.now }
        ensures run { OnOk result (self.new
            ≡ (brought_turned (step_brings step.now self.old) size self.old).run) }
        ensures notes { OnOk result (W.notes watch.new ≡ W.notes watch.old
            ++ flat_map W.notes_of
            (brought_turned (step_brings step.now self.old) size self.old).told) }
    {
        match step {
            Step::Skip => {
                self.skip(size);
                Ok(())
            }
            Step::Format2 => self.set_format(size, watch),
            Step::At(moment) => self.set_moment(*moment, size, watch),
            Step::Join(door) => self.happen(&Event::Joined(*door), size, watch),
            Step::Hear { port, bytes } => {
                let piece = bytes.as_slice();
                self.happen_at(*port, &Event::Heard { port: *port, piece }, size, watch)
            }
            Step::End(port) => self.happen_at(*port, &Event::Ended { port: *port }, size, watch),
            Step::Hold(port) => self.hold(*port, size, watch),
            Step::Free(port) => self.free(*port, size, watch),
            Step::Take { port, count } => self.take(*port, *count, size, watch),
            Step::Started { job, ticket } => {
                let event = Event::Started {
                    job: *job,
                    ticket: *ticket,
                };
                self.happen_to(*job, &event, size, watch)
            }
            Step::Failed(job) => self.happen_to(
                *job,
                &Event::StartFailed { job: *job },
                size,
                watch,
            ),
        }
    }

    // The event, and the settling after it.
    fn happen<W: Watch>(
        &mut self,
        event: &Event<'_>,
        size: u64,
        watch: &mut W,
    ) -> Result<(), AllocError>
        requires counted { IsCounted self.old }
        requires some { 0 < size }
        requires within { self.old.read + size ≤ longest_schedule }
        requires fits { Fits (happening event.now) self.old.agent }
        ensures run { OnOk result (self.new
            ≡ (brought_turned (happens (happening event.now) self.old) size self.old).run) }
        ensures notes { OnOk result (W.notes watch.new ≡ W.notes watch.old
            ++ flat_map W.notes_of
            (brought_turned (happens (happening event.now) self.old) size self.old).told) }
    {
        let line = self.line + 1;
        watch.step(self.alloc, &mut self.agent, line, self.moment, event)?;
        self.end_turn(size, watch)
    }

    // Settles, and counts the line.
    fn end_turn<W: Watch>(&mut self, size: u64, watch: &mut W) -> Result<(), AllocError>
        requires lines { self.old.line ≤ longest_schedule }
        requires within { self.old.read + size ≤ longest_schedule }
        ensures run { OnOk result (self.new
            ≡ (brought_turned (settles self.old) size self.old).run) }
        ensures notes { OnOk result (W.notes watch.new ≡ W.notes watch.old
            ++ flat_map W.notes_of (brought_turned (settles self.old) size self.old).told) }
    {
        let line = self.line + 1;
        settle(
            self.alloc,
            &mut self.agent,
            line,
            self.moment,
            &self.held,
            watch,
        )?;
        self.skip(size);
        Ok(())
    }

    // Counts the line.
    fn skip(&mut self, size: u64)
        requires lines { self.old.line ≤ longest_schedule }
        requires within { self.old.read + size ≤ longest_schedule }
        ensures { self.new ≡ (brought_turned (skips self.old) size self.old).run }
    {
        self.closed.clear();
        self.line += 1;
        self.read += size;
    }

    // Refuses the next line, unless its fault only says that memory ran out.
    fn refuse_for<W: Watch>(&mut self, fault: LineFault, watch: &mut W) -> Result<(), AllocError>
        requires counted { IsCounted self.old }
        ensures fault { OnOk result (fault ≢ LineFault.Memory) }
        ensures run { OnOk result (self.new ≡ (refuse fault self.old).run) }
        ensures notes { OnOk result (W.notes watch.new ≡ W.notes watch.old
            ++ flat_map W.notes_of (refuse fault self.old).told) }
    {
        match fault {
            LineFault::Memory => Err(AllocError),
            _ => self.refuse(fault, watch),
        }
    }

    // Refuses the next line.
    pub(crate) fn refuse<W: Watch>(
        &mut self,
        fault: LineFault,
        watch: &mut W,
    ) -> Result<(), AllocError>
        requires counted { IsCounted self.old }
        requires printable { fault ≢ LineFault.Memory }
        ensures run { OnOk result (self.new ≡ (refuse fault self.old).run) }
        ensures notes { OnOk result (W.notes watch.new ≡ W.notes watch.old
            ++ flat_map W.notes_of (refuse fault self.old).told) }
    {
        self.line += 1;
        self.refused = Some(fault);
        watch.refuse(self.line, fault)
    }
}
