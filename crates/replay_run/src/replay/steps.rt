//! What single lines ask for: those of the clock, of ports, and of jobs.

ghost use Rattle.std.specs.Prelude.{◌≡◌, ◌+◌, ◌<◌, ◌≤◌, ◌++◌, IsSome, None, OnOk};
ghost use Rattle.std.specs.List.{flat_map};
ghost use Rattle.agent_core.specs.Happenings.{happening};
ghost use Rattle.agent_model.specs.State.{Fits, find_port, find_to_start, starts};
ghost use Rattle.replay_run.specs.Counts.{IsCounted};
ghost use Rattle.schedule_text.specs.declared.fault.LineFault.TheVariants.{Order};
ghost use Rattle.replay_run.specs.Replay.{at_peer, brought_turned, happens, if_found, longest_schedule, skips, step_brings};
ghost use Rattle.schedule_text.specs.declared.step.Step.TheVariants.{At, Format2, Free, Hold, Take};

use crate::replay::Replay;
use crate::watch::{Watch, is_among};
use agent_core::{Agent, Event};
use schedule_text::LineFault;
use std::alloc::AllocError;
use world_ports::Moment;

impl Replay {
    // The schedule is of format 2, where this is its first line.
    pub(crate) fn set_format<W: Watch>(
        &mut self,
        size: u64,
        watch: &mut W,
    ) -> Result<(), AllocError>
        requires counted { IsCounted self.old }
        requires within { self.old.read + size ≤ longest_schedule }
        ensures run { OnOk result (self.new
            ≡ (brought_turned (step_brings Format2 self.old) size self.old).run) }
        ensures notes { OnOk result (W.notes watch.new ≡ W.notes watch.old
            ++ flat_map W.notes_of
            (brought_turned (step_brings Format2 self.old) size self.old).told) }
    {
        if self.line != 0 {
            return self.refuse(LineFault::Word, watch);
        }
        self.agent = Agent::new(self.alloc, self.settings);
        self.skip(size);
        Ok(())
    }

    // From here on events come at this moment. The agent is told at once, and which ports it closed is kept for the next
    // line.
    pub(crate) fn set_moment<W: Watch>(
        &mut self,
        moment: Moment,
        size: u64,
        watch: &mut W,
    ) -> Result<(), AllocError>
        requires counted { IsCounted self.old }
        requires some { 0 < size }
        requires within { self.old.read + size ≤ longest_schedule }
        ensures run { OnOk result (self.new
            ≡ (brought_turned (step_brings (At moment) self.old) size self.old).run) }
        ensures notes { OnOk result (W.notes watch.new ≡ W.notes watch.old
            ++ flat_map W.notes_of
            (brought_turned (step_brings (At moment) self.old) size self.old).told) }
    {
        self.moment = moment;
        let line = self.line + 1;
        watch.step(self.alloc, &mut self.agent, line, moment, &Event::Tick)?;
        let closed = Vec::from_slice(self.alloc, self.agent.closes())?;
        self.end_turn(size, watch)?;
        self.closed = closed;
        Ok(())
    }

    // From here on the port takes bytes only by `take`.
    pub(crate) fn hold<W: Watch>(
        &mut self,
        port: u64,
        size: u64,
        watch: &mut W,
    ) -> Result<(), AllocError>
        requires counted { IsCounted self.old }
        requires within { self.old.read + size ≤ longest_schedule }
        ensures run { OnOk result (self.new
            ≡ (brought_turned (step_brings (Hold port) self.old) size self.old).run) }
        ensures notes { OnOk result (W.notes watch.new ≡ W.notes watch.old
            ++ flat_map W.notes_of
            (brought_turned (step_brings (Hold port) self.old) size self.old).told) }
    {
        if !self.agent.is_port(port) {
            return self.refuse(LineFault::UnknownPort, watch);
        }
        self.held.hold(port)?;
        self.end_turn(size, watch)
    }

    // The port takes all again.
    pub(crate) fn free<W: Watch>(
        &mut self,
        port: u64,
        size: u64,
        watch: &mut W,
    ) -> Result<(), AllocError>
        requires counted { IsCounted self.old }
        requires within { self.old.read + size ≤ longest_schedule }
        ensures run { OnOk result (self.new
            ≡ (brought_turned (step_brings (Free port) self.old) size self.old).run) }
        ensures notes { OnOk result (W.notes watch.new ≡ W.notes watch.old
            ++ flat_map W.notes_of
            (brought_turned (step_brings (Free port) self.old) size self.old).told) }
    {
        if !self.agent.is_port(port) {
            return self.refuse(LineFault::UnknownPort, watch);
        }
        self.held.free(port);
        self.end_turn(size, watch)
    }

    // The port takes so many bytes, where it is open and owed them.
    pub(crate) fn take<W: Watch>(
        &mut self,
        port: u64,
        count: u64,
        size: u64,
        watch: &mut W,
    ) -> Result<(), AllocError>
        requires counted { IsCounted self.old }
        requires some { 0 < size }
        requires within { self.old.read + size ≤ longest_schedule }
        requires count { 0 < count }
        ensures run { OnOk result (self.new
            ≡ (brought_turned (step_brings (Take port count) self.old) size self.old).run) }
        ensures notes { OnOk result (W.notes watch.new ≡ W.notes watch.old
            ++ flat_map W.notes_of
            (brought_turned (step_brings (Take port count) self.old) size self.old).told) }
    {
        if !self.agent.is_port(port) {
            return self.miss(port, size, watch);
        }
        if count > self.agent.owed(port).len() as u64 {
            return self.refuse(LineFault::Order, watch);
        }
        let event = Event::Took {
            port,
            count: count as usize,
        };
        self.happen(&event, size, watch)
    }

    // The event of a port, where that one is open.
    pub(crate) fn happen_at<W: Watch>(
        &mut self,
        port: u64,
        event: &Event<'_>,
        size: u64,
        watch: &mut W,
    ) -> Result<(), AllocError>
        requires counted { IsCounted self.old }
        requires some { 0 < size }
        requires within { self.old.read + size ≤ longest_schedule }
        requires fits { IsSome (find_port port self.old.agent.ports) →
            Fits (happening event.now) self.old.agent }
        ensures run { OnOk result (self.new
            ≡ (brought_turned (at_peer (find_port port self.old.agent.ports) port
            (happens (happening event.now) self.old) self.old) size self.old).run) }
        ensures notes { OnOk result (W.notes watch.new ≡ W.notes watch.old
            ++ flat_map W.notes_of
            (brought_turned (at_peer (find_port port self.old.agent.ports) port
            (happens (happening event.now) self.old) self.old) size self.old).told) }
    {
        if !self.agent.is_port(port) {
            return self.miss(port, size, watch);
        }
        self.happen(event, size, watch)
    }

    // A port that isn't open hears, ends and takes nothing. The line is refused, unless the moment of the line before
    // closed the port.
    fn miss<W: Watch>(&mut self, port: u64, size: u64, watch: &mut W) -> Result<(), AllocError>
        requires counted { IsCounted self.old }
        requires within { self.old.read + size ≤ longest_schedule }
        ensures run { OnOk result (self.new
            ≡ (brought_turned (at_peer None port (skips self.old) self.old) size self.old).run) }
        ensures notes { OnOk result (W.notes watch.new ≡ W.notes watch.old
            ++ flat_map W.notes_of
            (brought_turned (at_peer None port (skips self.old) self.old) size self.old).told) }
    {
        if !self.closed.contains(&port) {
            return self.refuse(LineFault::UnknownPort, watch);
        }
        self.skip(size);
        Ok(())
    }

    // The event of a job, where that one waits to be started.
    pub(crate) fn happen_to<W: Watch>(
        &mut self,
        job: u64,
        event: &Event<'_>,
        size: u64,
        watch: &mut W,
    ) -> Result<(), AllocError>
        requires counted { IsCounted self.old }
        requires some { 0 < size }
        requires within { self.old.read + size ≤ longest_schedule }
        requires fits { IsSome (find_to_start job (starts self.old.agent)) →
            Fits (happening event.now) self.old.agent }
        ensures run { OnOk result (self.new
            ≡ (brought_turned (if_found (find_to_start job (starts self.old.agent)) Order
            (happens (happening event.now) self.old)) size self.old).run) }
        ensures notes { OnOk result (W.notes watch.new ≡ W.notes watch.old
            ++ flat_map W.notes_of
            (brought_turned (if_found (find_to_start job (starts self.old.agent)) Order
            (happens (happening event.now) self.old)) size self.old).told) }
    {
        if !is_among(self.agent.starts(), job) {
            return self.refuse(LineFault::Order, watch);
        }
        self.happen(event, size, watch)
    }
}
