//! Who watches the run of a schedule: what is told of it, and the text that it prints.

ghost use Rattle.std.specs.Prelude.{◌≡◌, ◌≢◌, ◌++◌, ℕ, List, OnOk, is_some};
ghost use Rattle.std.specs.List.{flat_map};
ghost use Rattle.agent_core.specs.Happenings.{happening};
ghost use Rattle.agent_model.specs.State.{Fits, find_to_start, starts};
ghost use Rattle.replay_run.specs.Settling.{after_event, at_moment, closed_at};
ghost use Rattle.schedule_text.specs.Deeds.{close_line};
ghost use Rattle.replay_run.specs.Told.{Barred, Came, Told, start_lines, taken_lines, text_of};

use agent_core::{Agent, Event};
use schedule_text::{Deed, LineFault, put_deed};
use std::alloc::{AllocError, Global};
use world_ports::{Job, Moment};

/// Who is told of each event of a run, and notes something of it.
pub trait Watch {
    /// What is noted.
    ghost Note: { Type 0 };

    /// What is noted of one thing that is told.
    ghost notes_of: { Told → List Note };

    /// What was noted so far.
    ghost notes: { Self → List Note };

    /// An event comes at a line, counted from 1, and the agent takes it.
    fn step(
        &mut self,
        alloc: Global,
        agent: &mut Agent,
        line: u64,
        moment: Moment,
        event: &Event<'_>,
    ) -> Result<(), AllocError>
        requires { Fits (happening event.now) agent.old.state }
        ensures agent { OnOk result
            (agent.new.state ≡ after_event moment agent.old.state (happening event.now)) }
        ensures closes { OnOk result
            (agent.new.closes ≡ closed_at moment agent.old.state (happening event.now)) }
        ensures notes { OnOk result (notes self.new ≡ notes self.old
            ++ notes_of (Came line agent.old.state (at_moment moment (happening event.now)))) };

    /// A line is refused.
    fn refuse(&mut self, line: u64, fault: LineFault) -> Result<(), AllocError>
        requires { fault ≢ LineFault.Memory }
        ensures { OnOk result (notes self.new ≡ notes self.old ++ notes_of (Barred line fault)) };
}

// Whether the job of this number is one of them.
pub fn is_among(jobs: &[Job], number: u64) -> bool
    ensures { result ≡ is_some (find_to_start number jobs.now) }
{
    jobs.iter().any(|job| job.number == number)
}

// Prints a line for each job that is to be started, unless it was before.
fn put_starts(before: &[Job], jobs: &[Job], out: &mut Vec<u8>) -> Result<(), AllocError>
    ensures { OnOk result (out.new.items ≡ out.old.items ++ start_lines before.now jobs.now) }
{
    'jobs: for job in jobs {
        if !is_among(before, job.number) {
            put_deed(out, &Deed::Start(*job))?;
        }
    }
    Ok(())
}

// Prints a line for each port that the last event closed.
fn put_closes(closes: &[u64], out: &mut Vec<u8>) -> Result<(), AllocError>
    ensures { OnOk result (out.new.items ≡ out.old.items ++ flat_map close_line closes.now) }
{
    'closes: for port in closes {
        put_deed(out, &Deed::Close(*port))?;
    }
    Ok(())
}

// Prints the bytes that a port takes of those that it is owed.
fn put_taken(agent: &Agent, event: &Event<'_>, out: &mut Vec<u8>) -> Result<(), AllocError>
    requires { Fits (happening event.now) agent.now.state }
    ensures { OnOk result
        (out.new.items ≡ out.old.items ++ taken_lines agent.now.state (happening event.now)) }
{
    if let Event::Took { port, count } = *event {
        let bytes = &agent.owed(port)[..count];
        put_deed(out, &Deed::To { port, bytes })?;
    }
    Ok(())
}

// Takes one step of the agent, and prints which jobs are to be started since and which ports it closed.
fn print_step(
    alloc: Global,
    agent: &mut Agent,
    moment: Moment,
    event: &Event<'_>,
    out: &mut Vec<u8>,
) -> Result<(), AllocError>
    requires { Fits (happening event.now) agent.old.state }
    ensures agent { OnOk result
        (agent.new.state ≡ after_event moment agent.old.state (happening event.now)) }
    ensures closes { OnOk result
        (agent.new.closes ≡ closed_at moment agent.old.state (happening event.now)) }
    ensures out { OnOk result (out.new.items ≡ out.old.items
        ++ (start_lines (starts agent.old.state) (starts (after_event moment agent.old.state (happening event.now)))
        ++ flat_map close_line (closed_at moment agent.old.state (happening event.now)))) }
{
    let before = Vec::from_slice(alloc, agent.starts())?;
    agent.step(moment, event)?;
    put_starts(&before, agent.starts(), out)?;
    put_closes(agent.closes(), out)
}

/// A text, to which is printed.
impl Watch for Vec<u8> {
    ghost Note = { ℕ };

    ghost notes_of = { text_of };

    ghost notes = { λ out. out.items };

    fn step(
        &mut self,
        alloc: Global,
        agent: &mut Agent,
        _line: u64,
        moment: Moment,
        event: &Event<'_>,
    ) -> Result<(), AllocError> {
        put_taken(agent, event, self)?;
        print_step(alloc, agent, moment, event, self)
    }

    fn refuse(&mut self, line: u64, fault: LineFault) -> Result<(), AllocError> {
        put_deed(self, &Deed::Refused { line, fault })?;
        Ok(())
    }
}
