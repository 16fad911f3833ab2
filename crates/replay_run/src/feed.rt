//! A run that is fed with pieces.

ghost use Rattle.std.specs.Prelude.{◌≡◌, ◌∷◌, [], ◌++◌, ◌≤◌, ◌+◌, length, true};
ghost use Rattle.std.specs.Prelude.{MatchOption, None, OnErr, OnOk};
ghost use Rattle.agent_core.specs.Parts.{settings_of};
ghost use Rattle.world_ports.specs.Causes.{HasCause};
ghost use Rattle.replay_run.specs.Finishing.{Finishes, agent_at, end_of, state_left};
ghost use Rattle.replay_run.specs.Replay.{last_turned, ending, output};
ghost use Rattle.replay_run.specs.Feeding.{Wrote, start_feeding, IsReady, GoesOnFed, Halts, fed_so_far};
ghost use Rattle.replay_run.specs.GoesOn.{HasNoLf, IsLineEnd, GoesOn};
ghost use Rattle.world_ports.specs.Streams.{OnlyWrites, WritesPart};

use crate::limits::{LONGEST_LINE, LONGEST_SCHEDULE, ROOM};
use crate::{Replay, RunEnd};
use agent_core::{Agent, Settings};
use schedule_text::{Deed, LineFault, put_deed};
use std::alloc::{AllocError, Global};
use std::marker::Model;
use world_ports::{Fault, Sink, write_all};

/// A run, the front of the line that waits for its LF, and what was printed and isn't written yet.
#[derive(Drop)]
pub struct Feed {
    run: Replay,
    pending: Vec<u8>,
    out: Vec<u8>,
}

impl Model for Feed {
    ghost use Rattle.replay_run.specs.Feeding.{Feeding};

    ghost Value = { Feeding };

    ghost view = { λ f. record { run = f.run; pending = f.pending.items; out = f.out.items } };
}

// The place of the first LF.
pub fn line_end(bytes: &[u8]) -> Option<usize>
    ensures { MatchOption result (HasNoLf bytes.now) (IsLineEnd bytes.now) }
{
    bytes.iter().position(|byte| *byte == b'\n')
}

impl Feed {
    pub fn new(alloc: Global, settings: Settings) -> Self
        ensures { result ≡ start_feeding (settings_of settings) }
    {
        Feed {
            run: Replay::new(alloc, settings),
            pending: Vec::new(alloc),
            out: Vec::new(alloc),
        }
    }

    // Runs the line that ends with these bytes. Where nothing waits, they aren't copied.
    fn end_line(&mut self, line: &[u8]) -> Result<(), AllocError>
        requires ready { IsReady self.old }
        requires part { HasNoLf line.now }
        ensures goes { OnOk result (GoesOn
            self.old.out self.old.run (self.old.pending ++ (line.now ++ 10 ∷ []))
            self.new.out self.new.run self.new.pending) }
        ensures ready { OnOk result (self.new.run.refused ≡ None → IsReady self.new) }
        ensures size { OnOk result (self.new.run.refused ≡ None →
            fed_so_far self.new ≡ fed_so_far self.old + length (line.now ++ 10 ∷ [])) }
    {
        if self.pending.as_slice().is_empty() {
            let size = line.len() as u64 + 1;
            return self.run.turn(line, size, &mut self.out);
        }
        self.pending.extend_from_slice(line)?;
        let size = self.pending.as_slice().len() as u64 + 1;
        self.run.turn(&self.pending, size, &mut self.out)?;
        self.pending.clear();
        Ok(())
    }

    // Keeps the front of a line, unless it is too long already.
    fn begin_line(&mut self, front: &[u8]) -> Result<(), AllocError>
        requires ready { IsReady self.old }
        requires part { HasNoLf front.now }
        ensures goes { OnOk result (GoesOn self.old.out self.old.run (self.old.pending ++ front.now)
            self.new.out self.new.run self.new.pending) }
        ensures ready { OnOk result (self.new.run.refused ≡ None → IsReady self.new) }
        ensures size { OnOk result (self.new.run.refused ≡ None →
            fed_so_far self.new ≡ fed_so_far self.old + length front.now) }
    {
        self.pending.extend_from_slice(front)?;
        let size = self.pending.as_slice().len();
        if size > LONGEST_LINE || self.run.read() + size as u64 > LONGEST_SCHEDULE {
            return self.run.refuse(LineFault::TooLong, &mut self.out);
        }
        Ok(())
    }

    // Writes what was printed.
    fn write_out<O: Sink>(&mut self, output: &mut O) -> Result<(), Fault>
        ensures ok { OnOk result
            (Wrote (O.seen output.old) (O.seen output.new) self.old.out) }
        ensures new { OnOk result (self.new ≡ record self.old { out = [] }) }
        ensures err { OnErr result
            (WritesPart self.old.out (O.seen output.old) (O.seen output.new)) }
        ensures cause { HasCause
            (O.seen output.old).write_faults (O.seen output.new).write_faults result }
        ensures only { OnlyWrites (O.seen output.old) (O.seen output.new) }
    {
        write_all(output, &self.out)?;
        self.out.clear();
        Ok(())
    }

    // Ends the run where its last line was refused. Else writes what was printed, where that is more
    // than `most` bytes.
    fn look_back<O: Sink>(&mut self, most: usize, output: &mut O) -> Option<RunEnd>
        requires ready { self.old.run.refused ≡ None → IsReady self.old }
        ensures feeds { MatchOption result
            (GoesOnFed self.old [] self.new (O.seen output.old) (O.seen output.new)
            × (length self.new.out ≤ most))
            (λ end. Halts end self.old [] self.new.run (O.seen output.old) (O.seen output.new)) }
        ensures only { OnlyWrites (O.seen output.old) (O.seen output.new) }
    {
        if let Some(fault) = self.run.refused() {
            let line = self.run.line();
            return match self.write_out(output) {
                Ok(()) => Some(RunEnd::Refused { line, fault }),
                Err(_) => Some(RunEnd::WriteFault),
            };
        }
        if self.out.as_slice().len() <= most {
            return None;
        }
        match self.write_out(output) {
            Ok(()) => None,
            Err(_) => Some(RunEnd::WriteFault),
        }
    }

    // Runs the line that ends with these bytes, and writes what was printed where that is much.
    fn run_line<O: Sink>(&mut self, line: &[u8], output: &mut O) -> Option<RunEnd>
        requires ready { IsReady self.old }
        requires part { HasNoLf line.now }
        ensures feeds { MatchOption result
            (GoesOnFed self.old (line.now ++ 10 ∷ []) self.new
            (O.seen output.old) (O.seen output.new)
            × (length self.new.out ≤ 65536))
            (λ end. Halts end self.old (line.now ++ 10 ∷ []) self.new.run
            (O.seen output.old) (O.seen output.new)) }
        ensures only { OnlyWrites (O.seen output.old) (O.seen output.new) }
    {
        let Ok(()) = self.end_line(line) else {
            return Some(RunEnd::Memory);
        };
        self.look_back(ROOM, output)
    }

    // Keeps the front of a line, and writes all that was printed.
    fn run_front<O: Sink>(&mut self, front: &[u8], output: &mut O) -> Option<RunEnd>
        requires ready { IsReady self.old }
        requires part { HasNoLf front.now }
        ensures feeds { MatchOption result
            (GoesOnFed self.old front.now self.new (O.seen output.old) (O.seen output.new)
            × (length self.new.out ≤ 0))
            (λ end. Halts end self.old front.now self.new.run
            (O.seen output.old) (O.seen output.new)) }
        ensures only { OnlyWrites (O.seen output.old) (O.seen output.new) }
    {
        let Ok(()) = self.begin_line(front) else {
            return Some(RunEnd::Memory);
        };
        self.look_back(0, output)
    }

    /// Runs the lines of a piece, and writes all that they print.
    pub fn run_piece<O: Sink>(&mut self, piece: &[u8], output: &mut O) -> Option<RunEnd>
        requires ready { IsReady self.old }
        ensures feeds { MatchOption result
            (GoesOnFed self.old piece.now self.new (O.seen output.old) (O.seen output.new)
            × (length self.new.out ≤ 0))
            (λ end. Halts end self.old piece.now self.new.run
            (O.seen output.old) (O.seen output.new)) }
        ensures only { OnlyWrites (O.seen output.old) (O.seen output.new) }
    {
        let mut rest = piece;
        'lines: while let Some(place) = line_end(rest) {
            if let Some(end) = self.run_line(&rest[..place], output) {
                return Some(end);
            }
            rest = &rest[place + 1..];
        }
        self.run_front(rest, output)
    }

    // Runs a last line without LF, where one waits.
    fn run_pending(&mut self) -> Result<(), AllocError>
        requires ready { IsReady self.old }
        ensures run { OnOk result (self.new.run ≡ (last_turned self.old.pending self.old.run).run) }
        ensures out { OnOk result (self.new.out
            ≡ self.old.out ++ output (last_turned self.old.pending self.old.run)) }
    {
        if self.pending.as_slice().is_empty() {
            return Ok(());
        }
        let size = self.pending.as_slice().len() as u64;
        self.run.turn(&self.pending, size, &mut self.out)
    }

    // Prints `end`, unless the run was refused.
    fn put_end(&mut self) -> Result<(), AllocError>
        ensures run { OnOk result (self.new.run ≡ self.old.run) }
        ensures out { OnOk result
            (self.new.out ≡ self.old.out ++ ending true self.old.run.refused) }
    {
        if self.run.refused().is_none() {
            put_deed(&mut self.out, &Deed::End)?;
        }
        Ok(())
    }

    // How the run ended, where all of it is written.
    fn verdict(&self) -> RunEnd
        ensures { result ≡ end_of self.now.run }
    {
        match self.run.refused() {
            Some(fault) => RunEnd::Refused {
                line: self.run.line(),
                fault,
            },
            None => RunEnd::Done,
        }
    }

    /// Ends the schedule, and writes all that is left to write.
    pub fn finish<O: Sink>(&mut self, output: &mut O) -> RunEnd
        requires ready { IsReady self.old }
        ensures ends { Finishes result self.old self.new.run (O.seen output.old) (O.seen output.new) }
        ensures only { OnlyWrites (O.seen output.old) (O.seen output.new) }
    {
        let Ok(()) = self.run_pending() else {
            return RunEnd::Memory;
        };
        let Ok(()) = self.put_end() else {
            return RunEnd::Memory;
        };
        let end = self.verdict();
        match self.write_out(output) {
            Ok(()) => end,
            Err(_) => RunEnd::WriteFault,
        }
    }

    /// The agent that was run, where the schedule was run to its end or to a refused line.
    pub fn into_agent(self, end: RunEnd) -> Option<Agent>
        ensures { state_left result ≡ agent_at end self.run }
    {
        match end {
            RunEnd::Done | RunEnd::Refused { .. } => {
                let Feed { run, .. } = self;
                Some(run.into_agent())
            }
            RunEnd::Memory | RunEnd::ReadFault | RunEnd::WriteFault => None,
        }
    }
}
