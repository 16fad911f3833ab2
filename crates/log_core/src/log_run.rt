//! The log of a record that is read piece by piece.

ghost use Rattle.std.specs.Prelude.{◌≡◌, ◌∷◌, [], ◌++◌, ◌+◌, ℕ, List, MatchOption, None, OnOk, length};
ghost use Rattle.agent_core.specs.Parts.{settings_of};
ghost use Rattle.agent_model.specs.State.{Settings as Chosen};
ghost use Rattle.audit_core.specs.Writing.{Writes};
ghost use Rattle.log_book.specs.Books.{open_in, see_all};
ghost use Rattle.log_core.specs.Logging.{EndsLine, EndsWith, Exactly, Halts, end_of, IsLogging, IsReady, read_so_far, start_logging};
ghost use Rattle.log_core.specs.Logs.{lines_of};
ghost use Rattle.log_core.specs.Program.{Says};
ghost use Rattle.log_core.specs.declared.status.LogStatus.TheVariants as status;
ghost use Rattle.replay_run.specs.GoesOn.{HasNoLf};
ghost use Rattle.world_ports.specs.Streams.{OnlyWrites, StreamView};

use crate::lines::{LONGEST_LINE, line_end};
use crate::seeing::Seeing;
use crate::status::{LogStatus, status_for};
use crate::writing::{log_open, log_seen};
use agent_core::Settings;
use audit_core::Stop;
use log_book::Book;
use replay_run::{LONGEST_SCHEDULE, Replay};
use std::alloc::{AllocError, Global};
use std::marker::Model;
use world_ports::Sink;

/// The run of the whole lines so far, the front of the line that waits for its LF, what was seen of the last line, and
/// what is kept of clients and keys.
#[derive(Drop)]
pub struct LogRun {
    alloc: Global,
    run: Replay,
    pending: Vec<u8>,
    seeing: Seeing,
    book: Book,
}

impl Model for LogRun {
    ghost use Rattle.log_core.specs.Logging.{Logging};

    ghost Value = { Logging };

    ghost view = { λ l. record {
      run = l.run;
      pending = l.pending.items;
      sights = l.seeing.sights.items;
      book = l.book;
    } };
}

impl LogRun {
    pub fn new(alloc: Global, settings: Settings) -> Self
        ensures { result ≡ start_logging (settings_of settings) }
    {
        LogRun {
            alloc,
            run: Replay::new(alloc, settings),
            pending: Vec::new(alloc),
            seeing: Seeing::new(alloc),
            book: Book::new(alloc),
        }
    }

    // Runs the line that ends with these bytes. Where nothing waits, they aren't copied.
    fn end_line(&mut self, line: &[u8]) -> Result<(), AllocError>
        requires ready { IsReady self.old }
        ensures { OnOk result (EndsLine self.old line.now self.new) }
    {
        if self.pending.as_slice().is_empty() {
            let size = line.len() as u64 + 1;
            return self.run.turn(line, size, &mut self.seeing);
        }
        self.pending.extend_from_slice(line)?;
        let size = self.pending.as_slice().len() as u64 + 1;
        self.run.turn(&self.pending, size, &mut self.seeing)?;
        self.pending.clear();
        Ok(())
    }

    // Writes the lines of the requests whose fate the last line told.
    fn tell<O: Sink>(&mut self, output: &mut O) -> Result<(), Stop>
        ensures told { OnOk result (self.new ≡ record self.old {
          sights = [];
          book = (see_all self.old.sights self.old.book).book;
        }) }
        ensures writes { Writes result (lines_of (see_all self.old.sights self.old.book).told)
            (O.seen output.old) (O.seen output.new) }
        ensures only { OnlyWrites (O.seen output.old) (O.seen output.new) }
    {
        log_seen(self.alloc, &mut self.book, &self.seeing.sights, output)?;
        self.seeing.sights.clear();
        Ok(())
    }

    // Ends the log with the lines of the requests for whose answer clients wait.
    fn end_with<O: Sink>(&self, ended: LogStatus, output: &mut O) -> LogStatus
        ensures ends { EndsWith ended result (lines_of (open_in self.now.book))
            (O.seen output.old) (O.seen output.new) }
        ensures only { OnlyWrites (O.seen output.old) (O.seen output.new) }
    {
        status_for(ended, log_open(self.alloc, &self.book, output))
    }

    // Ends the log where the last line was refused.
    fn look_back<O: Sink>(&self, output: &mut O) -> Option<LogStatus>
        ensures ends { MatchOption result
            ((self.now.run.refused ≡ None) × (O.seen output.new ≡ O.seen output.old))
            (λ ended. (fault : _) × (self.now.run.refused ≡ Some fault)
            × EndsWith (status.BadRecord self.now.run.line) ended (lines_of (open_in self.now.book))
            (O.seen output.old) (O.seen output.new)) }
        ensures only { OnlyWrites (O.seen output.old) (O.seen output.new) }
    {
        self.run.refused()?;
        let line = self.run.line();
        Some(self.end_with(LogStatus::BadRecord { line }, output))
    }

    // Runs the line that ends with these bytes, and writes the lines of the requests whose fate it tells.
    fn run_line<O: Sink>(&mut self, line: &[u8], output: &mut O) -> Option<LogStatus>
        requires ready { IsReady self.old }
        requires part { HasNoLf line.now }
        ensures logs { (chosen : Chosen) (bytes : List ℕ) (start : StreamView)
            → IsLogging chosen bytes start (O.seen output.old) self.old
            → MatchOption result
            (IsLogging chosen (bytes ++ (line.now ++ 10 ∷ [])) start (O.seen output.new) self.new)
            (λ ended. Halts ended chosen (bytes ++ (line.now ++ 10 ∷ [])) start
            (O.seen output.new)) }
        ensures ready { result ≡ None → IsReady self.new }
        ensures size { result ≡ None →
            read_so_far self.new ≡ read_so_far self.old + length (line.now ++ 10 ∷ []) }
        ensures only { OnlyWrites (O.seen output.old) (O.seen output.new) }
    {
        let Ok(()) = self.end_line(line) else {
            return Some(LogStatus::Memory);
        };
        match self.tell(output) {
            Ok(()) => self.look_back(output),
            Err(Stop::Memory) => Some(LogStatus::Memory),
            Err(Stop::Write) => Some(LogStatus::WriteFault),
        }
    }

    // Keeps the front of a line, unless it is too long already: that is refused, however it goes on.
    fn run_front<O: Sink>(&mut self, front: &[u8], output: &mut O) -> Option<LogStatus>
        requires ready { IsReady self.old }
        requires part { HasNoLf front.now }
        ensures logs { (chosen : Chosen) (bytes : List ℕ) (start : StreamView)
            → IsLogging chosen bytes start (O.seen output.old) self.old
            → MatchOption result
            (IsLogging chosen (bytes ++ front.now) start (O.seen output.new) self.new)
            (λ ended. Halts ended chosen (bytes ++ front.now) start (O.seen output.new)) }
        ensures ready { result ≡ None → IsReady self.new }
        ensures size { result ≡ None →
            read_so_far self.new ≡ read_so_far self.old + length front.now }
        ensures only { OnlyWrites (O.seen output.old) (O.seen output.new) }
    {
        let Ok(()) = self.pending.extend_from_slice(front) else {
            return Some(LogStatus::Memory);
        };
        let size = self.pending.as_slice().len();
        if size > LONGEST_LINE || self.run.read() + size as u64 > LONGEST_SCHEDULE {
            let line = self.run.line() + 1;
            return Some(self.end_with(LogStatus::BadRecord { line }, output));
        }
        None
    }

    /// Runs the lines of a piece, and writes the lines of the requests whose fate they tell.
    pub fn run_piece<O: Sink>(&mut self, piece: &[u8], output: &mut O) -> Option<LogStatus>
        requires ready { IsReady self.old }
        ensures logs { (chosen : Chosen) (bytes : List ℕ) (start : StreamView)
            → IsLogging chosen bytes start (O.seen output.old) self.old
            → MatchOption result
            (IsLogging chosen (bytes ++ piece.now) start (O.seen output.new) self.new)
            (λ ended. Halts ended chosen (bytes ++ piece.now) start (O.seen output.new)) }
        ensures ready { result ≡ None → IsReady self.new }
        ensures size { result ≡ None →
            read_so_far self.new ≡ read_so_far self.old + length piece.now }
        ensures only { OnlyWrites (O.seen output.old) (O.seen output.new) }
    {
        let mut rest = piece;
        'lines: while let Some(place) = line_end(rest) {
            if let Some(ended) = self.run_line(&rest[..place], output) {
                return Some(ended);
            }
            rest = &rest[place + 1..];
        }
        self.run_front(rest, output)
    }

    // What is said of a record that ends here.
    fn end(&self) -> LogStatus
        ensures { result ≡ end_of self.now.pending }
    {
        match self.pending.as_slice() {
            [] => LogStatus::Whole,
            _ => LogStatus::Waits,
        }
    }

    /// Ends the log with its record: behind the lines that are written stand those of the requests without a fate.
    pub fn finish<O: Sink>(&self, output: &mut O) -> LogStatus
        requires ready { IsReady self.now }
        ensures says { (chosen : Chosen) (bytes : List ℕ) (start : StreamView)
            → IsLogging chosen bytes start (O.seen output.old) self.now
            → Says (Exactly bytes) result chosen start (O.seen output.new) }
        ensures only { OnlyWrites (O.seen output.old) (O.seen output.new) }
    {
        self.end_with(self.end(), output)
    }
}
