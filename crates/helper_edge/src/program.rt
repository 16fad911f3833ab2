//! The helper behind as a program, started at the first request and again once it has failed.

ghost use Rattle.std.specs.Prelude.{◌≡◌, None};

use crate::deadline::Deadline;
use crate::running::Running;
use frame_core::LONGEST_BODY;
use helper_core::HelperBehind;
use secret_buf::ScrubBuf;
use std::alloc::{AllocError, Global};
use std::net::Net;
use std::process::Processes;
use std::time::Clock;

/// A helper that is a program of the system, of which nothing is told. It is started at the first request, and again
/// at the next one after it ended, was too slow, or sent what answers nothing.
#[derive(Drop)]
pub struct ProgramBehind<'a, R: Processes> {
    rt: &'a R,
    // What is started: without a path there is no helper.
    path: Option<String>,
    job: String,
    running: Option<Running<R::Started>>,
    given_up: u64,
}

impl<'a, R: Net + Processes + Clock> ProgramBehind<'a, R> {
    /// The helper at this path, which is told the job's number that it is given.
    pub fn new(rt: &'a R, path: Option<String>, job: String) -> Self {
        ProgramBehind {
            rt,
            path,
            job,
            running: None,
            given_up: 0,
        }
    }

    // Ends the program that runs, where one does.
    fn end(&mut self)
        ensures { self.new.given_up ≡ self.old.given_up }
    {
        if let Some(running) = self.running.take() {
            running.end();
        }
    }

    // The body of the reply, where there is one before the deadline.
    fn reply_to(&mut self, alloc: Global, request: &[u8]) -> Option<ScrubBuf>
        ensures { self.new.given_up ≡ self.old.given_up }
    {
        if let Some(running) = &mut self.running {
            if running.has_ended() {
                self.end();
            }
        }
        let path = self.path.as_ref()?;
        let deadline = Deadline::after(self.rt.monotonic().ok()?.as_secs())?;
        if self.running.is_none() {
            let started = Running::start(self.rt, alloc, path.as_str(), self.job.as_str()).ok()?;
            self.running = Some(started);
        }
        let running = self.running.as_mut()?;
        running.reply_to(self.rt, alloc, request, deadline)
    }
}

impl<R: Net + Processes + Clock> HelperBehind for ProgramBehind<'_, R> {
    ghost seen = { λ s. None };

    ghost given_up = { λ s. s.given_up };

    fn ask(&mut self, alloc: Global, request: &[u8]) -> Result<Option<ScrubBuf>, AllocError> {
        match self.reply_to(alloc, request) {
            Some(reply) if reply.live().len() <= LONGEST_BODY as usize => Ok(Some(reply)),
            _ => {
                self.end();
                Ok(None)
            }
        }
    }

    fn give_up(&mut self) {
        self.given_up = self.given_up.saturating_add(1);
        self.end();
    }
}
