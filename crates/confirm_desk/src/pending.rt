//! One confirmation: who waits for it, what its child process is owed, and what that has said.

ghost use Rattle.std.specs.Prelude.{◌≡◌, ◌+◌, ◌≤◌, ◌++◌, IfOk, OnErr, OnOk, length};
ghost use Rattle.wire_text.specs.Bounds.{longest_to_child};
ghost use Rattle.confirm_desk.specs.Calls.{given_back, held_of};
ghost use Rattle.confirm_desk.specs.Confirmations.{confirmation_of, consent, heard_more, linked_at, took_some};
ghost use Rattle.confirm_desk.specs.Answers.{consent_told};

use crate::consent::{Answer, consent_of};
use crate::held::Held;
use child_msg::{ToChild, write_to_child};
use secret_buf::ScrubBuf;
use std::alloc::{AllocError, Global};
use std::marker::Model;

/// A signature that waits for the user's consent, and the child process that asks.
///
/// Dropping it wipes what that process is owed, and what was heard of it.
#[derive(Drop)]
pub struct Pending {
    job: u64,
    held: Held,
    raised_at: u64,
    port: Option<u64>,
    heard: ScrubBuf,
    owed: ScrubBuf,
}

impl Model for Pending {
    ghost use Rattle.confirm_desk.specs.Confirmations.{Confirmation};

    ghost Value = { Confirmation };

    ghost view = { λ p. record {
      job = p.job;
      asker = p.held.asker;
      addition = p.held.addition;
      message = p.held.message;
      flags = p.held.flags;
      raised_at = p.raised_at;
      port = p.port;
      heard = p.heard.live;
      owed = p.owed.live;
    } };
}

impl Pending {
    // One whose child process is to be started by this job, and is owed the question.
    pub(crate) fn new(
        alloc: Global,
        job: u64,
        held: Held,
        prompt: &[u8],
        now: u64,
    ) -> Result<Pending, AllocError>
        requires { 13 + length prompt.now ≤ longest_to_child }
        ensures { IfOk result (λ one. one ≡ confirmation_of job (held_of held) prompt.now now) }
    {
        let mut owed = ScrubBuf::new(alloc);
        write_to_child(&mut owed, &ToChild::Confirm { job, prompt })?;
        Ok(Pending {
            job,
            held,
            raised_at: now,
            port: None,
            heard: ScrubBuf::new(alloc),
            owed,
        })
    }

    /// The job that started its child process.
    pub fn job(&self) -> u64
        ensures { result ≡ self.now.job }
    {
        self.job
    }

    /// The client that waits.
    pub fn asker(&self) -> u64
        ensures { result ≡ self.now.asker }
    {
        self.held.asker
    }

    /// The addition of the key.
    pub fn addition(&self) -> u64
        ensures { result ≡ self.now.addition }
    {
        self.held.addition
    }

    /// The second at which it was raised.
    pub fn raised_at(&self) -> u64
        ensures { result ≡ self.now.raised_at }
    {
        self.raised_at
    }

    /// The port where its child process came.
    pub fn port(&self) -> Option<u64>
        ensures { result ≡ self.now.port }
    {
        self.port
    }

    /// The bytes that its child process is owed.
    pub fn owed(&self) -> &[u8]
        ensures { result.now ≡ self.now.owed }
    {
        self.owed.live()
    }

    pub(crate) fn link(&mut self, port: u64)
        ensures { self.new ≡ linked_at port self.old }
    {
        self.port = Some(port);
    }

    pub(crate) fn take(&mut self, count: usize)
        requires { count ≤ length self.old.owed }
        ensures { self.new ≡ took_some count self.old }
    {
        self.owed.consume(count);
    }

    pub(crate) fn hear(&mut self, piece: &[u8]) -> Result<(), AllocError>
        ensures ok { OnOk result (self.new ≡ heard_more piece.now self.old) }
        ensures err { OnErr result (self.new ≡ self.old) }
    {
        self.heard.push_slice(piece)
    }

    pub(crate) fn consent(&self) -> Answer
        ensures { consent_told result ≡ consent self.now.job self.now.heard }
    {
        consent_of(self.job, self.heard.live())
    }

    pub(crate) fn into_held(self) -> Held
        ensures { result ≡ given_back self }
    {
        let Pending {
            job: _,
            held,
            raised_at: _,
            port: _,
            heard: _,
            owed: _,
        } = self;
        held
    }
}
