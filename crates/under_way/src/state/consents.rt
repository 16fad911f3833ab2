//! Signatures that wait for the user's consent.

ghost use Rattle.std.specs.Prelude.{◌≡◌, ◌+◌, ◌-◌, ◌^◌, ◌<◌, ◌≤◌, [], ◌++◌, ◌∷◌, IfOk, IsSome, OnOk, length, Some, None};
ghost use Rattle.std.specs.Option.{option_map};
ghost use Rattle.confirm_desk.specs.Calls.{given_back, held_of, telling as desk_telling, took_at};
ghost use Rattle.confirm_desk.specs.Prompt.{prompt_for};
ghost use Rattle.confirm_desk.specs.Confirmations.{find_asker, find_job, find_linked, owed_to, raise};
ghost use Rattle.agent_model.specs.Consents.{without_confirmation};
ghost use Rattle.agent_model.specs.Errands.{ask_user, job_of};
ghost use Rattle.wire_text.specs.Bounds.{longest_body};
ghost use Rattle.under_way.specs.Parts.{IsShortIn, TellsOfUser, confirmer_told};

use crate::jobs::forget;
use crate::state::UnderWay;
use confirm_desk::{Held, MAX_CONFIRMATIONS, Verdict, prompt_for};
use identity_table::Identity;
use plain_lists::Bytes;
use std::alloc::AllocError;
use world_ports::{Job, JobKind};

impl UnderWay {
    /// Asks the user for a signature of `message` by a held key, for the client of port `asker`, which logs in to `host`
    /// where that is known, and gives the number of the job that starts the child process: `None` where it is refused.
    pub fn ask_user(
        &mut self,
        asker: u64,
        key: &Identity,
        host: Option<&[u8]>,
        message: &[u8],
        flags: u32,
    ) -> Result<Option<u64>, AllocError>
        requires asker { find_asker asker self.old.confirmations ≡ None }
        requires short { length message.now ≤ longest_body }

        ensures work { OnOk result (self.new ≡ (ask_user key.now (option_map (λ name. name.now) host.entry)
            record { blob = key.now.blob; message = message.now; flags = flags } asker self.old).under_way) }
        ensures told { IfOk result (TellsOfUser (ask_user key.now (option_map (λ name. name.now) host.entry)
            record { blob = key.now.blob; message = message.now; flags = flags } asker self.old).verdict) }
    {
        if self.desk.as_slice().len() >= MAX_CONFIRMATIONS || self.last_job == u64::MAX {
            return Ok(None);
        }
        let held = self.hold(asker, key, message, flags)?;
        let text = self.question(key, host, message)?;
        self.raise(held, &text)?;
        Ok(Some(self.last_job))
    }

    /// The first `count` bytes that the child process at this port was owed were sent. Takes no memory.
    pub fn confirmer_took(&mut self, port: u64, count: usize)
        requires there { IsSome (find_linked port self.old.confirmations) }
        requires owed { count ≤ length (owed_to (find_linked port self.old.confirmations)) }
        ensures { self.new ≡ record self.old { confirmations = took_at port count self.old.confirmations } }
    {
        self.desk.took(port, count);
    }

    /// Takes in a piece of what the child process at this port sends, and tells what the user decided by it. A
    /// decision ends the confirmation.
    pub fn confirmer_told(&mut self, port: u64, piece: &[u8]) -> Result<Verdict, AllocError>
        requires { IsSome (find_linked port self.old.confirmations) }

        ensures under_way { OnOk result (self.new ≡ confirmer_told port piece.now self.old) }
        ensures verdict { IfOk result (λ verdict.
            verdict ≡ (desk_telling port piece.now self.old.confirmations).verdict) }
        ensures short { IfOk result IsShortIn }
    {
        Ok(self.desk.told(port, piece)?)
    }

    /// The confirmation of this job is over without a decision: its child process is gone or failed to start, or its
    /// client left. No child process can name the job any more. Takes no memory.
    pub fn end_confirmation(&mut self, job: u64) -> Held
        requires { IsSome (find_job job self.old.confirmations) }

        ensures left { self.new ≡ without_confirmation job self.old }
        ensures held { Some result ≡ option_map given_back (find_job job self.old.confirmations) }
        ensures short { length result.message ≤ longest_body }
    {
        forget(&mut self.started, job);
        let Some(held) = self.desk.lose(job) else {
            unreachable!()
        };
        held
    }
}

impl UnderWay {
    // What the user is asked.
    fn question(
        &self,
        key: &Identity,
        host: Option<&[u8]>,
        message: &[u8],
    ) -> Result<Vec<u8>, AllocError>
        requires { length message.now ≤ longest_body }
        ensures text { IfOk result (λ text. text.items
            ≡ prompt_for key.now.comment key.now.blob key.now.purposes
            (option_map (λ name. name.now) host.entry) message.now) }
        ensures short { IfOk result (λ text. length text.items ≤ 512) }
    {
        let alloc = *self.started.allocator();
        prompt_for(
            alloc,
            key.comment(),
            key.blob(),
            key.purposes(),
            host,
            message,
        )
    }

    // What is to be signed, for the client that waits.
    fn hold(
        &self,
        asker: u64,
        key: &Identity,
        message: &[u8],
        flags: u32,
    ) -> Result<Held, AllocError>
        ensures { IfOk result (λ held. held ≡ record {
          asker = asker;
          addition = key.now.number;
          message = message.now;
          flags = flags;
        }) }
    {
        let message = Vec::from_slice(*self.started.allocator(), message)?;
        Ok(Held {
            asker,
            addition: key.addition(),
            message: Bytes::from_vec(message),
            flags,
        })
    }

    // The user is to be asked; room is taken for the ticket of the child process.
    fn raise(&mut self, held: Held, text: &[u8]) -> Result<(), AllocError>
        requires few { length self.old.confirmations < 16 }
        requires last { self.old.last_job < 2 ^ 64 - 1 }
        requires asker { find_asker held.asker self.old.confirmations ≡ None }
        requires short { length held.message ≤ longest_body }
        requires text { length text.now ≤ 512 }

        ensures { OnOk result (self.new ≡ record self.old {
          to_start = self.old.to_start ++ (job_of (self.old.last_job + 1) JobKind.Confirm ∷ []);
          confirmations = raise (self.old.last_job + 1) (held_of held) text.now self.old.second
              self.old.confirmations;
          last_job = self.old.last_job + 1;
        }) }
    {
        let places = self.to_start.len() + 1;
        self.started.reserve(places)?;
        let job = Job {
            number: self.last_job + 1,
            kind: JobKind::Confirm,
        };
        self.to_start.reserve(1)?;
        let Ok(()) = self.desk.raise(job.number, held, text, self.second) else {
            return Err(AllocError);
        };
        self.to_start.push(job)?;
        self.last_job += 1;
        Ok(())
    }
}
