//! What is put to the helper, and what it tells.

ghost use Rattle.std.specs.Prelude.{◌≡◌, ◌≢◌, ◌↔◌, ◌+◌, ◌-◌, ◌^◌, ◌<◌, ◌≤◌, [], ◌++◌, ◌∷◌, ◌⊎◌, IfOk, IsFalse, IsTrue, MatchOption, OnOk, length, Some, None};
ghost use Rattle.wire_text.specs.Bounds.{longest_to_child};
ghost use Rattle.helper_link.specs.HelperLink.{IsLinked, lost, sendable, sent};
ghost use Rattle.helper_link.specs.Sound.{IsSound as IsLinkSound};
ghost use Rattle.helper_link.specs.Telling.{telling};
ghost use Rattle.agent_model.specs.Answers.{find_verification, forget_helper, remove_verification};
ghost use Rattle.agent_model.specs.Errands.{Signs, Verifies, job_of, put_ask, begun_by};
ghost use Rattle.under_way.specs.Parts.{TellsOf};
ghost use Rattle.under_way.specs.Verifications.{bind_of, verification_of};

use crate::jobs::forget_helper;
use crate::state::UnderWay;
use crate::verification::{Verification, place_of_verification};
use helper_link::{Ask, AskFault, Link, LinkState, Told};
use identity_table::Identity;
use plain_lists::Bytes;
use std::alloc::AllocError;
use world_ports::{Job, JobKind};

impl UnderWay {
    /// Puts a signature of `message` by a held key to the helper, for the client of port `asker`, and gives the
    /// number of the ask: `None` where it is refused. Where no helper is there or coming, the job that starts one
    /// is begun.
    pub fn put_sign(
        &mut self,
        asker: u64,
        key: &Identity,
        message: &[u8],
        flags: u32,
    ) -> Result<Option<u64>, AllocError>
        requires short { 25 + length key.now.private + length key.now.blob + length message.now ≤ longest_to_child }

        ensures work { OnOk result (self.new ≡ (put_ask (Signs key.now
            record { blob = key.now.blob; message = message.now; flags = flags }) asker self.old).under_way) }
        ensures told { IfOk result (TellsOf (put_ask (Signs key.now
            record { blob = key.now.blob; message = message.now; flags = flags }) asker self.old).verdict) }
    {
        if self.lacks_helper() {
            if self.is_spent() {
                return Ok(None);
            }
            self.begin_helper()?;
        }
        match self.link.ask_sign(
            asker,
            key.private(),
            key.blob(),
            message,
            flags,
            self.second,
        ) {
            Ok(ask) => Ok(Some(ask)),
            Err(AskFault::Memory) => Err(AllocError),
            Err(AskFault::Full | AskFault::NumbersSpent) => Ok(None),
        }
    }

    /// Puts the verification of a host key's signature over a session identifier to the helper, for the client of
    /// port `asker`, and gives the number of the ask: `None` where it is refused. The binding is kept until
    /// `take_verification` takes it out. Where no helper is there or coming, the job that starts one is begun.
    pub fn put_verify(
        &mut self,
        asker: u64,
        host_key: &[u8],
        session: &[u8],
        signature: &[u8],
        forwarding: bool,
        is_new: bool,
    ) -> Result<Option<u64>, AllocError>
        requires short { 21 + length host_key.now + length signature.now + length session.now ≤ longest_to_child }

        ensures work { OnOk result (self.new ≡ (put_ask
            (Verifies (bind_of host_key.now session.now signature.now forwarding) is_new) asker self.old).under_way) }
        ensures told { IfOk result (TellsOf (put_ask
            (Verifies (bind_of host_key.now session.now signature.now forwarding) is_new) asker self.old).verdict) }
    {
        if self.lacks_helper() {
            if self.is_spent() {
                return Ok(None);
            }
            self.begin_helper()?;
        }
        let mut one = self.prepare(host_key, session, forwarding, is_new)?;
        match self
            .link
            .ask_verify(asker, host_key, signature, session, self.second)
        {
            Ok(ask) => {
                one.ask = ask;
                self.note(one)?;
                Ok(Some(ask))
            }
            Err(AskFault::Memory) => Err(AllocError),
            Err(AskFault::Full | AskFault::NumbersSpent) => Ok(None),
        }
    }

    /// Takes out what the ask of this number was to verify. Takes no memory.
    pub fn take_verification(&mut self, ask: u64) -> Option<Verification>
        ensures found { MatchOption result (find_verification ask self.old.verifications ≡ None)
            (λ one. find_verification ask self.old.verifications ≡ Some (verification_of one)) }
        ensures left { self.new ≡ record self.old {
          verifications = remove_verification ask self.old.verifications;
        } }
    {
        let place = place_of_verification(&self.verifications, ask)?;
        Some(self.verifications.remove(place))
    }

    /// The first `count` bytes of `owed` were sent. Takes no memory.
    pub fn helper_took(&mut self, count: usize)
        requires { count ≤ length (sendable self.old.link.state self.old.link.owed) }
        ensures { self.new ≡ record self.old { link = sent count self.old.link } }
    {
        self.link.took(count);
    }

    /// Takes in a piece of the helper's stream, and tells what it settles.
    pub fn helper_told(&mut self, piece: &[u8]) -> Result<Told, AllocError>
        requires { IsLinked self.old.link.state }

        ensures link { OnOk result
            (self.new ≡ record self.old { link = (telling piece.now self.old.link).link }) }
        ensures settled { IfOk result (λ told. told.settled ≡ (telling piece.now self.old.link).settled) }
        ensures fault { IfOk result (λ told. told.fault ≡ (telling piece.now self.old.link).fault) }
    {
        match self.link.told(piece) {
            Ok(told) => Ok(told),
            Err(_) => {
                self.link = Link::new(*self.started.allocator());
                Err(AllocError)
            }
        }
    }

    /// The helper is gone, failed to start or hasn't answered in time: nothing is to be verified any more, and no child
    /// process can name the job by which it was being started. Gives the unanswered asks: they failed. Takes no memory.
    pub fn lose(&mut self) -> Vec<Ask>
        requires { self.old.link.state ≢ LinkState.None }
        ensures failed { result.items ≡ self.old.link.asks }
        ensures left { self.new ≡ record self.old {
          link = lost self.old.link;
          started = forget_helper self.old.link.state self.old.started;
          verifications = [];
        } }
    {
        forget_helper(&mut self.started, self.link.state());
        self.verifications.clear();
        self.link.lose()
    }
}

impl UnderWay {
    // Whether no helper is there or coming.
    fn lacks_helper(&self) -> bool
        ensures value { IsTrue result ↔ (self.now.link.state ≡ LinkState.None) }
        ensures sound { IsLinkSound self.now.link }
    {
        self.link.state() == LinkState::None
    }

    // Whether no number is left for an ask, or none for a job.
    fn is_spent(&self) -> bool
        ensures value { IsTrue result ↔ ((self.now.link.last ≡ 2 ^ 64 - 1) ⊎ (self.now.last_job ≡ 2 ^ 64 - 1)) }
        ensures left { IsFalse result → self.now.last_job < 2 ^ 64 - 1 }
    {
        self.link.spent() || self.last_job == u64::MAX
    }

    // A helper is to be started; room is taken for its ticket.
    fn begin_helper(&mut self) -> Result<(), AllocError>
        requires none { self.old.link.state ≡ LinkState.None }
        requires last { self.old.last_job < 2 ^ 64 - 1 }

        ensures { OnOk result (self.new ≡ record self.old {
          link = record self.old.link { state = begun_by self.old.link.state (self.old.last_job + 1) };
          to_start = self.old.to_start ++ (job_of (self.old.last_job + 1) JobKind.Helper ∷ []);
          last_job = self.old.last_job + 1;
        }) }
    {
        let room = self.to_start.len() + 1;
        self.started.reserve(room)?;
        let job = Job {
            number: self.last_job + 1,
            kind: JobKind::Helper,
        };
        self.to_start.push(job)?;
        self.last_job += 1;
        self.link.begin(self.last_job);
        Ok(())
    }

    // What is to be kept of these parts, and room for it.
    fn prepare(
        &mut self,
        host_key: &[u8],
        session: &[u8],
        forwarding: bool,
        is_new: bool,
    ) -> Result<Verification, AllocError>
        ensures value { IfOk result (λ one. one ≡ record {
          ask = 0;
          host_key = host_key.now;
          session = session.now;
          forwarding = forwarding;
          is_new = is_new;
        }) }
        ensures kept { OnOk result (self.new ≡ self.old) }
    {
        self.verifications.reserve(1)?;
        let alloc = *self.verifications.allocator();
        let host_key = Vec::from_slice(alloc, host_key)?;
        let session = Vec::from_slice(alloc, session)?;
        Ok(Verification {
            ask: 0,
            host_key: Bytes::from_vec(host_key),
            session: Bytes::from_vec(session),
            forwarding,
            is_new,
        })
    }

    // Keeps what an ask is to verify.
    fn note(&mut self, one: Verification) -> Result<(), AllocError>
        ensures { OnOk result (self.new ≡ record self.old {
          verifications = self.old.verifications ++ verification_of one ∷ [];
        }) }
    {
        self.verifications.push(one)?;
        Ok(())
    }
}
