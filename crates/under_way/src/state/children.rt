//! Child processes, from the start of their job until they name themselves by its ticket.

ghost use Rattle.std.specs.Prelude.{◌≡◌, ◌++◌, IsSome, IsSomeAnd, MatchOption, Some, None};
ghost use Rattle.confirm_desk.specs.Confirmations.{find_linked, linked};
ghost use Rattle.helper_link.specs.HelperLink.{linked_to};
ghost use Rattle.agent_model.specs.Children.{is_started_by, is_wanted, remove_to_start, started_if};
ghost use Rattle.agent_model.specs.Consents.{find_started, remove_started};
ghost use Rattle.world_ports.specs.declared.Job.{Job as AJob};
ghost use Rattle.under_way.specs.Jobs.{started_job};
ghost use Rattle.agent_model.specs.State.{StartedJob as AStartedJob, find_to_start};
ghost use Rattle.under_way.specs.Parts.{IsFor};

use crate::jobs::{Started, forget, place_of, place_of_started};
use crate::state::UnderWay;
use helper_link::LinkState;
use world_ports::{Job, JobKind};

impl UnderWay {
    /// The job of this number was started, and its child process is to name itself by this ticket: that of a
    /// confirmation that is over, and that of a helper that was lost, are named by none. Takes no memory.
    pub fn job_started(&mut self, job: u64, ticket: [u8; 16])
        requires { IsSome (find_to_start job self.old.to_start) }

        ensures { self.new ≡ record self.old {
          to_start = remove_to_start job self.old.to_start;
          started = self.old.started
              ++ started_if (find_to_start job self.old.to_start) ticket self.old;
        } }
    {
        let Some(place) = place_of(&self.to_start, job) else {
            unreachable!()
        };
        let job = self.to_start[place];
        let is_wanted = self.is_wanted(job);
        self.to_start.remove(place);
        if is_wanted {
            let Ok(()) = self.started.push(Started { job, ticket }) else {
                unreachable!()
            };
        }
    }

    /// The start of the job of this number failed, whose kind is given: a helper that was being started by it is to be
    /// lost, and a confirmation is over. Takes no memory.
    pub fn job_failed(&mut self, job: u64) -> JobKind
        requires { IsSome (find_to_start job self.old.to_start) }

        ensures kind { (failed : AJob) → find_to_start job self.old.to_start ≡ Some failed
            → (failed.kind ≡ result) × (failed.number ≡ job) }
        ensures left { self.new ≡ record self.old { to_start = remove_to_start job self.old.to_start } }
    {
        let Some(place) = place_of(&self.to_start, job) else {
            unreachable!()
        };
        self.to_start.remove(place).kind
    }

    /// Whether a helper is being started by the job of this number.
    pub fn is_starting(&self, job: u64) -> bool
        ensures { result ≡ is_started_by job self.now.link.state }
    {
        match self.link.state() {
            LinkState::Starting { job: starting } => starting == job,
            LinkState::None | LinkState::Linked { .. } => false,
        }
    }

    /// The started job of this number, which a child process names.
    pub fn find_started(&self, job: u64) -> Option<&Started>
        ensures found { MatchOption result (find_started job self.now.started ≡ None)
            (λ one. find_started job self.now.started ≡ Some (started_job one.now)) }
        ensures kind { (one : AStartedJob) → find_started job self.now.started ≡ Some one
            → IsFor one.job.kind job self.now × (one.job.number ≡ job) }
    {
        let place = place_of_started(&self.started, job)?;
        Some(&self.started[place])
    }

    /// The helper named itself by this job, and came to this port. Takes no memory.
    pub fn helper_named(&mut self, job: u64, port: u64)
        requires { IsSomeAnd (find_started job self.old.started) (λ one. one.job.kind ≡ JobKind.Helper) }

        ensures { self.new ≡ record self.old {
          link = linked_to port self.old.link;
          started = remove_started job self.old.started;
        } }
    {
        forget(&mut self.started, job);
        self.link.linked(port);
    }

    /// The child process that asks the user, by this job, came to this port. Takes no memory.
    pub fn confirmer_named(&mut self, job: u64, port: u64)
        requires started { IsSomeAnd (find_started job self.old.started) (λ one. one.job.kind ≡ JobKind.Confirm) }
        requires free { find_linked port self.old.confirmations ≡ None }

        ensures { self.new ≡ record self.old {
          started = remove_started job self.old.started;
          confirmations = linked job port self.old.confirmations;
        } }
    {
        forget(&mut self.started, job);
        self.desk.linked(job, port);
    }
}

impl UnderWay {
    // Whether a child process may name the job, once it is started: that of a confirmation that is over may not, nor
    // that of a helper that was lost.
    fn is_wanted(&self, job: Job) -> bool
        ensures { result ≡ is_wanted job.kind job.number self.now }
    {
        match job.kind {
            JobKind::Helper => self.is_starting(job.number),
            JobKind::Confirm => self.desk.find_job(job.number).is_some(),
        }
    }
}
