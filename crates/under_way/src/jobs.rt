//! Jobs by their numbers.

ghost use Rattle.std.specs.Prelude.{◌≡◌, ◌↔◌, ◌≤◌, IsSome, IsTrue, None, MatchOption, length, vec_capacity};
ghost use Rattle.std.specs.List.{position};
ghost use Rattle.lists.specs.Keyed.{has_key};
ghost use Rattle.agent_model.specs.Answers.{forget_helper};
ghost use Rattle.agent_model.specs.Consents.{find_started, remove_started};
ghost use Rattle.agent_model.specs.State.{find_to_start, job_number};
ghost use Rattle.under_way.specs.Jobs.{IsJobAt, IsStartedAt, all_started, begun_number};

use helper_link::LinkState;
use world_ports::Job;

/// A child process that was started, and that hasn't named itself by its ticket yet.
#[derive(Clone, Copy)]
pub struct Started {
    pub job: Job,
    pub ticket: [u8; 16],
}

/// Where the job of this number stands.
pub fn place_of(jobs: &[Job], number: u64) -> Option<usize>
    ensures { MatchOption result (find_to_start number jobs.now ≡ None)
        (λ place. IsJobAt number jobs.now place) }
{
    first_of(jobs, number)
}

fn first_of(jobs: &[Job], number: u64) -> Option<usize>
    ensures { result ≡ position (has_key job_number number) jobs.now }
{
    jobs.iter().position(|job| job.number == number)
}

/// Whether there is a job of this number.
#[tactic(auto, using(crate::proofs::PlaceLemmas::is_there))]
pub fn is_among(jobs: &[Job], number: u64) -> bool
    ensures { IsTrue result ↔ IsSome (find_to_start number jobs.now) }
{
    match place_of(jobs, number) {
        Some(_) => true,
        None => false,
    }
}

/// Where the started job of this number stands.
pub fn place_of_started(started: &[Started], number: u64) -> Option<usize>
    ensures { MatchOption result (find_started number (all_started started.now) ≡ None)
        (λ place. IsStartedAt number started.now place) }
{
    first_of_started(started, number)
}

fn first_of_started(started: &[Started], number: u64) -> Option<usize>
    ensures { result ≡ position (has_key begun_number number) started.now }
{
    started.iter().position(|one| one.job.number == number)
}

/// Takes out the started job of this number, where there is one.
#[tactic(auto, using(crate::proofs::KeptLemmas::not_begun))]
pub fn forget(started: &mut Vec<Started>, number: u64)
    ensures left { all_started started.new.items ≡ remove_started number (all_started started.old.items) }
    ensures fewer { length started.new.items ≤ length started.old.items }
    ensures room { vec_capacity started.new ≡ vec_capacity started.old }
{
    if let Some(place) = place_of_started(started, number) {
        started.remove(place);
    }
}

/// Takes out the started job by which the link is starting, where there is one.
pub fn forget_helper(started: &mut Vec<Started>, state: LinkState)
    ensures left { all_started started.new.items ≡ forget_helper state (all_started started.old.items) }
    ensures fewer { length started.new.items ≤ length started.old.items }
    ensures room { vec_capacity started.new ≡ vec_capacity started.old }
{
    match state {
        LinkState::Starting { job } => forget(started, job),
        LinkState::None | LinkState::Linked { .. } => {}
    }
}
