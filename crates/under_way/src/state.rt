//! What is under way.

ghost use Rattle.std.specs.Prelude.{◌≡◌, ◌↔◌, IsSome, IsTrue};
ghost use Rattle.std.specs.Option.{option_copied};
ghost use Rattle.confirm_desk.specs.Calls.{next_owed};
ghost use Rattle.confirm_desk.specs.Sound.{IsSound};
ghost use Rattle.confirm_desk.specs.Confirmations.{find_asker, find_job, find_linked, owed_to};
ghost use Rattle.helper_link.specs.HelperLink.{newest, sendable};
ghost use Rattle.agent_model.specs.State.{find_to_start, nothing_under_way};
ghost use Rattle.under_way.specs.Parts.{IsKept};
ghost use Rattle.under_way.specs.Times.{limits_of};

mod children;
mod consents;
mod deadlines;
mod helper;

use crate::jobs::{Started, is_among};
use crate::time::TimeLimits;
use crate::verification::Verification;
use confirm_desk::{Desk, Pending};
use helper_link::{Ask, Link, LinkState};
use std::alloc::{AllocError, Global};
use std::marker::Model;
use world_ports::Job;

/// The link to the helper, what it is to verify, the jobs to start, and those that were started and that no child
/// process has named.
#[derive(Drop)]
pub struct UnderWay {
    link: Link,
    to_start: Vec<Job>,
    started: Vec<Started>,
    verifications: Vec<Verification>,
    desk: Desk,
    last_job: u64,
    limits: TimeLimits,
    second: u64,
}

impl Model for UnderWay {
    ghost use Rattle.std.specs.Prelude.{◌+◌, ◌≤◌, length, vec_capacity};
    ghost use Rattle.agent_model.specs.State.{UnderWay as State};
    ghost use Rattle.under_way.specs.Parts.{IsKept, under_way_of};
    ghost use Rattle.under_way.specs.Times.{limits_of};

    ghost Value = { State };

    ghost view = { λ u. under_way_of u.link u.to_start.items u.started.items u.verifications.items u.desk
        u.last_job (limits_of u.limits) u.second };

    ghost invariant = { λ u. IsKept (under_way_of u.link u.to_start.items u.started.items u.verifications.items
        u.desk u.last_job (limits_of u.limits) u.second)
        × (length u.to_start.items + length u.started.items ≤ vec_capacity u.started) };
}

impl UnderWay {
    /// Nothing is under way. Takes no memory.
    pub fn new(alloc: Global, limits: TimeLimits) -> UnderWay
        ensures { result ≡ nothing_under_way (limits_of limits) }
    {
        UnderWay {
            link: Link::new(alloc),
            to_start: Vec::new(alloc),
            started: Vec::new(alloc),
            verifications: Vec::new(alloc),
            desk: Desk::new(alloc),
            last_job: 0,
            limits,
            second: 0,
        }
    }

    /// How far the link has come.
    pub fn link_state(&self) -> LinkState
        ensures value { result ≡ self.now.link.state }
        ensures kept { IsKept self.now }
    {
        self.link.state()
    }

    /// How often the link was lost.
    pub fn link_faults(&self) -> u64
        ensures { result ≡ self.now.link.faults }
    {
        self.link.faults()
    }

    /// How many asks were put to a helper so far.
    pub fn asks(&self) -> u64
        ensures { result ≡ self.now.link.last }
    {
        self.link.last()
    }

    /// The ask that was put last of those that are unanswered.
    pub fn newest_ask(&self) -> Option<&Ask>
        ensures { option_copied result ≡ newest self.now.link.asks }
    {
        self.link.newest()
    }

    /// The child processes that wait to be started.
    pub fn starts(&self) -> &[Job]
        ensures { result.now ≡ self.now.to_start }
    {
        &self.to_start
    }

    /// What is to be sent to the helper: nothing before it is there.
    pub fn owed(&self) -> &[u8]
        ensures { result.now ≡ sendable self.now.link.state self.now.link.owed }
    {
        self.link.owed()
    }

    /// Whether the job of this number waits to be started.
    pub fn is_to_start(&self, job: u64) -> bool
        ensures { IsTrue result ↔ IsSome (find_to_start job self.now.to_start) }
    {
        is_among(&self.to_start, job)
    }
}

impl UnderWay {
    /// The confirmation of this job.
    pub fn find_confirmation(&self, job: u64) -> Option<&Pending>
        ensures value { option_copied result ≡ find_job job self.now.confirmations }
        ensures sound { IsSound self.now.confirmations }
    {
        self.desk.find_job(job)
    }

    /// The confirmation that the client of this port waits for.
    pub fn find_asker(&self, asker: u64) -> Option<&Pending>
        ensures value { option_copied result ≡ find_asker asker self.now.confirmations }
        ensures sound { IsSound self.now.confirmations }
    {
        self.desk.find_asker(asker)
    }

    /// The confirmation whose child process is at this port.
    pub fn find_confirmer(&self, port: u64) -> Option<&Pending>
        ensures value { option_copied result ≡ find_linked port self.now.confirmations }
        ensures sound { IsSound self.now.confirmations }
    {
        self.desk.find_linked(port)
    }

    /// The bytes that the child process at this port is owed: none where no confirmation is linked to it.
    pub fn confirmer_owed(&self, port: u64) -> &[u8]
        ensures { result.now ≡ owed_to (find_linked port self.now.confirmations) }
    {
        match self.desk.find_linked(port) {
            Some(one) => one.owed(),
            None => &[],
        }
    }

    /// The least port above `after` where a child process that asks the user is owed bytes.
    pub fn next_confirmer_owed(&self, after: u64) -> Option<u64>
        ensures { result ≡ next_owed after self.now.confirmations }
    {
        self.desk.next_owed(after)
    }
}
