//! What comes of a confirmation: the user's consent, or its end without it.

ghost use Rattle.std.specs.Prelude.{◌≡◌, ◌≤◌, ℕ, [], IsSome, IsSomeAnd, OnOk, Some, length, List};
ghost use Rattle.std.specs.Option.{option_map};
ghost use Rattle.confirm_desk.specs.Calls.{given_back};
ghost use Rattle.confirm_desk.specs.Confirmations.{Confirmation, find_asker, find_job, find_linked, job_of};
ghost use Rattle.agent_model.specs.Asking.{JobsRise};
ghost use Rattle.agent_model.specs.Children.{shut_then};
ghost use Rattle.agent_model.specs.Consents.{confirmer_heard, grant_concluded, over, over_if};
ghost use Rattle.agent_model.specs.KeyStates.{KeyState};
ghost use Rattle.wire_text.specs.Bounds.{longest_body};
ghost use Rattle.agent_model.specs.State.{Port, State, find_port};
ghost use Rattle.agent_core.specs.Confirmers.{AreQuiet, IsHeldFor, grant_in};
ghost use Rattle.agent_core.specs.Parts.{AreSpared, IsSpared, after, parts_of, state_of, stepped_of};
ghost use Rattle.agent_core.specs.Slots.{open_of};

use crate::granted::conclude;
use crate::parts::Parts;
use crate::ports::Ports;
use confirm_desk::{Held, Verdict};
use std::alloc::AllocError;
use under_way::UnderWay;

impl Parts {
    /// The child process at this port, which asks the user, sent more: nothing yet, or the user's decision.
    pub fn hear_confirmer(&mut self, number: u64, piece: &[u8]) -> Result<(), AllocError>
        requires asker { IsSomeAnd (find_linked number self.old.state.under_way.confirmations)
            (λ one. IsHeldFor one self.old.state.ports) }

        ensures parts { (one : Confirmation) → find_linked number self.old.state.under_way.confirmations ≡ Some one
            → OnOk result (stepped_of self.new ≡ after self.old.closes (confirmer_heard one piece.now self.old.state)) }
        ensures spared { (was : State) → IsSpared was self.old → OnOk result (IsSpared was self.new) }
    {
        jobs_rise(&self.under_way);
        self.ports.touch(number);
        match self.under_way.confirmer_told(number, piece)? {
            Verdict::NotYet => Ok(()),
            Verdict::Granted(held) => self.grant(number, &held),
            Verdict::Denied(held) => {
                conclude(&mut self.ports, Some(number), held.asker, None);
                Ok(())
            }
        }
    }

    // The user consents, by the child process at this port, to what was held: that is put to the helper, where it may
    // be. Its confirmation is no longer under way.
    fn grant(&mut self, number: u64, held: &Held) -> Result<(), AllocError>
        requires is_open { IsSome (find_port held.now.asker self.old.state.ports) }
        requires silent { (port : Port) → find_port held.now.asker self.old.state.ports ≡ Some port → port.owed ≡ [] }
        requires short { length held.now.message ≤ longest_body }

        ensures parts { (port : Port) (one : Confirmation) → find_port held.now.asker self.old.state.ports ≡ Some port
            → given_back one ≡ held.now → one.port ≡ Some number → OnOk result (stepped_of self.new ≡ after self.old.closes
            (grant_concluded (grant_in port.chain one self.old.state) one self.old.state)) }
        ensures spared { (was : State) → IsSpared was self.old → OnOk result (IsSpared was self.new) }
    {
        let asked = self.put_granted(held)?;
        conclude(&mut self.ports, Some(number), held.asker, asked);
        Ok(())
    }
}

// Tells proofs what holds of all that is under way: the jobs of the confirmations rise.
fn jobs_rise(under_way: &UnderWay)
    ensures { JobsRise 0 under_way.now.confirmations under_way.now.last_job }
{
    let _ = under_way.link_state();
}

/// The confirmation of this job is over without consent: its child process's port is closed where it came, and its
/// client is told where it is open. Takes no memory.
pub fn end_confirmation(ports: &mut Ports, under_way: &mut UnderWay, job: u64)
    requires silent { IsSomeAnd (find_job job under_way.old.confirmations) (λ one. (port : Port)
        → find_port one.asker ports.old.ports ≡ Some port → port.owed ≡ []) }

    ensures parts { (wall : ℕ) (keys : KeyState) (one : Confirmation)
        → find_job job under_way.old.confirmations ≡ Some one → parts_of wall keys under_way.new (open_of ports.new)
        ≡ after ports.old.closed (over one (state_of wall keys under_way.old (open_of ports.old))) }
    ensures link { under_way.new.link ≡ under_way.old.link }
    ensures spared { (was : State)
        → AreSpared was under_way.old ports.old → AreSpared was under_way.new ports.new }
{
    let confirmer = confirmer_of(under_way, job);
    let held = under_way.end_confirmation(job);
    conclude(ports, confirmer, held.asker, None);
}

// The port where the child process of this job came.
fn confirmer_of(under_way: &UnderWay, job: u64) -> Option<u64>
    ensures { (one : Confirmation) → find_job job under_way.now.confirmations ≡ Some one → one.port ≡ result }
{
    match under_way.find_confirmation(job) {
        Some(one) => one.port(),
        None => None,
    }
}

/// A client's port has ended, and with it the confirmation that it waits for, where there is one. Takes no memory.
pub fn lose_client(ports: &mut Ports, under_way: &mut UnderWay, number: u64)
    requires order { JobsRise 0 under_way.old.confirmations under_way.old.last_job }

    ensures parts { (wall : ℕ) (keys : KeyState) → parts_of wall keys under_way.new (open_of ports.new)
        ≡ after ports.old.closed (shut_then number (over_if (find_asker number under_way.old.confirmations))
        (state_of wall keys under_way.old (open_of ports.old))) }
    ensures link { under_way.new.link ≡ under_way.old.link }
    ensures spared { (was : State)
        → AreSpared was under_way.old ports.old → AreSpared was under_way.new ports.new }
{
    ports.close_open(number);
    if let Some(job) = job_of_asker(under_way, number) {
        end_confirmation(ports, under_way, job);
    }
}

// The job of the confirmation that this client waits for.
fn job_of_asker(under_way: &UnderWay, number: u64) -> Option<u64>
    ensures { result ≡ option_map job_of (find_asker number under_way.now.confirmations) }
{
    under_way.find_asker(number).map(|one| one.job())
}

/// The port of a child process that asks the user has ended, and with it the confirmation. Takes no memory.
pub fn lose_confirmer(ports: &mut Ports, under_way: &mut UnderWay, number: u64)
    requires there { IsSome (find_linked number under_way.old.confirmations) }
    requires order { JobsRise 0 under_way.old.confirmations under_way.old.last_job }
    requires quiet { AreQuiet under_way.old.confirmations ports.old.ports }

    ensures parts { (wall : ℕ) (keys : KeyState) (one : Confirmation)
        → find_linked number under_way.old.confirmations ≡ Some one → parts_of wall keys under_way.new (open_of ports.new)
        ≡ after ports.old.closed (shut_then number (over one) (state_of wall keys under_way.old (open_of ports.old))) }
    ensures link { under_way.new.link ≡ under_way.old.link }
    ensures spared { (was : State)
        → AreSpared was under_way.old ports.old → AreSpared was under_way.new ports.new }
{
    ports.close_open(number);
    let Some(one) = under_way.find_confirmer(number) else {
        unreachable!()
    };
    let job = one.job();
    end_confirmation(ports, under_way, job);
}

/// The confirmation of this job is over, where there is one: its child process could not be started. Takes no memory.
pub fn end_if(ports: &mut Ports, under_way: &mut UnderWay, job: u64)
    requires quiet { AreQuiet under_way.old.confirmations ports.old.ports }

    ensures parts { (wall : ℕ) (keys : KeyState) → parts_of wall keys under_way.new (open_of ports.new)
        ≡ after ports.old.closed (over_if (find_job job under_way.old.confirmations)
        (state_of wall keys under_way.old (open_of ports.old))) }
    ensures link { under_way.new.link ≡ under_way.old.link }
    ensures spared { (was : State)
        → AreSpared was under_way.old ports.old → AreSpared was under_way.new ports.new }
{
    match under_way.find_confirmation(job) {
        Some(_) => end_confirmation(ports, under_way, job),
        None => {}
    }
}
