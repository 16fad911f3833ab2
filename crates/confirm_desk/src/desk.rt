//! The list of the confirmations that are waited for, at most 16, from raising one to its end.

ghost use Rattle.std.specs.Prelude.{◌≡◌, ◌+◌, ◌≤◌, [], IsSome, IsSomeAnd, IfOk, MatchResult, None, OnErr, OnOk, length};
ghost use Rattle.std.specs.Option.{option_copied, option_map};
ghost use Rattle.wire_text.specs.Bounds.{longest_to_child};
ghost use Rattle.confirm_desk.specs.Calls.{IsRefusedWith, given_back, held_of, next_owed, raise_fault, telling, took_at};
ghost use Rattle.confirm_desk.specs.Confirmations.{AreRaisedBy, find_asker, find_job, find_linked, linked, lose, oldest, owed_to, raise};
ghost use Rattle.confirm_desk.specs.Sound.{IsSound};

use crate::fault::DeskFault;
use crate::held::{Held, Verdict};
use crate::list::{end, link, next_owed, place_linked, place_of, place_of_asker, take_at, tell};
use crate::pending::Pending;
use std::alloc::{AllocError, Global};
use std::marker::Model;

/// How many confirmations may be waited for (ours).
pub const MAX_CONFIRMATIONS: usize = 16;

/// The signatures that wait for the user's consent, in the order in which they were raised.
#[derive(Drop)]
pub struct Desk {
    confirmations: Vec<Pending>,
}

impl Model for Desk {
    ghost use Rattle.std.specs.Prelude.{List};
    ghost use Rattle.confirm_desk.specs.Confirmations.{Confirmation};
    ghost use Rattle.confirm_desk.specs.Sound.{IsSound};

    ghost Value = { List Confirmation };

    ghost view = { λ desk. desk.confirmations.items };

    ghost invariant = { λ desk. IsSound desk.confirmations.items };
}

impl Desk {
    /// Takes no memory.
    pub fn new(alloc: Global) -> Desk
        ensures { result ≡ [] }
    {
        Desk {
            confirmations: Vec::new(alloc),
        }
    }

    /// The confirmations, lent.
    pub fn as_slice(&self) -> &[Pending]
        ensures value { result.now ≡ self.now }
        ensures sound { IsSound self.now }
    {
        self.confirmations.as_slice()
    }

    /// The confirmation of this job.
    #[tactic(auto, using(lists::proofs::FirstLemmas::found_there))]
    pub fn find_job(&self, job: u64) -> Option<&Pending>
        ensures value { option_copied result ≡ find_job job self.now }
        ensures sound { IsSound self.now }
    {
        let place = place_of(&self.confirmations, job)?;
        Some(&self.confirmations[place])
    }

    /// The confirmation that this client waits for.
    #[tactic(auto, using(lists::proofs::FirstLemmas::found_there))]
    pub fn find_asker(&self, asker: u64) -> Option<&Pending>
        ensures value { option_copied result ≡ find_asker asker self.now }
        ensures sound { IsSound self.now }
    {
        let place = place_of_asker(&self.confirmations, asker)?;
        Some(&self.confirmations[place])
    }

    /// The confirmation whose child process came to this port.
    #[tactic(auto, using(lists::proofs::FirstLemmas::found_there))]
    pub fn find_linked(&self, port: u64) -> Option<&Pending>
        ensures value { option_copied result ≡ find_linked port self.now }
        ensures sound { IsSound self.now }
    {
        let place = place_linked(&self.confirmations, port)?;
        Some(&self.confirmations[place])
    }

    /// The user is to be asked `prompt` by the child process of this job. `now` is the second of the caller's
    /// monotonic clock.
    ///
    /// The question is owed to it once it comes.
    pub fn raise(&mut self, job: u64, held: Held, prompt: &[u8], now: u64) -> Result<(), DeskFault>
        requires job { find_job job self.old ≡ None }
        requires asker { find_asker held.asker self.old ≡ None }
        requires short { 13 + length prompt.now ≤ longest_to_child }
        requires later { AreRaisedBy now self.old }
        ensures ok { OnOk result (self.new ≡ raise job (held_of held) prompt.now now self.old) }
        ensures fault { MatchResult result (λ _. raise_fault self.old ≡ None)
            (IsRefusedWith (raise_fault self.old)) }
        ensures unchanged { OnErr result (self.new ≡ self.old) }
    {
        if self.confirmations.len() >= MAX_CONFIRMATIONS {
            return Err(DeskFault::Full);
        }
        let one = Pending::new(*self.confirmations.allocator(), job, held, prompt, now)?;
        self.confirmations.push(one)?;
        Ok(())
    }

    /// The job of the oldest confirmation, and the second at which it was raised. Takes no memory.
    pub fn oldest(&self) -> Option<(u64, u64)>
        ensures { result ≡ oldest self.now }
    {
        let first = self.confirmations.first()?;
        Some((first.job(), first.raised_at()))
    }

    /// The child process of this job came to this port. Takes no memory.
    pub fn linked(&mut self, job: u64, port: u64)
        requires raised { IsSomeAnd (find_job job self.old) (λ one. one.port ≡ None) }
        requires free { find_linked port self.old ≡ None }
        ensures { self.new ≡ linked job port self.old }
    {
        link(&mut self.confirmations, job, port);
    }

    /// The least port above `after` where bytes are owed.
    pub fn next_owed(&self, after: u64) -> Option<u64>
        ensures { result ≡ next_owed after self.now }
    {
        next_owed(&self.confirmations, after)
    }

    /// The first `count` bytes that the child process at this port was owed are sent. Takes no memory.
    pub fn took(&mut self, port: u64, count: usize)
        requires there { IsSome (find_linked port self.old) }
        requires owed { count ≤ length (owed_to (find_linked port self.old)) }
        ensures { self.new ≡ took_at port count self.old }
    {
        take_at(&mut self.confirmations, port, count);
    }

    /// Takes in a piece of what the child process at this port sends, and tells what the user decided by it.
    ///
    /// A decision ends the confirmation, and wipes what the child process is still owed.
    pub fn told(&mut self, port: u64, piece: &[u8]) -> Result<Verdict, AllocError>
        requires { IsSome (find_linked port self.old) }
        ensures desk { OnOk result (self.new ≡ (telling port piece.now self.old).desk) }
        ensures verdict { IfOk result (λ verdict. verdict ≡ (telling port piece.now self.old).verdict) }
        ensures unchanged { OnErr result (self.new ≡ self.old) }
    {
        tell(&mut self.confirmations, port, piece)
    }

    /// The confirmation of this job is over: its child process is gone, or failed to start. Takes no memory.
    pub fn lose(&mut self, job: u64) -> Option<Held>
        ensures desk { self.new ≡ lose job self.old }
        ensures held { result ≡ option_map given_back (find_job job self.old) }
    {
        end(&mut self.confirmations, job)
    }
}
