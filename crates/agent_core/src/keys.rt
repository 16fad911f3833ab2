//! What the agent holds.

ghost use Rattle.std.specs.Prelude.{◌≡◌, ◌≤◌, [], None, Some, IfOk, IfSome, IsSome, OnOk, length};
ghost use Rattle.identity_table.specs.Identities.{IsSound, find_number, next_death};
ghost use Rattle.agent_model.specs.KeyStates.{after_use, expired, no_keys};
ghost use Rattle.wire_text.specs.Bounds.{longest_body};
ghost use Rattle.agent_model.specs.Step.{attempts};
ghost use Rattle.agent_model.specs.Verdicts.{verdict_text, verdict_waits};
ghost use Rattle.confirm_desk.specs.Confirmations.{find_asker};
ghost use Rattle.std.specs.Option.{option_copied};
ghost use Rattle.agent_core.specs.Confirmers.{IsShortKey, granted_key};
ghost use Rattle.agent_core.specs.Served.{served_body};
ghost use Rattle.agent_core.specs.Slots.{waits_of};

use crate::asker::Asker;
use crate::granted::find_granted;
use crate::owed::Owed;
use crate::requests::answer;
use crate::waits::Waits;
use agent_msg::names_bind;
use dest_rule::Chain;
use identity_table::{Identity, Lock, Table};
use std::alloc::{AllocError, Global};
use std::marker::Model;
use under_way::UnderWay;

/// The identities and the lock.
#[derive(Drop)]
pub struct Keys {
    alloc: Global,
    table: Table,
    lock: Lock,
}

impl Model for Keys {
    ghost use Rattle.agent_model.specs.KeyStates.{KeyState};

    ghost Value = { KeyState };

    ghost view = { λ keys. record { table = keys.table; lock = keys.lock } };
}

impl Keys {
    /// No identities, in an agent that isn't locked. Takes no memory.
    pub fn new(alloc: Global, default_life: Option<u32>) -> Keys
        ensures { result ≡ no_keys default_life }
    {
        Keys {
            alloc,
            table: Table::new(alloc, default_life),
            lock: Lock::new(),
        }
    }

    /// How many identities are held.
    pub fn len(&self) -> usize
        ensures value { result ≡ length self.now.table.identities }
        ensures sound { IsSound self.now.table.identities self.now.table.last }
    {
        self.table.len()
    }

    /// The first second from which an identity is dead.
    pub fn next_death(&self) -> Option<u64>
        ensures { result ≡ next_death self.now.table.identities }
    {
        self.table.next_death()
    }

    /// The greatest second so far.
    pub fn second(&self) -> u64
        ensures { result ≡ self.now.table.greatest }
    {
        self.table.greatest()
    }

    /// Removes and wipes the identities whose lifetime has run out.
    pub fn expire(&mut self, now: u64)
        requires { self.old.table.greatest ≤ now }
        ensures { self.new ≡ expired now self.old }
    {
        self.table.expire(now);
    }

    /// Counts one more use of the identity of this addition, where its uses are limited, and removes and wipes it after
    /// its last. Takes no memory.
    pub fn spend(&mut self, addition: u64)
        requires { IsSome (find_number addition self.old.table.identities) }
        ensures { self.new ≡ after_use (Some addition) self.old }
    {
        self.table.spend(addition);
    }

    /// Whether a body with which the client asks makes its connection count as one that tried to bind itself: a
    /// locked agent doesn't look.
    pub fn is_attempt(&self, body: &[u8]) -> bool
        ensures { result ≡ attempts self.now.lock body.now }
    {
        !self.lock.is_locked() && names_bind(body)
    }

    /// Does what the request of this body asks: owes the reply, or tells what the asker waits for.
    pub fn serve(
        &mut self,
        under_way: &mut UnderWay,
        asker: &Asker<'_>,
        body: &[u8],
        owed: &mut Owed,
    ) -> Result<Waits, AllocError>
        requires nothing { owed.old ≡ [] }
        requires short { length body.now ≤ longest_body }
        requires alone { find_asker asker.now.port under_way.old.confirmations ≡ None }

        ensures keys { OnOk result (self.new ≡ (served_body asker.now body.now self.old under_way.old).held) }
        ensures under_way { OnOk result
            (under_way.new ≡ (served_body asker.now body.now self.old under_way.old).work.under_way) }
        ensures reply { OnOk result
            (owed.new ≡ verdict_text (served_body asker.now body.now self.old under_way.old).work.verdict) }
        ensures waits { IfOk result (λ waits.
            waits_of waits ≡ verdict_waits (served_body asker.now body.now self.old under_way.old).work.verdict) }
    {
        answer(
            self.alloc,
            &mut self.table,
            &mut self.lock,
            under_way,
            asker,
            body,
            owed,
        )
    }
}

impl Keys {
    /// The key of an addition, where it is held yet, the agent isn't locked and the key may sign the message with these
    /// flags now.
    pub fn find_granted(
        &self,
        addition: u64,
        chain: &Chain,
        message: &[u8],
        flags: u32,
        wall: u64,
    ) -> Option<&Identity>
        ensures value { option_copied result
            ≡ granted_key addition chain.now.bindings message.now flags wall self.now }
        ensures short { IfSome result (λ key. IsShortKey key.now) }
    {
        find_granted(
            &self.table,
            &self.lock,
            addition,
            chain,
            message,
            flags,
            wall,
        )
    }
}
