//! The table of identities.

ghost use Rattle.std.specs.Prelude.{◌≡◌, ◌+◌, ◌≤◌, ◌↔◌, IsSome, IsTrue, IfOk, IfSome, MatchResult, None, OnOk, OnErr, length, slice_get};
ghost use Rattle.std.specs.Option.{option_copied};
ghost use Rattle.std.specs.Map.Iter.{ShowsInOrder, deref};
ghost use Rattle.identity_table.specs.Identities.{HeldKey, IsSound, added, find_identity, find_number, longest_private, next_death};
ghost use Rattle.identity_table.specs.Tables.{IsRefusedWith, add_fault, emptied, empty_table, expired, spent, without};

use crate::deadline::Deadline;
use crate::fault::AddFault;
use crate::identity::Identity;
use crate::records::Records;
use constraint_rec::Terms;
use key_blob::AddedKey;
use plain_lists::Bytes;
use std::alloc::Global;
use std::collections::btree_map::Values;
use std::marker::Model;

/// The identities that an agent holds, in order of first addition.
///
/// Seconds are those of one clock that never goes back.
#[derive(Drop)]
pub struct Table {
    records: Records,
    greatest: u64,
    life: Option<u32>,
}

impl Model for Table {
    ghost use Rattle.identity_table.specs.Identities.{TableState};
    ghost use Rattle.identity_table.specs.Indices.{IsIndexed, held};

    ghost Value = { TableState };

    ghost view = { λ table. record {
      identities = held table.records;
      greatest = table.greatest;
      last = table.records.last;
      life = table.life;
    } };

    ghost invariant = { λ table. IsIndexed table.records };
}

impl Table {
    /// An empty table. Identities that come without a lifetime live for `default_life` seconds.
    pub fn new(alloc: Global, default_life: Option<u32>) -> Table
        ensures { result ≡ empty_table default_life }
    {
        Table {
            records: Records::new(alloc),
            greatest: 0,
            life: default_life,
        }
    }

    /// Removes and wipes those whose lifetime has run out at second `now`.
    pub fn expire(&mut self, now: u64)
        requires { self.old.greatest ≤ now }
        ensures { self.new ≡ expired now self.old }
    {
        self.records.remove_dead(now);
        self.greatest = now;
    }

    /// Adds a key at second `now`, and gives the addition's number, which no other addition has.
    ///
    /// A key that is held already is replaced in its place and wiped. On a refusal, what was moved
    /// in is wiped.
    pub fn add(
        &mut self,
        key: AddedKey,
        terms: Terms,
        comment: &[u8],
        now: u64,
    ) -> Result<u64, AddFault>
        requires clock { self.old.greatest ≤ now }
        requires short { length key.private ≤ longest_private }
        requires usable { IfSome terms.uses (λ uses. 1 ≤ uses) }
        ensures number { IfOk result (λ number. number ≡ self.old.last + 1) }
        ensures added { OnOk result (self.new ≡ added self.old key terms comment.now now) }
        ensures fault { MatchResult result (λ _. add_fault self.old key terms comment.now now ≡ None)
            (IsRefusedWith (add_fault self.old key terms comment.now now)) }
        ensures unchanged { OnErr result (self.new ≡ self.old) }
    {
        let room = self.records.has_room(
            key.blob.as_slice(),
            key.private.len(),
            comment,
            terms.purposes.len(),
            terms.rules.as_slice(),
        );
        if !room {
            return Err(AddFault::ListFull);
        }
        if self.records.last == u64::MAX {
            return Err(AddFault::NumbersSpent);
        }
        let number = self.records.last + 1;
        let comment = Bytes::from_vec(Vec::from_slice(self.records.alloc, comment)?);
        let deadline = Deadline::of(now, terms.life, self.life);
        let identity = Identity::of(self.records.alloc, number, key, comment, deadline, terms)?;
        self.records.put(identity)?;
        self.greatest = now;
        Ok(number)
    }

    /// The identity with this blob.
    pub fn find(&self, blob: &[u8]) -> Option<&Identity>
        ensures value { option_copied result ≡ find_identity blob.now self.now.identities }
        ensures sound { IsSound self.now.identities self.now.last }
    {
        self.records.find(blob)
    }

    /// The identity of this addition, where it is held and wasn't replaced.
    pub fn by_number(&self, addition: u64) -> Option<&Identity>
        ensures value { option_copied result ≡ find_number addition self.now.identities }
        ensures sound { IsSound self.now.identities self.now.last }
    {
        self.records.find_number(addition)
    }

    /// The identity at this place, counted from 0. Goes over those before it.
    pub fn at(&self, place: usize) -> Option<&Identity>
        ensures { option_copied result ≡ slice_get self.now.identities place }
    {
        self.records.places.values().nth(place)
    }

    /// The identities, one after another. One message lists them all.
    pub fn iter(&self) -> Values<'_, u64, Identity>
        ensures value { result ≡ self.now.identities }
        ensures runs { ShowsInOrder (deref {X = HeldKey}) }
        ensures sound { IsSound self.now.identities self.now.last }
    {
        self.records.places.values()
    }

    /// The greatest second so far.
    pub fn greatest(&self) -> u64
        ensures { result ≡ self.now.greatest }
    {
        self.greatest
    }

    /// How many identities there are.
    pub fn len(&self) -> usize
        ensures value { result ≡ length self.now.identities }
        ensures sound { IsSound self.now.identities self.now.last }
    {
        self.records.places.len()
    }

    /// Removes and wipes the identity with this blob, and tells whether there was one.
    pub fn remove(&mut self, blob: &[u8]) -> bool
        ensures there { IsTrue result ↔ IsSome (find_identity blob.now self.old.identities) }
        ensures removed { self.new ≡ without blob.now self.old }
    {
        self.records.remove(blob)
    }

    /// Counts one more use of the identity of this addition, where its uses are limited. Removes and
    /// wipes it after its last. Takes no memory.
    pub fn spend(&mut self, addition: u64)
        requires { IsSome (find_number addition self.old.identities) }
        ensures { self.new ≡ spent addition self.old }
    {
        self.records.spend(addition);
    }

    /// Removes and wipes all identities.
    pub fn remove_all(&mut self)
        ensures { self.new ≡ emptied self.old }
    {
        self.records.clear();
    }

    /// The first second from which an identity is dead, or `None` where the clock comes to none.
    pub fn next_death(&self) -> Option<u64>
        ensures { result ≡ next_death self.now.identities }
    {
        self.records.first_death()
    }
}
