//! Where identities stand, and what finds them.

ghost use Rattle.std.specs.Prelude.{◌≡◌, ◌+◌, ◌≤◌, ◌<◌, ◌↔◌, ℕ, [], false, not, IsSome, IsTrue, IfSome, IfNone, Some, None, MatchBool, OnOk, OnErr, length};
ghost use Rattle.std.specs.Option.{option_copied};
ghost use Rattle.std.specs.Ordering.{nat_cmp};
ghost use Rattle.std.specs.BTreeMap.{btree_map_len, get};
ghost use Rattle.identity_table.specs.Deaths.{lives_at};
ghost use Rattle.identity_table.specs.Identities.{HeldKey, IsSound, alive_at, answer_len, entry_len, find_identity, find_number, is_full, kept_by, kept_if, kept_len, longest_private, max_answer, next_death, put_identity, remove_identity, spend_identity, taken_by};
ghost use Rattle.identity_table.specs.Indices.{IsIndexed, IsChanged, death_by, death_cmp, death_key, held, held_at, place_of_blob, place_of_death, place_of_number};

use crate::identity::Identity;
use crate::room::{is_room_beside, room_of};
use constraint_rec::Constraint;
use frame_core::LONGEST_BODY;
use std::alloc::{AllocError, Global};
use std::collections::BTreeMap;

// The longest body of an answer: the protocol's clients take no longer one.
const MAX_ANSWER: usize = LONGEST_BODY as usize;

/// Identities at places that rise in order of first addition, found by blob, addition and death.
///
/// A place is the number of the addition that first took it; a replacement keeps it. The blobs in
/// the index are copies, and public.
#[derive(Drop)]
pub struct Records {
    pub alloc: Global,
    pub places: BTreeMap<u64, Identity>,
    blobs: BTreeMap<Vec<u8>, u64>,
    numbers: BTreeMap<u64, u64>,
    // By death and then by addition, since several may die in one second.
    deaths: BTreeMap<(u64, u64), u64>,
    // How long the answer is that lists all.
    pub listed: usize,
    // How much room the private strings, the purposes and the constraints of all take.
    pub kept: usize,
    // The number of the last addition.
    pub last: u64,
}

impl Records {
    /// No identities.
    pub fn new(alloc: Global) -> Records
        ensures indexed { IsIndexed result }
        ensures none { held result ≡ [] }
        ensures last { result.last ≡ 0 }
    {
        Records {
            alloc,
            places: BTreeMap::new(alloc),
            blobs: BTreeMap::new(alloc),
            numbers: BTreeMap::new(alloc),
            deaths: BTreeMap::new(alloc),
            listed: 5,
            kept: 0,
            last: 0,
        }
    }

    /// The identity with this blob.
    pub fn find(&self, blob: &[u8]) -> Option<&Identity>
        requires { IsIndexed self.now }
        ensures { option_copied result ≡ find_identity blob.now (held self.now) }
    {
        match self.blobs.get(blob) {
            Some(place) => self.places.get(place),
            None => None,
        }
    }

    /// The identity of this addition.
    pub fn find_number(&self, number: u64) -> Option<&Identity>
        requires { IsIndexed self.now }
        ensures { option_copied result ≡ find_number number (held self.now) }
    {
        match self.numbers.get(&number) {
            Some(place) => self.places.get(place),
            None => None,
        }
    }

    /// The first second from which one of them is dead, where the clock comes to it.
    pub fn first_death(&self) -> Option<u64>
        requires { IsIndexed self.now }
        ensures { result ≡ next_death (held self.now) }
    {
        match self.deaths.first_key_value() {
            Some(((death, _), _)) => Some(*death),
            None => None,
        }
    }

    /// How long the answer is that lists all but the one with this blob.
    fn others_len(&self, blob: &[u8]) -> usize
        requires { IsIndexed self.now }
        ensures { result + taken_by (find_identity blob.now (held self.now))
            ≡ answer_len (held self.now) }
    {
        match self.find(blob) {
            Some(identity) => self.listed - entry_len_of(identity),
            None => self.listed,
        }
    }

    /// How much room all take but the one with this blob.
    fn others_kept(&self, blob: &[u8]) -> usize
        requires { IsIndexed self.now }
        ensures { result + kept_if (find_identity blob.now (held self.now))
            ≡ kept_len (held self.now) }
    {
        match self.find(blob) {
            Some(identity) => self.kept - room_of_held(identity),
            None => self.kept,
        }
    }

    /// Whether an answer can list them all after an addition of these parts, and they take no more
    /// room than they may.
    pub fn has_room(
        &self,
        blob: &[u8],
        private: usize,
        comment: &[u8],
        purposes: usize,
        rules: &[Constraint],
    ) -> bool
        requires { IsIndexed self.now }
        ensures { (new : HeldKey) → new.blob ≡ blob.now → length new.private ≡ private →
            new.comment ≡ comment.now → length new.purposes ≡ purposes → new.rules ≡ rules.now →
            result ≡ not (is_full (put_identity new (held self.now))) }
    {
        let lists = fits(self.others_len(blob), blob, comment);
        let takes = is_room_beside(self.others_kept(blob), private, purposes, rules);
        lists && takes
    }

    /// Puts `identity` into the place of the one with its blob, or at the end. On a refusal, all
    /// stands as it did.
    pub fn put(&mut self, identity: Identity) -> Result<(), AllocError>
        requires indexed { IsIndexed self.old }
        requires number { identity.number ≡ self.old.last + 1 }
        requires fits { is_full (put_identity identity (held self.old)) ≡ false }
        requires short { length identity.private ≤ longest_private }
        requires usable { IfSome identity.uses (λ uses. 1 ≤ uses) }
        ensures indexed { IsIndexed self.new }
        ensures ok { OnOk result (held self.new ≡ put_identity identity (held self.old)) }
        ensures last { OnOk result (self.new.last ≡ identity.number) }
        ensures err { OnErr result (held self.new ≡ held self.old) }
        ensures unchanged { OnErr result (self.new.last ≡ self.old.last) }
    {
        match self.blobs.get(identity.blob()) {
            Some(place) => {
                let place = *place;
                self.replace(place, identity)
            }
            None => self.push(identity),
        }
    }

    // Puts `identity`, whose blob is new, behind the others.
    fn push(&mut self, identity: Identity) -> Result<(), AllocError>
        requires indexed { IsIndexed self.old }
        requires blob { place_of_blob self.old identity.blob ≡ None }
        requires number { identity.number ≡ self.old.last + 1 }
        requires fits { is_full (put_identity identity (held self.old)) ≡ false }
        requires short { length identity.private ≤ longest_private }
        requires usable { IfSome identity.uses (λ uses. 1 ≤ uses) }
        ensures indexed { IsIndexed self.new }
        ensures ok { OnOk result (held self.new ≡ put_identity identity (held self.old)) }
        ensures last { OnOk result (self.new.last ≡ identity.number) }
        ensures err { OnErr result (held self.new ≡ held self.old) }
        ensures unchanged { OnErr result (self.new.last ≡ self.old.last) }
    {
        let blob = Vec::from_slice(self.alloc, identity.blob())?;
        let number = identity.addition();
        let death = identity.death();
        let len = entry_len_of(&identity);
        let room = room_of_held(&identity);
        enter(&mut self.numbers, &mut self.deaths, number, death, number)?;
        if let Err(_) = self.blobs.insert(blob, number) {
            leave(&mut self.numbers, &mut self.deaths, number, death);
            return Err(AllocError);
        }
        match self.places.insert(number, identity) {
            Ok(_) => {
                self.listed += len;
                self.kept += room;
                self.last = number;
                Ok(())
            }
            Err(refused) => {
                let (_, identity) = refused.value;
                self.blobs.remove(identity.blob());
                leave(&mut self.numbers, &mut self.deaths, number, death);
                Err(AllocError)
            }
        }
    }

    // Puts `identity` into this place, where one stands that has its blob.
    fn replace(&mut self, place: u64, identity: Identity) -> Result<(), AllocError>
        requires indexed { IsIndexed self.old }
        requires blob { place_of_blob self.old identity.blob ≡ Some place }
        requires number { identity.number ≡ self.old.last + 1 }
        requires fits { is_full (put_identity identity (held self.old)) ≡ false }
        requires short { length identity.private ≤ longest_private }
        requires usable { IfSome identity.uses (λ uses. 1 ≤ uses) }
        ensures indexed { IsIndexed self.new }
        ensures ok { OnOk result (held self.new ≡ put_identity identity (held self.old)) }
        ensures last { OnOk result (self.new.last ≡ identity.number) }
        ensures err { OnErr result (held self.new ≡ held self.old) }
        ensures unchanged { OnErr result (self.new.last ≡ self.old.last) }
    {
        let number = identity.addition();
        let len = entry_len_of(&identity);
        let room = room_of_held(&identity);
        enter(
            &mut self.numbers,
            &mut self.deaths,
            number,
            identity.death(),
            place,
        )?;
        // The place is taken, so that no memory is asked for, and one is replaced.
        let Some(old) = self.places.insert(place, identity)? else {
            return Err(AllocError);
        };
        leave(
            &mut self.numbers,
            &mut self.deaths,
            old.addition(),
            old.death(),
        );
        self.listed = self.listed - entry_len_of(&old) + len;
        self.kept = self.kept - room_of_held(&old) + room;
        self.last = number;
        Ok(())
    }

    /// Removes the identity with this blob, and tells whether there was one.
    pub fn remove(&mut self, blob: &[u8]) -> bool
        requires { IsIndexed self.old }
        ensures indexed { IsIndexed self.new }
        ensures there { IsTrue result ↔ IsSome (find_identity blob.now (held self.old)) }
        ensures removed { held self.new ≡ remove_identity blob.now (held self.old) }
        ensures last { self.new.last ≡ self.old.last }
    {
        match self.blobs.get(blob) {
            Some(place) => {
                let place = *place;
                self.take(place);
                true
            }
            None => false,
        }
    }

    /// Counts one more use of the identity of this addition, and removes it after its last.
    pub fn spend(&mut self, number: u64)
        requires { IsIndexed self.old }
        ensures indexed { IsIndexed self.new }
        ensures spent { held self.new ≡ spend_identity number (held self.old) }
        ensures last { self.new.last ≡ self.old.last }
    {
        let Some(place) = self.numbers.get(&number) else {
            return;
        };
        let place = *place;
        let Some(identity) = self.places.get(&place) else {
            return;
        };
        match identity.uses() {
            Some(uses) if uses > 1 => self.leave_uses(place, uses - 1),
            Some(_) => self.take(place),
            None => {}
        }
    }

    // Leaves the identity at this place so many uses, one less than it had.
    fn leave_uses(&mut self, place: u64, uses: u32)
        requires indexed { IsIndexed self.old }
        requires some { 1 ≤ uses }
        requires less { IfSome (held_at self.old place) (λ one. one.uses ≡ Some (uses + 1)) }
        ensures indexed { IsIndexed self.new }
        ensures spent { IfSome (held_at self.old place)
            (λ one. held self.new ≡ spend_identity one.number (held self.old)) }
        ensures last { self.new.last ≡ self.old.last }
    {
        if let Some(identity) = self.places.get_mut(&place) {
            identity.leave_uses(uses);
        }
    }

    // Removes the identity at this place.
    fn take(&mut self, place: u64)
        requires indexed { IsIndexed self.old }
        requires there { IsSome (held_at self.old place) }
        ensures indexed { IsIndexed self.new }
        ensures removed { IfSome (held_at self.old place)
            (λ one. held self.new ≡ remove_identity one.blob (held self.old)) }
        ensures fewer { btree_map_len self.new.places < btree_map_len self.old.places }
        ensures last { self.new.last ≡ self.old.last }
    {
        if let Some(identity) = self.places.remove(&place) {
            self.blobs.remove(identity.blob());
            leave(
                &mut self.numbers,
                &mut self.deaths,
                identity.addition(),
                identity.death(),
            );
            self.listed -= entry_len_of(&identity);
            self.kept -= room_of_held(&identity);
        }
    }

    // The place of the first that is dead at second `now`.
    fn first_dead(&self, now: u64) -> Option<u64>
        requires { IsIndexed self.now }
        ensures dead { IfSome result
            (λ place. IfSome (held_at self.now place) (λ one. lives_at now one.death ≡ false)) }
        ensures there { IfSome result (λ place. IsSome (held_at self.now place)) }
        ensures none { IfNone result (alive_at now (held self.now) ≡ held self.now) }
    {
        let Some(((death, _), place)) = self.deaths.first_key_value() else {
            return None;
        };
        if *death <= now { Some(*place) } else { None }
    }

    /// Removes those whose lifetime has run out at second `now`. Looks at the first death alone
    /// where none has.
    pub fn remove_dead(&mut self, now: u64)
        requires { IsIndexed self.old }
        ensures indexed { IsIndexed self.new }
        ensures alive { held self.new ≡ alive_at now (held self.old) }
        ensures last { self.new.last ≡ self.old.last }
    {
        'dead: while let Some(place) = self.first_dead(now) {
            self.take(place);
        }
    }

    /// Removes all.
    pub fn clear(&mut self)
        requires { IsIndexed self.old }
        ensures indexed { IsIndexed self.new }
        ensures none { held self.new ≡ [] }
        ensures last { self.new.last ≡ self.old.last }
    {
        self.places.clear();
        self.blobs.clear();
        self.numbers.clear();
        self.deaths.clear();
        self.listed = 5;
        self.kept = 0;
    }
}

// Enters an addition's number and its death for this place, or neither where memory is wanting.
fn enter(
    numbers: &mut BTreeMap<u64, u64>,
    deaths: &mut BTreeMap<(u64, u64), u64>,
    number: u64,
    death: Option<u64>,
    place: u64,
) -> Result<(), AllocError>
    requires number { get nat_cmp numbers.old number ≡ None }
    ensures numbers { OnOk result
        (IsChanged (get nat_cmp numbers.old) (Some number) (Some place) (get nat_cmp numbers.new)) }
    ensures deaths { OnOk result
        (IsChanged (get death_cmp deaths.old) (death_by death number) (Some place)
        (get death_cmp deaths.new)) }
    ensures no_number { OnErr result
        ((key : ℕ) → get nat_cmp numbers.new key ≡ get nat_cmp numbers.old key) }
    ensures no_death { OnErr result
        ((key : ℕ × ℕ) → get death_cmp deaths.new key ≡ get death_cmp deaths.old key) }
{
    numbers.insert(number, place)?;
    let Some(death) = death else {
        return Ok(());
    };
    match deaths.insert((death, number), place) {
        Ok(_) => Ok(()),
        Err(_) => {
            numbers.remove(&number);
            Err(AllocError)
        }
    }
}

// Takes an addition's number and its death out again.
fn leave(
    numbers: &mut BTreeMap<u64, u64>,
    deaths: &mut BTreeMap<(u64, u64), u64>,
    number: u64,
    death: Option<u64>,
)
    ensures numbers { IsChanged (get nat_cmp numbers.old) (Some number) None
        (get nat_cmp numbers.new) }
    ensures deaths { IsChanged (get death_cmp deaths.old) (death_by death number) None
        (get death_cmp deaths.new) }
{
    numbers.remove(&number);
    if let Some(death) = death {
        deaths.remove(&(death, number));
    }
}

// How much of an answer an identity takes, where it is no longer than an answer may be.
fn entry_len_of(identity: &Identity) -> usize
    requires { entry_len identity.now ≤ max_answer }
    ensures { result ≡ entry_len identity.now }
{
    8 + identity.blob().len() + identity.comment().len()
}

// How much room an identity takes, where that is no more than all may take.
fn room_of_held(identity: &Identity) -> usize
    requires { kept_by identity.now ≤ 8388608 }
    ensures { result ≡ kept_by identity.now }
{
    room_of(
        identity.private().len(),
        identity.purposes().len(),
        identity.rules(),
    )
}

// Whether an answer of `others` bytes has room for one more blob and comment.
fn fits(others: usize, blob: &[u8], comment: &[u8]) -> bool
    requires { others ≤ max_answer }
    ensures { MatchBool result (others + (8 + (length blob.now + length comment.now)) ≤ max_answer)
        (max_answer < others + (8 + (length blob.now + length comment.now))) }
{
    blob.len() <= MAX_ANSWER
        && comment.len() <= MAX_ANSWER
        && others + 8 + blob.len() + comment.len() <= MAX_ANSWER
}
