//! The passphrases of a run.

ghost use Rattle.std.specs.Prelude.{◌≡◌, [], Err, IfOk, OnOk, OnErr, Some, false, length, nat_eq, refl, true};
ghost use Rattle.std.specs.Cmp.{partial_equiv_from_equiv};
ghost use Rattle.std.specs.Cmp.Lexicographic.{nat_list_cmp_total, nat_list_eq_equiv, pointwise, slice_cmp, texts_po, texts_ties};
ghost use Rattle.std.specs.Ordering.{nat_cmp};
ghost use Rattle.redact_core.specs.Redaction.{is_over, noted, number_of};
ghost use Rattle.redact_core.specs.declared.fault.RedactFault.TheVariants.{Full};

use crate::RedactFault;
use secret_buf::ScrubBuf;
use std::alloc::{AllocError, Global};
use std::cmp::Ordering;
use std::collections::BTreeMap;
use std::marker::Model;

/// How much room passphrases may take in all, in bytes.
const MOST_KEPT: usize = 4_194_304;

/// How much room the place of one takes besides its bytes.
const PLACE_LEN: usize = 64;

/// A passphrase that came. Dropping it wipes it.
#[derive(Drop)]
pub struct Passphrase {
    bytes: ScrubBuf,
}

impl Model for Passphrase {
    ghost use Rattle.std.specs.Prelude.{List, ℕ};

    ghost Value = { List ℕ };

    ghost view = { λ passphrase. passphrase.bytes.live };
}

impl Passphrase {
    /// A copy of these bytes.
    pub fn from_slice(alloc: Global, bytes: &[u8]) -> Result<Passphrase, AllocError>
        ensures { IfOk result (λ passphrase. passphrase ≡ bytes.now) }
    {
        let mut held = ScrubBuf::new(alloc);
        held.push_slice(bytes)?;
        Ok(Passphrase { bytes: held })
    }

    fn len(&self) -> usize
        ensures { result ≡ length self.now }
    {
        self.bytes.live().len()
    }
}

impl PartialEq for Passphrase {
    ghost eq = { λ x y. pointwise nat_eq x y };

    ghost laws = { partial_equiv_from_equiv nat_list_eq_equiv };

    fn eq(&self, other: &Passphrase) -> bool {
        self.bytes.live() == other.bytes.live()
    }
}

impl Eq for Passphrase {
    ghost laws = { nat_list_eq_equiv };
}

impl PartialOrd for Passphrase {
    ghost partial_cmp = { λ x y. Some (slice_cmp nat_cmp x y) };

    ghost laws = { texts_po };

    fn partial_cmp(&self, other: &Passphrase) -> Option<Ordering> {
        Some(self.cmp(other))
    }
}

impl Ord for Passphrase {
    ghost cmp = { λ x y. slice_cmp nat_cmp x y };

    ghost total = { nat_list_cmp_total };

    ghost matches_partial_cmp = { λ x y. refl };

    ghost matches_eq = { λ x y. texts_ties x y };

    fn cmp(&self, other: &Passphrase) -> Ordering {
        self.bytes.live().cmp(other.bytes.live())
    }
}

/// The passphrases of the locks and unlocks of a run, in the order in which they first came, found by an ordered index.
/// What they take is bounded.
///
/// Dropping them wipes them.
#[derive(Drop)]
pub struct Passphrases {
    alloc: Global,
    // The place of each, counted from 0.
    places: BTreeMap<Passphrase, usize>,
    // How much room all take.
    kept: usize,
}

impl Model for Passphrases {
    ghost use Rattle.std.specs.Prelude.{List, ℕ};
    ghost use Rattle.redact_core.specs.Places.{IsPlaced, placed};

    ghost Value = { List (List ℕ) };

    ghost view = { λ passphrases. placed passphrases.places.entries };

    ghost invariant = { λ passphrases. IsPlaced passphrases.places.entries passphrases.kept };
}

impl Passphrases {
    /// No passphrases. Takes no memory.
    pub fn new(alloc: Global) -> Passphrases
        ensures { result ≡ [] }
    {
        Passphrases {
            alloc,
            places: BTreeMap::new(alloc),
            kept: 0,
        }
    }

    /// What they are kept by.
    pub(crate) fn allocator(&self) -> Global {
        self.alloc
    }

    /// The number of a passphrase: its place, counted from 1, or the next one where it is new.
    pub(crate) fn number_of(&self, passphrase: &Passphrase) -> usize
        ensures { result ≡ number_of passphrase.now self.now }
    {
        match self.places.get(passphrase) {
            Some(place) => *place + 1,
            None => self.places.len() + 1,
        }
    }

    /// Keeps a passphrase, unless it is there or they would take too much room.
    pub(crate) fn note(&mut self, passphrase: Passphrase) -> Result<(), RedactFault>
        ensures ok { OnOk result (self.new ≡ noted passphrase self.old) }
        ensures fits { OnOk result (is_over (noted passphrase self.old) ≡ false) }
        ensures err { OnErr result (self.new ≡ self.old) }
        ensures full { result ≡ Err Full → is_over (noted passphrase self.old) ≡ true }
    {
        if self.places.contains_key(&passphrase) {
            return Ok(());
        }
        let room = passphrase.len() + PLACE_LEN;
        if room > MOST_KEPT - self.kept {
            return Err(RedactFault::Full);
        }
        let place = self.places.len();
        match self.places.insert(passphrase, place) {
            Ok(_) => {
                self.kept += room;
                Ok(())
            }
            Err(_) => Err(RedactFault::Memory),
        }
    }
}
