//! The constraints of one key together: lifetime, confirmation, uses, destinations and purposes.

ghost use Rattle.std.specs.Prelude.{◌≡◌};
ghost use Rattle.constraint_rec.specs.Constraints.{no_terms};

use crate::constraint::Constraint;
use key_purposes::Purpose;
use plain_lists::PlainList;
use std::alloc::Global;

/// What a client asks of an agent about a key that it adds.
#[derive(Debug, Drop)]
pub struct Terms {
    /// For how many seconds the key is held.
    pub life: Option<u32>,
    /// Whether each use is to be confirmed.
    pub confirm: bool,
    /// How often the key may be used. At least 1 where it is there.
    pub uses: Option<u32>,
    /// Where the key may be used. Empty where it may be used anywhere.
    pub rules: PlainList<Constraint>,
    /// What the key's signatures may be for. Empty where they may be for anything.
    pub purposes: PlainList<Purpose>,
}

impl Terms {
    /// No constraint at all. Takes no memory.
    pub fn new(alloc: Global) -> Terms
        ensures { result ≡ no_terms }
    {
        Terms {
            life: None,
            confirm: false,
            uses: None,
            rules: PlainList::new(alloc),
            purposes: PlainList::new(alloc),
        }
    }
}
