//! When identities end.

ghost use Rattle.std.specs.Prelude.{◌≡◌, Some};
ghost use Rattle.identity_table.specs.Deaths.{death_of, on_clock};

use std::marker::Model;

/// When an identity ends: so many seconds after its addition.
///
/// Kept as the two, since their sum may pass the clock's end.
#[derive(Drop)]
pub struct Deadline {
    added: u64,
    life: u32,
}

impl Model for Deadline {
    ghost use Rattle.std.specs.Prelude.{ℕ, ◌+◌};

    ghost Value = { ℕ };

    ghost view = { λ deadline. deadline.added + deadline.life };
}

impl Deadline {
    /// The end of an addition at second `now`, by its own lifetime or the default.
    pub fn of(now: u64, life: Option<u32>, default: Option<u32>) -> Option<Deadline>
        ensures { result ≡ death_of now life default }
    {
        match (life, default) {
            (Some(life), _) | (None, Some(life)) => Some(Deadline { added: now, life }),
            (None, None) => None,
        }
    }

    /// The second, where the clock comes to it.
    pub fn second(&self) -> Option<u64>
        ensures { result ≡ on_clock (Some self.now) }
    {
        self.added.checked_add(self.life as u64)
    }
}
