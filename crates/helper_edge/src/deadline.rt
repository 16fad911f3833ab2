//! How long the program behind may take for an answer, by the clock's seconds.

ghost use Rattle.std.specs.Prelude.{◌≡◌, ◌+◌, ◌<◌, ◌≤◌, ◌^◌, MatchOption};

/// How many seconds the program may take for an answer, its start included (ours).
pub const SECONDS: u64 = 20;

/// The second of the clock by which an answer has to be there.
#[derive(Clone, Copy)]
pub struct Deadline {
    second: u64,
}

impl Deadline {
    /// The deadline of what is asked in this second: 20 seconds later, where the clock goes so far.
    pub fn after(now: u64) -> Option<Deadline>
        ensures { MatchOption result (2 ^ 64 ≤ now + 20) (λ deadline. deadline.second ≡ now + 20) }
    {
        Some(Deadline {
            second: now.checked_add(SECONDS)?,
        })
    }

    /// How many seconds are left in this one, one at least; none once the deadline is there.
    pub fn left(&self, now: u64) -> Option<u64>
        ensures { MatchOption result (self.now.second ≤ now)
            (λ seconds. (0 < seconds) × (now + seconds ≡ self.now.second)) }
    {
        match self.second.checked_sub(now) {
            Some(0) => None,
            left => left,
        }
    }
}
