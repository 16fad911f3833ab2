//! How long all that is under way may be waited for.

ghost use Rattle.std.specs.Prelude.{◌≡◌};
ghost use Rattle.identity_table.specs.Deaths.{earlier};

/// How many seconds an ask may be unanswered, and a confirmation be open, where there is a limit.
#[derive(Clone, Copy, Debug, PartialEq, Eq)]
pub struct TimeLimits {
    pub ask: Option<u32>,
    pub confirmation: Option<u32>,
}

/// The earlier of two seconds, where there are two.
pub fn earlier(second: Option<u64>, other: Option<u64>) -> Option<u64>
    ensures { result ≡ earlier second other }
{
    match (second, other) {
        (Some(second), Some(other)) => Some(second.min(other)),
        (Some(second), None) => Some(second),
        (None, other) => other,
    }
}
