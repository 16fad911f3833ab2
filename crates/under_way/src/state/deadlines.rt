//! What has been waited for as long as it may be.

ghost use Rattle.std.specs.Prelude.{◌≡◌, ◌≢◌, ◌≤◌, IsTrue};
ghost use Rattle.std.specs.Option.{option_map};
ghost use Rattle.confirm_desk.specs.Confirmations.{job_of};
ghost use Rattle.agent_model.specs.State.{limit_from, next_limit};
ghost use Rattle.under_way.specs.Times.{limits_of};
ghost use Rattle.agent_model.specs.Time.{first_late, has_lasted, is_helper_late};

use crate::state::UnderWay;
use crate::time::{TimeLimits, earlier};
use helper_link::LinkState;

impl UnderWay {
    /// The limits that it began with.
    pub fn limits(&self) -> TimeLimits
        ensures { limits_of result ≡ self.now.limits }
    {
        self.limits
    }

    /// The greatest second of the monotonic clock is this one from now on. Takes no memory.
    pub fn pass(&mut self, second: u64)
        requires { self.old.second ≤ second }
        ensures { self.new ≡ record self.old { second = second } }
    {
        self.second = second;
    }

    /// Whether the helper hasn't answered in time.
    pub fn is_helper_late(&self) -> bool
        ensures value { result ≡ is_helper_late self.now }
        ensures some { IsTrue result → self.now.link.state ≢ LinkState.None }
    {
        match self.link.oldest() {
            Some(put_at) => has_lasted(self.limits.ask, put_at, self.second),
            None => false,
        }
    }

    /// The job of the first confirmation that the user hasn't answered in time: the first of all is the oldest.
    pub fn late_confirmation(&self) -> Option<u64>
        ensures { result ≡ option_map job_of (first_late self.now) }
    {
        let first = self.desk.as_slice().first()?;
        if has_lasted(self.limits.confirmation, first.raised_at(), self.second) {
            Some(first.job())
        } else {
            None
        }
    }

    /// The second at which something under way has been waited for as long as it may be, or `None` where the clock
    /// comes to none.
    pub fn next_limit(&self) -> Option<u64>
        ensures { result ≡ next_limit self.now }
    {
        let ask = limit_from(self.limits.ask, self.link.oldest());
        let confirmation = limit_from(
            self.limits.confirmation,
            self.desk.oldest().map(|(_, raised_at)| raised_at),
        );
        earlier(ask, confirmation)
    }
}

// Whether what began at one second has lasted the limit at another, where there is one.
fn has_lasted(limit: Option<u32>, since: u64, now: u64) -> bool
    ensures { result ≡ has_lasted limit since now }
{
    match (limit, now.checked_sub(since)) {
        (Some(limit), Some(lasted)) => lasted >= u64::from(limit),
        _ => false,
    }
}

// The second at which what began at one has lasted the limit, where both are there and the clock comes to it.
fn limit_from(limit: Option<u32>, since: Option<u64>) -> Option<u64>
    ensures { result ≡ limit_from limit since }
{
    since?.checked_add(u64::from(limit?))
}
