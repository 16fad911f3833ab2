//! A chain of bindings against destination constraints.

ghost use Rattle.std.specs.Prelude.{◌≡◌, ◌<◌, ◌^◌, IfSome, length, is_none, ◌&&◌};
ghost use Rattle.std.specs.Option.{option_map};
ghost use Rattle.dest_rule.specs.HostKeys.{IsRead};
ghost use Rattle.dest_rule.specs.Rules.{admits, permits_pair, is_pair, on_the_way, is_good, bad_place_in, leads_on, goes_on};
ghost use Rattle.dest_rule.specs.GroundsOf.{grounds_of};

use crate::binding::Binding;
use crate::host_key::{HostKey, is_hop, leaves, read_host_key};
use constraint_rec::Constraint;
use pattern_core::matches;

/// By what a chain is judged.
#[derive(Clone, Copy)]
pub struct Grounds<'a> {
    pub rules: &'a [Constraint],
    /// The user who is to log in, if any is.
    pub user: Option<&'a [u8]>,
    /// Seconds since 1970.
    pub wall: u64,
}

/// Whether a hop's pattern lets the user in, where one is to log in.
fn admits(pattern: &[u8], user: Option<&[u8]>) -> bool
    ensures { result ≡ admits pattern.now (option_map (λ name. name.now) user.entry) }
{
    match user {
        None => true,
        Some(user) => pattern.is_empty() || matches(user, pattern),
    }
}

impl Grounds<'_> {
    /// Whether this constraint permits to go from the previous host, or the agent's own, to this.
    pub fn permits_pair(
        &self,
        previous: Option<&HostKey<'_>>,
        host: &HostKey<'_>,
        rule: &Constraint,
    ) -> bool
        requires left { IfSome previous (λ key. IsRead key.now) }
        requires entered { IsRead host.now }
        ensures { result ≡ permits_pair (grounds_of self.now)
            (option_map (λ key. key.now.blob.now) previous.entry) host.now.blob.now rule.now }
    {
        leaves(&rule.from, previous, self.wall)
            && is_hop(&rule.to, host, self.wall)
            && admits(rule.to.user.as_slice(), self.user)
    }

    /// Whether some constraint does.
    fn is_pair(&self, previous: Option<&HostKey<'_>>, host: &HostKey<'_>) -> bool
        requires left { IfSome previous (λ key. IsRead key.now) }
        requires entered { IsRead host.now }
        ensures { result ≡ is_pair (grounds_of self.now)
            (option_map (λ key. key.now.blob.now) previous.entry) host.now.blob.now }
    {
        self.rules
            .iter()
            .any(|rule| self.permits_pair(previous, host, rule))
    }

    /// The same where nobody is to log in.
    fn on_the_way(&self) -> Grounds<'_>
        ensures { grounds_of result ≡ on_the_way (grounds_of self.now) }
    {
        Grounds {
            rules: self.rules,
            user: None,
            wall: self.wall,
        }
    }

    /// Whether this binding is good, behind the previous host, whether or not others follow it.
    fn is_good(
        &self,
        is_newest: bool,
        previous: Option<&HostKey<'_>>,
        host: &HostKey<'_>,
        binding: &Binding,
    ) -> bool
        requires left { IfSome previous (λ key. IsRead key.now) }
        requires entered { IsRead host.now }
        requires its { host.now.blob.now ≡ binding.now.host_key }
        ensures { result ≡ is_good is_newest (grounds_of self.now)
            (option_map (λ key. key.now.blob.now) previous.entry) binding.now }
    {
        if is_newest {
            !(self.user.is_some() && binding.forwarding) && self.is_pair(previous, host)
        } else {
            binding.forwarding && self.on_the_way().is_pair(previous, host)
        }
    }

    /// The first place of a chain that isn't good, from 0.
    pub fn bad_place(&self, bindings: &[Binding]) -> Option<u32>
        requires { length bindings.now < 2 ^ 32 }
        ensures { result ≡ bad_place_in (grounds_of self.now) bindings.now }
    {
        let mut previous = None;
        'bindings: for (place, binding) in bindings.iter().enumerate() {
            let is_newest = place + 1 == bindings.len();
            let Some(host) = read_host_key(binding.host_key.as_slice()) else {
                return Some(place as u32);
            };
            if !self.is_good(is_newest, previous.as_ref(), &host, binding) {
                return Some(place as u32);
            }
            previous = Some(host);
        }
        None
    }

    /// Whether some constraint permits to leave the host of this binding.
    fn leads_on(&self, binding: &Binding) -> bool
        ensures { result ≡ leads_on (grounds_of self.now) binding.now.host_key }
    {
        match read_host_key(binding.host_key.as_slice()) {
            Some(host) => self
                .rules
                .iter()
                .any(|rule| is_hop(&rule.from, &host, self.wall)),
            None => false,
        }
    }

    /// Whether every place is good, and the newest host may be left again where the agent is
    /// forwarded to it. Nobody is to log in.
    pub fn permits_way(&self, bindings: &[Binding], newest: &Binding) -> bool
        requires { length bindings.now < 2 ^ 32 }
        ensures { let grounds = grounds_of self.now in
            result ≡ (is_none (bad_place_in grounds bindings.now) && goes_on grounds newest.now) }
    {
        self.bad_place(bindings).is_none() && (!newest.forwarding || self.leads_on(newest))
    }
}
