//! The host that a login goes to.

ghost use Rattle.std.specs.Prelude.{◌≡◌, IfSome};
ghost use Rattle.std.specs.Option.{option_map};
ghost use Rattle.dest_rule.specs.GroundsOf.{grounds_of};
ghost use Rattle.dest_rule.specs.HostKeys.{IsRead};
ghost use Rattle.dest_rule.specs.Hosts.{first_to, login_host};

use crate::binding::Binding;
use crate::chain::Chain;
use crate::grounds::Grounds;
use crate::host_key::{HostKey, read_host_key};
use constraint_rec::Constraint;
use userauth_blob::read_userauth;

/// The name of the host that a login goes to, by the first of these constraints of the key of this blob that permits
/// it for a connection at `wall`, in seconds since 1970.
///
/// Each user is tried against the pattern of each constraint: what `may_sign` denies isn't to be asked about.
pub fn login_host<'a>(
    rules: &'a [Constraint],
    blob: &[u8],
    chain: &Chain,
    message: &'a [u8],
    wall: u64,
) -> Option<&'a [u8]>
    ensures { option_map (λ name. name.now) result
        ≡ login_host rules.now blob.now chain.now.bindings message.now wall }
{
    let Ok(auth) = read_userauth(message, blob) else {
        return None;
    };
    match chain.bindings().split_last() {
        None => None,
        Some((newest, earlier)) => {
            let grounds = Grounds {
                rules,
                user: Some(auth.user),
                wall,
            };
            host_behind(&grounds, earlier.last(), newest)
        }
    }
}

/// The name of the host of this binding, behind the previous one, where there is one.
fn host_behind<'a>(
    grounds: &Grounds<'a>,
    previous: Option<&Binding>,
    newest: &Binding,
) -> Option<&'a [u8]>
    ensures { option_map (λ name. name.now) result ≡ first_to (grounds_of grounds.now)
        (option_map (λ one. one.now.host_key) previous.entry) newest.now.host_key grounds.now.rules.now }
{
    let Some(host) = read_host_key(newest.host_key.as_slice()) else {
        return None;
    };
    match previous {
        None => first_to(grounds, None, &host),
        Some(binding) => match read_host_key(binding.host_key.as_slice()) {
            None => None,
            Some(left) => first_to(grounds, Some(&left), &host),
        },
    }
}

/// The name of the host to which the first constraint leads that permits to go from the previous host, or the agent's
/// own, to this.
fn first_to<'a>(
    grounds: &Grounds<'a>,
    previous: Option<&HostKey<'_>>,
    host: &HostKey<'_>,
) -> Option<&'a [u8]>
    requires left { IfSome previous (λ key. IsRead key.now) }
    requires entered { IsRead host.now }
    ensures { option_map (λ name. name.now) result ≡ first_to (grounds_of grounds.now)
        (option_map (λ key. key.now.blob.now) previous.entry) host.now.blob.now grounds.now.rules.now }
{
    for rule in grounds.rules {
        if grounds.permits_pair(previous, host, rule) {
            return Some(rule.to.host.as_slice());
        }
    }
    None
}
