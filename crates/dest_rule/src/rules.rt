//! Whether destination constraints let a connection see a key, and sign with it.

ghost use Rattle.std.specs.Prelude.{◌≡◌, None, Some, MatchResult};
ghost use Rattle.userauth_blob.specs.UserAuths.{login};
ghost use Rattle.dest_rule.specs.Rules.{visible, denial, denial_of_newest};

use crate::binding::Binding;
use crate::chain::Chain;
use crate::denial::Denial;
use crate::grounds::Grounds;
use constraint_rec::Constraint;
use userauth_blob::{UserAuth, read_userauth};

/// The longest user of a login, in bytes: each is tried against the pattern of each constraint.
const LONGEST_USER: usize = 4096;

/// Whether an identity under these constraints is listed to a connection, and may be replaced and
/// removed by it, at `wall`, in seconds since 1970.
///
/// It is where it has no constraints, where the connection didn't try to bind, and where the hosts
/// that it is bound to are permitted whoever logs in.
pub fn visible(rules: &[Constraint], chain: &Chain, wall: u64) -> bool
    ensures { result ≡ visible rules.now chain.now.bindings chain.now.attempted wall }
{
    if rules.is_empty() {
        return true;
    }
    let bindings = chain.bindings();
    match bindings.last() {
        None => !chain.attempted(),
        Some(newest) => {
            let grounds = Grounds {
                rules,
                user: None,
                wall,
            };
            grounds.permits_way(bindings, newest)
        }
    }
}

/// Whether a login is to the newest session, and bound to its host key, which it has to be where
/// the host isn't the only one.
fn check_newest(auth: &UserAuth<'_>, newest: &Binding, is_only: bool) -> Result<(), Denial>
    ensures { let why = denial_of_newest (login auth.now) newest.now is_only in
        MatchResult result (λ _. why ≡ None) (λ denial. why ≡ Some denial) }
{
    if auth.session != newest.session.as_slice() {
        return Err(Denial::OtherSession);
    }
    match auth.host_key {
        None if is_only => Ok(()),
        None => Err(Denial::NoHostKey),
        Some(host_key) if host_key == newest.host_key.as_slice() => Ok(()),
        Some(_) => Err(Denial::OtherHostKey),
    }
}

/// Whether the key of this blob, which has these constraints, may sign `message` for a connection
/// at `wall`, in seconds since 1970.
///
/// It may where the message is a login to the newest host that the connection is bound to, of a user of
/// at most 4096 bytes, and the constraints permit each hop on the way there, and the user at its end. For no constraints
/// nothing is permitted: a key that has none isn't asked about.
pub fn may_sign(
    rules: &[Constraint],
    blob: &[u8],
    chain: &Chain,
    message: &[u8],
    wall: u64,
) -> Result<(), Denial>
    ensures { let why = denial rules.now blob.now chain.now.bindings message.now wall in
        MatchResult result (λ _. why ≡ None) (λ denial. why ≡ Some denial) }
{
    let bindings = chain.bindings();
    let Some(newest) = bindings.last() else {
        return Err(Denial::Unbound);
    };
    let auth = read_userauth(message, blob)?;
    if auth.user.len() > LONGEST_USER {
        return Err(Denial::LongUser);
    }
    let grounds = Grounds {
        rules,
        user: Some(auth.user),
        wall,
    };
    if let Some(place) = grounds.bad_place(bindings) {
        return Err(Denial::Hop { place });
    }
    check_newest(&auth, newest, bindings.len() == 1)
}
