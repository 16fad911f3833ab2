//! Why a key under destination constraints isn't used for a signature that is asked for.

ghost use Rattle.std.specs.Prelude.{◌≡◌};
ghost use Rattle.dest_rule.specs.declared.denial.Denial.TheVariants.{NotUserAuth};

use userauth_blob::AuthFault;

/// Why a key under destination constraints isn't used: the first of these, in this order.
#[derive(Clone, Copy, Debug, PartialEq, Eq)]
pub enum Denial {
    /// The connection is bound to no host.
    Unbound,
    /// The message is no login by this key.
    NotUserAuth(AuthFault),
    /// The login's user has more than 4096 bytes.
    LongUser,
    /// The constraints don't permit the hop to the host at this place of the chain, from 0, or what
    /// follows doesn't suit its forwarding.
    Hop { place: u32 },
    /// The login is to another session than the newest.
    OtherSession,
    /// The login isn't bound to a host key, and the host isn't the only one.
    NoHostKey,
    /// The login is bound to another host key than the newest.
    OtherHostKey,
}

impl From<AuthFault> for Denial {
    ghost from_gives = { λ fault denial. denial ≡ NotUserAuth fault };

    fn from(fault: AuthFault) -> Denial {
        Denial::NotUserAuth(fault)
    }
}
