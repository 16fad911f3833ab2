//! Why a key or a signature is not one.

ghost use Rattle.std.specs.Prelude.{◌≡◌};
ghost use Rattle.key_wire.specs.declared.fault.KeyFault.TheVariants.{Unfit};

use wire_core::Short;

/// Why a key doesn't sign or verify. Nobody is told more.
#[derive(Clone, Copy, Debug, PartialEq, Eq)]
pub enum KeyFault {
    /// A field isn't there, has another length or value, or something follows the last.
    Unfit,
}

impl From<Short> for KeyFault {
    ghost from_gives = { λ _ fault. fault ≡ Unfit };

    fn from(_short: Short) -> KeyFault {
        KeyFault::Unfit
    }
}
