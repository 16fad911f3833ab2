//! Why a key is refused, with the number of each fault.

ghost use Rattle.std.specs.Prelude.{◌≡◌};
ghost use Rattle.key_blob.specs.declared.fault.KeyFault.TheVariants.{Short as TooShort, Memory};

use std::alloc::AllocError;
use wire_core::Short;

/// Why a key was refused: the first fault in the order of its fields.
#[derive(Clone, Copy, Debug, PartialEq, Eq)]
pub enum KeyFault {
    /// A field passes the end of the bytes, or a principal that of the string of principals.
    Short = 1,
    /// The type is none of the table in docs/PROTOCOL.md, "Keys".
    UnknownType = 2,
    /// A field whose length the table gives has another length, or a number of an addition has more than 16384
    /// binary digits.
    BadLength = 3,
    /// The name of the curve is not the one that the type names, or the type of the certificate in
    /// an addition is not the one that stands before it.
    Mismatch = 4,
    /// Bytes stand after the last field of a blob.
    Trailing = 5,
    /// Memory ran out. Says nothing of the bytes.
    Memory = 6,
}

impl From<Short> for KeyFault {
    ghost from_gives = { λ _ fault. fault ≡ TooShort };

    fn from(_short: Short) -> KeyFault {
        KeyFault::Short
    }
}

impl From<AllocError> for KeyFault {
    ghost from_gives = { λ _ fault. fault ≡ Memory };

    fn from(_error: AllocError) -> KeyFault {
        KeyFault::Memory
    }
}
