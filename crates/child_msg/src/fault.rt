//! Why a message's body was refused.

ghost use Rattle.std.specs.Prelude.{◌≡◌};
ghost use Rattle.child_msg.specs.declared.fault.ChildFault.TheVariants.{Short as TooShort};

use wire_core::Short;

/// Why a body was refused: the first fault in the order of its fields.
#[derive(Clone, Copy, Debug, PartialEq, Eq)]
pub enum ChildFault {
    /// A field passes the end of the body, or the body has no bytes.
    Short = 1,
    /// The first byte is no kind of this direction. Found before the number is read.
    Kind = 2,
    /// Bytes stand after the last field.
    Trailing = 3,
    /// The ticket hasn't 16 bytes.
    TicketLength = 4,
}

impl From<Short> for ChildFault {
    ghost from_gives = { λ _ fault. fault ≡ TooShort };

    fn from(_short: Short) -> ChildFault {
        ChildFault::Short
    }
}
