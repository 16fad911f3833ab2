//! Why the body of a client's request is refused, the first fault in the order of its fields.

ghost use Rattle.std.specs.Prelude.{◌≡◌};
ghost use Rattle.agent_msg.specs.declared.fault.MsgFault.TheVariants.{Short as TooShort};
ghost use Rattle.agent_msg.specs.Faults.{key_fault, term_fault};

use constraint_rec::TermFault;
use key_blob::KeyFault;
use wire_core::Short;

/// Why a body was refused: the first fault in the order of its fields.
#[derive(Clone, Copy, Debug, PartialEq, Eq)]
pub enum MsgFault {
    /// The body has no bytes.
    Empty,
    /// A field passes the end of the body.
    Short,
    /// Bytes stand after the last field.
    Trailing,
    /// The key that is to be added is refused.
    Key(KeyFault),
    /// The constraints of the key are refused.
    Terms(TermFault),
    /// Memory ran out. Says nothing of the body.
    Memory,
}

impl From<Short> for MsgFault {
    ghost from_gives = { λ _ fault. fault ≡ TooShort };

    fn from(_short: Short) -> MsgFault {
        MsgFault::Short
    }
}

impl From<KeyFault> for MsgFault {
    ghost from_gives = { λ of_key fault. fault ≡ key_fault of_key };

    fn from(fault: KeyFault) -> MsgFault {
        match fault {
            KeyFault::Memory => MsgFault::Memory,
            other => MsgFault::Key(other),
        }
    }
}

impl From<TermFault> for MsgFault {
    ghost from_gives = { λ of_terms fault. fault ≡ term_fault of_terms };

    fn from(fault: TermFault) -> MsgFault {
        match fault {
            TermFault::Memory => MsgFault::Memory,
            other => MsgFault::Terms(other),
        }
    }
}
