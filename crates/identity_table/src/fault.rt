//! Why an identity isn't added.

ghost use Rattle.std.specs.Prelude.{◌≡◌};
ghost use Rattle.identity_table.specs.declared.fault.AddFault.TheVariants.{Memory};

use std::alloc::AllocError;

/// Why a key was not added. ListFull wins over NumbersSpent.
#[derive(Clone, Copy, Debug, PartialEq, Eq)]
pub enum AddFault {
    /// The answer that lists all identities would be longer than a message may be, or their private
    /// strings and constraints would take more than 8 MiB.
    ListFull,
    /// No number is left for the addition.
    NumbersSpent,
    /// Memory ran out.
    Memory,
}

impl From<AllocError> for AddFault {
    ghost from_gives = { λ _ fault. fault ≡ Memory };

    fn from(_error: AllocError) -> AddFault {
        AddFault::Memory
    }
}
