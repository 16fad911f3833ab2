//! Why a confirmation isn't raised: too many are waited for, or memory ran out.

ghost use Rattle.std.specs.Prelude.{◌≡◌};
ghost use Rattle.confirm_desk.specs.declared.fault.DeskFault.TheVariants.{Memory};

use std::alloc::{AllocError, AllocFailed};

/// Why a confirmation was refused. The first that holds, in this order.
#[derive(Clone, Copy, Debug, PartialEq, Eq)]
pub enum DeskFault {
    /// 16 are waited for.
    Full,
    /// Memory ran out. Says nothing of the desk.
    Memory,
}

impl From<AllocError> for DeskFault {
    ghost from_gives = { λ _ fault. fault ≡ Memory };

    fn from(_error: AllocError) -> DeskFault {
        DeskFault::Memory
    }
}

impl<T: Drop> From<AllocFailed<T>> for DeskFault {
    ghost from_gives = { λ _ fault. fault ≡ Memory };

    fn from(_error: AllocFailed<T>) -> DeskFault {
        DeskFault::Memory
    }
}
