//! Why the data file gives no hosts: it can't be read, is too long or bad, or memory ran out.

ghost use Rattle.std.specs.Prelude.{◌≡◌};
ghost use Rattle.standin_core.specs.declared.fault.DataFault.TheVariants.{Memory};

use std::alloc::AllocError;

/// Why the data file gives no hosts.
#[derive(Clone, Copy, PartialEq, Eq)]
pub enum DataFault {
    /// It can't be read. The files counted that.
    Failed,
    /// It is too long.
    TooLong,
    /// One of its lines is no host's.
    Bad,
    /// Memory ran out.
    Memory,
}

impl From<AllocError> for DataFault {
    ghost from_gives = { λ _ fault. fault ≡ Memory };

    fn from(_: AllocError) -> DataFault {
        DataFault::Memory
    }
}
