//! Why a frame of the helper's settles nothing: it is faulty, or memory ran out.

ghost use Rattle.std.specs.Prelude.{◌≡◌};
ghost use Rattle.helper_link.specs.declared.stop.Stop.TheVariants.{Fault, Memory};

use crate::fault::LinkFault;
use std::alloc::AllocError;

/// Why a frame settles nothing.
#[derive(Drop)]
pub enum Stop {
    /// It is faulty.
    Fault(LinkFault),
    /// Memory ran out. Says nothing of the frame.
    Memory,
}

impl From<LinkFault> for Stop {
    ghost from_gives = { λ fault stop. stop ≡ Fault fault };

    fn from(fault: LinkFault) -> Stop {
        Stop::Fault(fault)
    }
}

impl From<AllocError> for Stop {
    ghost from_gives = { λ _ stop. stop ≡ Memory };

    fn from(_error: AllocError) -> Stop {
        Stop::Memory
    }
}
