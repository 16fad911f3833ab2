//! Why a child process read nothing from the agent, or told it nothing.

ghost use Rattle.std.specs.Prelude.{◌≡◌};
ghost use Rattle.child_peer.specs.declared.fault.HearFault.TheVariants.{Failed, Memory};
ghost use Rattle.child_peer.specs.declared.fault.SayFault.TheVariants.{Failed as NotWritten, Memory as NoRoom};

use std::alloc::AllocError;
use world_ports::Fault;

/// Why nothing was read from the agent.
#[derive(Clone, Copy, Debug, PartialEq, Eq)]
pub enum HearFault {
    /// The connection failed, which counted that.
    Failed,
    /// Memory ran out, before anything was read.
    Memory,
}

/// Why the agent was not told.
#[derive(Clone, Copy, Debug, PartialEq, Eq)]
pub enum SayFault {
    /// The connection failed, which counted that.
    Failed,
    /// Memory ran out, before anything was written.
    Memory,
}

impl From<Fault> for HearFault {
    ghost from_gives = { λ _ fault. fault ≡ Failed };

    fn from(_: Fault) -> HearFault {
        HearFault::Failed
    }
}

impl From<AllocError> for HearFault {
    ghost from_gives = { λ _ fault. fault ≡ Memory };

    fn from(_: AllocError) -> HearFault {
        HearFault::Memory
    }
}

impl From<Fault> for SayFault {
    ghost from_gives = { λ _ fault. fault ≡ NotWritten };

    fn from(_: Fault) -> SayFault {
        SayFault::Failed
    }
}

impl From<AllocError> for SayFault {
    ghost from_gives = { λ _ fault. fault ≡ NoRoom };

    fn from(_: AllocError) -> SayFault {
        SayFault::Memory
    }
}
