//! Why `ssh-add` stops, and how it ends.

ghost use Rattle.std.specs.Prelude.{◌≡◌};
ghost use Rattle.add_core.specs.Codes.{code_of};
ghost use Rattle.add_core.specs.declared.fault.AddFault.TheVariants.{OutputFault};
ghost use Rattle.add_core.specs.declared.fault.PeerStop.TheVariants.{Failed as PeerFailed, Memory as PeerMemory};
ghost use Rattle.add_core.specs.declared.fault.Stop.TheVariants.{Fault as Faulty, Memory as NoMemory};
ghost use Rattle.add_core.specs.Steps.{stop_of};

use add_rules::DestFault;
use add_words::PurposeFault;
use key_file::{KeyFileFault, PubFault};
use std::alloc::{AllocError, AllocFailed};
use world_ports::Fault;

/// Why the tool stopped. What it did before stands.
#[derive(Clone, Copy, Debug, PartialEq, Eq)]
pub enum AddFault {
    /// The words aren't of the tool's form.
    Usage,
    /// A file is missing or can't be read: the one at this place, from 0, among the files of keys, or
    /// among those of known hosts.
    File { place: u32 },
    /// A file is too long.
    FileTooLong { place: u32 },
    /// A private key's file isn't one that is read.
    Body(KeyFileFault),
    /// A public key's file isn't one that is read.
    Public(PubFault),
    /// A destination is none.
    Destination(DestFault),
    /// What signatures are to be for is no purpose.
    Purpose(PurposeFault),
    /// The passphrase has no byte.
    EmptyPassphrase,
    /// The passphrase has more than 1024 bytes.
    LongPassphrase,
    /// A request is too long, and wasn't sent.
    TooLong,
    /// The agent answered FAILURE.
    Refused,
    /// The agent answered with something else than this request's reply, or ended before.
    BadReply,
    /// The agent holds no identity.
    NoIdentities,
    /// The connection failed, which counted that.
    PeerFault,
    /// The input failed, which counted that.
    InputFault,
    /// The output or the errors failed, which counted that.
    OutputFault,
}

/// How the tool ended.
#[derive(Clone, Copy, Debug, PartialEq, Eq)]
pub enum AddStatus {
    Done,
    Failed(AddFault),
    /// There is no agent to talk to.
    NoAgent,
    /// Memory ran out.
    Memory,
}

impl AddStatus {
    /// The exit status, as ssh-add(1) has it where it says one.
    pub fn code(self) -> u8
        ensures { result ≡ code_of self }
    {
        match self {
            AddStatus::Done => 0,
            AddStatus::Failed(_) => 1,
            AddStatus::NoAgent => 2,
            AddStatus::Memory => 5,
        }
    }
}

/// Why the connection gave no reply.
#[derive(Clone, Copy, Debug, PartialEq, Eq)]
pub enum PeerStop {
    /// It ended before, or announced a length that no reply has.
    BadReply,
    /// It failed, which counted that.
    Failed,
    /// Memory ran out.
    Memory,
}

impl From<Fault> for PeerStop {
    ghost from_gives = { λ _ stop. stop ≡ PeerFailed };

    fn from(_: Fault) -> PeerStop {
        PeerStop::Failed
    }
}

impl From<AllocError> for PeerStop {
    ghost from_gives = { λ _ stop. stop ≡ PeerMemory };

    fn from(_: AllocError) -> PeerStop {
        PeerStop::Memory
    }
}

/// Why a step of the tool was its last.
#[derive(Clone, Copy, Debug, PartialEq, Eq)]
pub enum Stop {
    Fault(AddFault),
    Memory,
}

impl From<PeerStop> for Stop {
    ghost from_gives = { λ of_peer stop. stop ≡ stop_of of_peer };

    fn from(stop: PeerStop) -> Stop {
        match stop {
            PeerStop::BadReply => Stop::Fault(AddFault::BadReply),
            PeerStop::Failed => Stop::Fault(AddFault::PeerFault),
            PeerStop::Memory => Stop::Memory,
        }
    }
}

// A write that failed: the output's or the errors'.
impl From<Fault> for Stop {
    ghost from_gives = { λ _ stop. stop ≡ Faulty OutputFault };

    fn from(_: Fault) -> Stop {
        Stop::Fault(AddFault::OutputFault)
    }
}

impl From<AllocError> for Stop {
    ghost from_gives = { λ _ stop. stop ≡ NoMemory };

    fn from(_: AllocError) -> Stop {
        Stop::Memory
    }
}

impl<T: Drop> From<AllocFailed<T>> for Stop {
    ghost from_gives = { λ _ stop. stop ≡ NoMemory };

    fn from(_: AllocFailed<T>) -> Stop {
        Stop::Memory
    }
}
