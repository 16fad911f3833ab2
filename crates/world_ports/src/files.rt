//! The trait of files that are read whole, up to a bound, and why a read fails.

ghost use Rattle.std.specs.Prelude.{◌≡◌, ◌≤◌, IfOk, IfErr, MatchResult, length};
ghost use Rattle.world_ports.specs.declared.files.FileFault.TheVariants.{Memory};

use std::alloc::{AllocError, AllocFailed, Global};

/// Why a file was not read.
#[derive(Clone, Copy, Debug, PartialEq, Eq)]
pub enum FileFault {
    /// It is missing or can't be read. The object counted that.
    Failed,
    /// It has more bytes than were asked for.
    TooLong,
    /// Memory ran out. Says nothing of the file.
    Memory,
}

impl From<AllocError> for FileFault {
    ghost from_gives = { λ _ fault. fault ≡ Memory };

    fn from(_: AllocError) -> FileFault {
        FileFault::Memory
    }
}

impl<T: Drop> From<AllocFailed<T>> for FileFault {
    ghost from_gives = { λ _ fault. fault ≡ Memory };

    fn from(_: AllocFailed<T>) -> FileFault {
        FileFault::Memory
    }
}

/// Files by their paths.
pub trait Files {
    ghost use Rattle.world_ports.specs.Files.{FilesView, Holds, OnlyReadsFiles, RefusesFile, TellsFailed, CountsFile};

    ghost seen: { Self → FilesView };

    /// The whole file at a path, of at most `max` bytes.
    fn read(&mut self, alloc: Global, path: &str, max: u64) -> Result<Vec<u8>, FileFault>
        ensures bytes { IfOk result (λ bytes. Holds (Self.seen self.old) path.now bytes.items) }
        ensures within { IfOk result (λ bytes. length bytes.items ≤ max) }
        ensures refused { IfErr result (λ fault.
            RefusesFile fault (Self.seen self.old) path.now max) }
        ensures told { MatchResult result
            (λ _. (Self.seen self.new).failed ≡ (Self.seen self.old).failed)
            (λ fault. TellsFailed fault path.now (Self.seen self.old) (Self.seen self.new)) }
        ensures cause { MatchResult result
            (λ _. (Self.seen self.new).faults ≡ (Self.seen self.old).faults)
            (λ fault. CountsFile fault (Self.seen self.old).faults (Self.seen self.new).faults) }
        ensures only { OnlyReadsFiles (Self.seen self.old) (Self.seen self.new) };
}
