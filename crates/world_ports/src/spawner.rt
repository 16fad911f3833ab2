//! The trait of running a program to its end, with what the run gives or why it failed.

ghost use Rattle.std.specs.Prelude.{◌≡◌, MatchResult};
ghost use Rattle.world_ports.specs.declared.spawner.SpawnFault.TheVariants.{Memory};

use plain_lists::Bytes;
use std::alloc::{AllocError, AllocFailed, Global};

/// How a program ended.
#[derive(PartialEq, Eq, Drop)]
pub struct Ran {
    /// Its exit status, and -1 where it ended by a signal.
    pub status: i32,
    /// All that it wrote to its standard output.
    pub output: Bytes,
}

/// Why a program was not run to its end.
#[derive(Clone, Copy, Debug, PartialEq, Eq)]
pub enum SpawnFault {
    /// It could not be started or waited for. The object counted that.
    Failed,
    /// Memory ran out. The program may have run.
    Memory,
}

/// One run: the program, its one word, and how it ended.
#[derive(PartialEq, Eq, Drop)]
pub struct Run {
    pub program: Bytes,
    pub word: Bytes,
    pub answer: Result<Ran, SpawnFault>,
}

impl From<AllocError> for SpawnFault {
    ghost from_gives = { λ _ fault. fault ≡ Memory };

    fn from(_: AllocError) -> SpawnFault {
        SpawnFault::Memory
    }
}

impl<T: Drop> From<AllocFailed<T>> for SpawnFault {
    ghost from_gives = { λ _ fault. fault ≡ Memory };

    fn from(_: AllocFailed<T>) -> SpawnFault {
        SpawnFault::Memory
    }
}

/// What runs programs, one at a time.
pub trait Spawner {
    ghost use Rattle.world_ports.specs.Journal.{Tells};
    ghost use Rattle.world_ports.specs.Runs.{SpawnerView, CountsRun, is_short_run};

    ghost seen: { Self → SpawnerView };

    /// Runs a program with one word to its end.
    fn run(&mut self, alloc: Global, program: &str, word: &str) -> Result<Ran, SpawnFault>
        ensures told { Tells (Self.seen self.old).runs (Self.seen self.new).runs
            (is_short_run result)
            (record { program = program.now; word = word.now; answer = result }) }
        ensures cause { MatchResult result
            (λ _. (Self.seen self.new).faults ≡ (Self.seen self.old).faults)
            (λ fault. CountsRun fault (Self.seen self.old).faults (Self.seen self.new).faults) };
}
