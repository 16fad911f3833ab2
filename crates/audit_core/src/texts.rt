//! The texts of the two files, the record and its deeds, each of which is read whole.

ghost use Rattle.std.specs.Prelude.{◌≡◌, ◌≢◌, ℕ, List, Option, Some, Err, IfErr, IfOk};
ghost use Rattle.audit_core.specs.Program.{FailsAt, FailsInOrder, HoldsShort, IsFileEnd, IsTextOf, IsTooLong, IsTooLongInOrder};
ghost use Rattle.audit_core.specs.declared.status.AuditStatus.TheVariants as status;
ghost use Rattle.world_ports.specs.Files.{OnlyReadsFiles};

use crate::status::AuditStatus;
use std::alloc::Global;
use world_ports::{FileFault, Files};

/// The most bytes of a file.
const LONGEST_FILE: u64 = 268_435_456;

/// The texts of a record and of its deeds.
#[derive(Drop)]
pub struct Texts {
    pub recording: Vec<u8>,
    pub deeds: Vec<u8>,
}

// The text of a file, or how the program ends without it.
fn read_text<F: Files>(alloc: Global, files: &mut F, path: &str) -> Result<Vec<u8>, AuditStatus>
    ensures read { (held : List ℕ → Option (List ℕ)) → (F.seen files.old).held ≡ Some held
        → IfOk result (λ text. IsTextOf (held path.now) text.items) }
    ensures own { IfErr result (λ ended. IsFileEnd ended) }
    ensures file { result ≡ Err status.FileFault
        → FailsAt path.now (F.seen files.old) (F.seen files.new) }
    ensures long { result ≡ Err status.FileTooLong
        → IsTooLong path.now (F.seen files.old) (F.seen files.new) }
    ensures short { IfOk result (λ text. HoldsShort (F.seen files.old) path.now) }
    ensures failed { result ≢ Err status.FileFault
        → (F.seen files.new).failed ≡ (F.seen files.old).failed }
    ensures faults { result ≢ Err status.FileFault → result ≢ Err status.Memory
        → (F.seen files.new).faults ≡ (F.seen files.old).faults }
    ensures only { OnlyReadsFiles (F.seen files.old) (F.seen files.new) }
{
    match files.read(alloc, path, LONGEST_FILE) {
        Ok(text) => Ok(text),
        Err(FileFault::Memory) => Err(AuditStatus::Memory),
        Err(FileFault::Failed) => Err(AuditStatus::FileFault),
        Err(FileFault::TooLong) => Err(AuditStatus::FileTooLong),
    }
}

// Both texts, that of the record first, or how the program ends without them.
pub fn read_texts<F: Files>(
    alloc: Global,
    files: &mut F,
    recording: &str,
    deeds: &str,
) -> Result<Texts, AuditStatus>
    ensures read { (held : List ℕ → Option (List ℕ)) → (F.seen files.old).held ≡ Some held
        → IfOk result (λ texts. IsTextOf (held recording.now) texts.recording.items
        × IsTextOf (held deeds.now) texts.deeds.items) }
    ensures own { IfErr result (λ ended. IsFileEnd ended) }
    ensures file { result ≡ Err status.FileFault
        → FailsInOrder recording.now deeds.now (F.seen files.old) (F.seen files.new) }
    ensures long { result ≡ Err status.FileTooLong
        → IsTooLongInOrder recording.now deeds.now (F.seen files.old) (F.seen files.new) }
    ensures failed { result ≢ Err status.FileFault
        → (F.seen files.new).failed ≡ (F.seen files.old).failed }
    ensures faults { result ≢ Err status.FileFault → result ≢ Err status.Memory
        → (F.seen files.new).faults ≡ (F.seen files.old).faults }
    ensures only { OnlyReadsFiles (F.seen files.old) (F.seen files.new) }
{
    let recording = read_text(alloc, files, recording)?;
    let deeds = read_text(alloc, files, deeds)?;
    Ok(Texts { recording, deeds })
}
