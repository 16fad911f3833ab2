//! Reads the list's file and the words of purposes, or says how the program ends without them.

ghost use Rattle.std.specs.Prelude.{◌≡◌, ◌≢◌, ℕ, List, Option, Some, Err, IfErr, MatchResult};
ghost use Rattle.filter_core.specs.Slots.{blobs_of, listed_of};
ghost use Rattle.filter_top.specs.Program.{FailsAt, IsEarlyEnd, IsListEnd, IsListOf, IsListed, IsReadAs, IsRefused, IsRefusedBy, IsTooLong, texts_of};
ghost use Rattle.filter_top.specs.Purposes.{purposes_named};
ghost use Rattle.key_purposes.specs.declared.fault.PurposeFault.{PurposeFault};
ghost use Rattle.filter_top.specs.declared.status.FilterStatus.TheVariants as status;

use crate::list::{ListFault, read_list};
use crate::purposes::read_given;
use crate::status::FilterStatus;
use crate::words::Words;
use filter_core::{Blobs, Listed};
use std::alloc::Global;
use std::collections::BTreeSet;
use world_ports::{FileFault, Files};

/// The most bytes of a list.
const LONGEST_LIST: u64 = 1_048_576;

/// What the words and the file of the list let be used, or how the program ends without that. The words are read first.
pub fn read_listed<F: Files>(
    alloc: Global,
    files: &mut F,
    asked: &Words<'_>,
) -> Result<Listed, FilterStatus>
    ensures read { (held : List ℕ → Option (List ℕ)) → (F.seen files.old).held ≡ Some held
        → MatchResult result
        (λ listed. IsListed (held asked.now.list.now) (texts_of asked.now.purposes.now) (listed_of listed))
        (λ status. IsRefused status (held asked.now.list.now) (texts_of asked.now.purposes.now)) }
    ensures own { IfErr result (λ status. IsEarlyEnd status) }
    ensures purpose { (fault : PurposeFault) → result ≡ Err (status.BadPurpose fault)
        → (purposes_named (texts_of asked.now.purposes.now) ≡ Err fault) × (files.new ≡ files.old) }
    ensures file { result ≡ Err status.FileFault
        → FailsAt asked.now.list.now (F.seen files.old) (F.seen files.new) }
    ensures long { result ≡ Err status.FileTooLong
        → IsTooLong asked.now.list.now (F.seen files.old) (F.seen files.new) }
    ensures failed { result ≢ Err status.FileFault
        → (F.seen files.new).failed ≡ (F.seen files.old).failed }
    ensures faults { result ≢ Err status.FileFault → result ≢ Err status.Memory
        → (F.seen files.new).faults ≡ (F.seen files.old).faults }
{
    let purposes = read_given(alloc, asked.purposes)?;
    let set = read_blobs(alloc, files, asked.list)?;
    let Ok(blobs) = Blobs::new(alloc, set) else {
        return Err(FilterStatus::Memory);
    };
    Ok(Listed { blobs, purposes })
}

// The blobs of the keys of a file, or how the program ends without them.
fn read_blobs<F: Files>(
    alloc: Global,
    files: &mut F,
    path: &str,
) -> Result<BTreeSet<Vec<u8>>, FilterStatus>
    ensures read { (held : List ℕ → Option (List ℕ)) → (F.seen files.old).held ≡ Some held
        → MatchResult result
        (λ blobs. IsListOf (held path.now) (blobs_of blobs))
        (λ status. IsRefusedBy status (held path.now)) }
    ensures own { IfErr result (λ status. IsListEnd status) }
    ensures file { result ≡ Err status.FileFault → FailsAt path.now (F.seen files.old) (F.seen files.new) }
    ensures long { result ≡ Err status.FileTooLong → IsTooLong path.now (F.seen files.old) (F.seen files.new) }
    ensures failed { result ≢ Err status.FileFault
        → (F.seen files.new).failed ≡ (F.seen files.old).failed }
    ensures faults { result ≢ Err status.FileFault → result ≢ Err status.Memory
        → (F.seen files.new).faults ≡ (F.seen files.old).faults }
{
    match files.read(alloc, path, LONGEST_LIST) {
        Ok(text) => blobs_in(alloc, &text),
        Err(FileFault::Memory) => Err(FilterStatus::Memory),
        Err(FileFault::Failed) => Err(FilterStatus::FileFault),
        Err(FileFault::TooLong) => Err(FilterStatus::FileTooLong),
    }
}

// The blobs of the keys of a text, or how the program ends without them.
fn blobs_in(alloc: Global, text: &[u8]) -> Result<BTreeSet<Vec<u8>>, FilterStatus>
    ensures read { IsReadAs text.now result }
    ensures own { IfErr result (λ status. IsListEnd status) }
{
    match read_list(alloc, text) {
        Ok(blobs) => Ok(blobs),
        Err(ListFault::Line { line, fault }) => Err(FilterStatus::BadList { line, fault }),
        Err(ListFault::Memory) => Err(FilterStatus::Memory),
    }
}
