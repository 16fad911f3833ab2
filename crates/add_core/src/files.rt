//! The files of keys that the words name, each read and sent to the agent in turn.

ghost use Rattle.std.specs.Prelude.{◌≡◌, ◌≢◌, ℕ, List, Option, OnOk, Some, Err, map};
ghost use Rattle.add_core.specs.Sendings.{IsDoable, each_file, file_step, place_of, sending_of, sent_for, text_held};
ghost use Rattle.add_core.specs.Exchanges.{Tells};
ghost use Rattle.add_core.specs.FileCauses.{HasCauseAt, HasFileCause};
ghost use Rattle.add_core.specs.Steps.{Follows, HasPeerCause, HasSinkCause, IsOwn, IsOwnOfFiles};

use crate::exchange::request;
use crate::fault::{AddFault, Stop};
use crate::sending::{FileTask, Sending};
use std::alloc::Global;
use wiped_bytes::WipedBytes;
use world_ports::{FileFault, Files, Sink, Source};

/// The most bytes that the file of a key has.
const LONGEST_KEY: u64 = 1_048_576;

/// The place as faults carry it.
fn place_of(place: usize) -> u32
    ensures { result ≡ place_of place }
{
    place.min(u32::MAX as usize) as u32
}

/// Reads a file of at most so many bytes, which stands at this place.
pub fn read_text<F: Files>(
    alloc: Global,
    files: &mut F,
    path: &str,
    place: usize,
    most: u64,
) -> Result<Vec<u8>, Stop>
    ensures told { (held : List ℕ → Option (List ℕ)) → (F.seen files.old).held ≡ Some held
        → Tells (λ text. text.items) result (text_held (place_of place) most (held path.now)) }
    ensures kept { (F.seen files.new).held ≡ (F.seen files.old).held }
    ensures cause { HasCauseAt path.now place result (F.seen files.old) (F.seen files.new) }
    ensures own { IsOwnOfFiles result }
{
    match files.read(alloc, path, most) {
        Ok(text) => Ok(text),
        Err(FileFault::Failed) => Err(Stop::Fault(AddFault::File {
            place: place_of(place),
        })),
        Err(FileFault::TooLong) => Err(Stop::Fault(AddFault::FileTooLong {
            place: place_of(place),
        })),
        Err(FileFault::Memory) => Err(Stop::Memory),
    }
}

/// The request for a file of this text, which may hold a private key and is wiped.
fn made(alloc: Global, task: &mut FileTask, path: &str, text: WipedBytes) -> Result<Sending, Stop>
    requires { IsDoable task.old }
    ensures told { Tells sending_of result (sent_for task.old path.now text) }
    ensures own { IsOwn result }
    ensures kept { OnOk result (task.new ≡ task.old) }
{
    task.sending(alloc, path, text.as_slice())
}

/// Sends the request for a file, which stands at this place.
fn send_file<F: Files, P: Source + Sink, E: Sink>(
    alloc: Global,
    files: &mut F,
    peer: &mut P,
    errors: &mut E,
    task: &mut FileTask,
    path: &str,
    place: usize,
) -> Result<(), Stop>
    requires { IsDoable task.old }
    ensures told { (held : List ℕ → Option (List ℕ)) (replies : List ℕ)
        → (F.seen files.old).held ≡ Some held → (P.seen peer.old).left ≡ Some replies
        → Follows result (file_step task.old held place path.now replies)
        (P.seen peer.old) (P.seen peer.new) (E.seen errors.old) (E.seen errors.new) }
    ensures task { OnOk result (task.new ≡ task.old) }
    ensures held { (F.seen files.new).held ≡ (F.seen files.old).held }
    ensures files { HasCauseAt path.now place result (F.seen files.old) (F.seen files.new) }
    ensures peer { HasPeerCause result (P.seen peer.old) (P.seen peer.new) }
    ensures errors { HasSinkCause result (E.seen errors.old) (E.seen errors.new) }
    ensures input { result ≢ Err (Stop.Fault AddFault.InputFault) }
{
    let text = read_text(alloc, files, path, place, LONGEST_KEY)?;
    let sending = made(alloc, task, path, WipedBytes::from_vec(text))?;
    request(alloc, peer, errors, sending.frame.live(), &sending.line)
}

/// Sends the requests for all files.
pub fn send_files<F: Files, P: Source + Sink, E: Sink>(
    alloc: Global,
    files: &mut F,
    peer: &mut P,
    errors: &mut E,
    task: &mut FileTask,
    paths: &[&str],
) -> Result<(), Stop>
    requires { IsDoable task.old }
    ensures told { (held : List ℕ → Option (List ℕ)) (replies : List ℕ)
        → (F.seen files.old).held ≡ Some held → (P.seen peer.old).left ≡ Some replies
        → Follows result
        (each_file task.old held 0 (map (λ path. path.now) paths.now) replies)
        (P.seen peer.old) (P.seen peer.new) (E.seen errors.old) (E.seen errors.new) }
    ensures held { (F.seen files.new).held ≡ (F.seen files.old).held }
    ensures files { HasFileCause (map (λ path. path.now) paths.now) result
        (F.seen files.old) (F.seen files.new) }
    ensures peer { HasPeerCause result (P.seen peer.old) (P.seen peer.new) }
    ensures errors { HasSinkCause result (E.seen errors.old) (E.seen errors.new) }
    ensures input { result ≢ Err (Stop.Fault AddFault.InputFault) }
{
    let mut place = 0;
    'paths: for path in paths {
        send_file(alloc, files, peer, errors, task, path, place)?;
        place += 1;
    }
    Ok(())
}
