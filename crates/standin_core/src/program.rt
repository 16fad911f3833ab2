//! The helper's main function: it reads the data file, says HELLO, and serves the agent.

ghost use Rattle.std.specs.Prelude.{◌≡◌, ◌≢◌, ◌↔◌, ◌⊎◌, [], List, ℕ, map, string_bytes, None, MatchOption};
ghost use Rattle.child_peer.specs.Words.{plain_words, words_of};
ghost use Rattle.standin_core.specs.Claims.{Answers, Ends};
ghost use Rattle.standin_core.specs.Hosts.{Host};
ghost use Rattle.standin_core.specs.Serving.{IsUnderWay};
ghost use Rattle.standin_core.specs.Transcript.{Transcript, greeted};
ghost use Rattle.world_ports.specs.Files.{OnlyReadsFiles};

use crate::fault::DataFault;
use crate::hosts::read_data;
use crate::status::HelperStatus;
use crate::stream::serve;
use child_msg::{FromChild, write_from_child};
use child_peer::{Words, flush, read_words};
use secret_buf::ScrubBuf;
use std::alloc::Global;
use std::sync::Wait;
use world_ports::{Files, Sink, Source};

/// The helper: `words` are those of the command line behind the program's name, SOCKET JOB TICKET and
/// where there is one DATA, the path of the data file.
///
/// Reads the data file, says HELLO, and answers the agent's requests in order until the agent ends.
/// What it sends, and how it ends, is `transcript_of` of specs/Transcript.antt, and what each status
/// says is in specs/Claims.antt.
pub fn helper_main<R: Wait, F: Files, P: Source + Sink>(
    rt: &R,
    alloc: Global,
    words: &[String],
    files: &mut F,
    peer: &mut P,
) -> HelperStatus
    ensures answers { Answers result (map string_bytes words.now)
        (record { files = F.seen files.old; peer = P.seen peer.old })
        (record { files = F.seen files.new; peer = P.seen peer.new }) }
    ensures usage { (result ≡ HelperStatus.Usage) ↔ (words_of (map string_bytes words.now) ≡ None) }
    ensures unused { result ≡ HelperStatus.Usage → (files.new ≡ files.old) × (peer.new ≡ peer.old) }
    ensures unheard { (result ≡ HelperStatus.FileFault)
        ⊎ ((result ≡ HelperStatus.FileTooLong) ⊎ (result ≡ HelperStatus.BadFile))
        → peer.new ≡ peer.old }
    ensures failed { result ≢ HelperStatus.FileFault
        → (F.seen files.new).failed ≡ (F.seen files.old).failed }
    ensures files_only { OnlyReadsFiles (F.seen files.old) (F.seen files.new) }
{
    let Some(words) = read_words(words) else {
        return HelperStatus::Usage;
    };
    let pairs = match read_data(alloc, files, words.last) {
        Ok(pairs) => pairs,
        Err(DataFault::Failed) => return HelperStatus::FileFault,
        Err(DataFault::TooLong) => return HelperStatus::FileTooLong,
        Err(DataFault::Bad) => return HelperStatus::BadFile,
        Err(DataFault::Memory) => return HelperStatus::Memory,
    };
    if let Some(status) = greet(alloc, &words, peer) {
        return status;
    }
    serve(rt, alloc, pairs.live(), peer)
}

// Says HELLO.
fn greet<P: Sink>(alloc: Global, words: &Words<'_>, peer: &mut P) -> Option<HelperStatus>
    ensures { (hosts : List Host) (whole : List ℕ → Transcript)
        → ((stream : List ℕ) → whole stream ≡ greeted (plain_words words.now) (Ok hosts) stream)
        → MatchOption result (IsUnderWay hosts whole (P.seen peer.old) (P.seen peer.new) [])
        (λ status. Ends status whole (P.seen peer.old) (P.seen peer.new)) }
{
    let mut out = ScrubBuf::new(alloc);
    let hello = FromChild::Hello {
        job: words.job,
        ticket: words.ticket,
    };
    let Ok(()) = write_from_child(&mut out, &hello) else {
        return Some(HelperStatus::Memory);
    };
    match flush(&mut out, peer) {
        Ok(()) => None,
        Err(_) => Some(HelperStatus::WriteFault),
    }
}
