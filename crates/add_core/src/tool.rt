//! The tool `ssh-add`: it reads its words, talks with the agent, and writes its last line.

ghost use Rattle.std.specs.Prelude.{◌≡◌, ◌≢◌, ◌⊎◌, ◌≤◌, ℕ, List, Option, Some, None, Err, IfOk, IfSome, MatchResult, true, is_some, map, option_map, string_bytes};
ghost use Rattle.add_core.specs.FileCauses.{FailsByWords, FailsIn};
ghost use Rattle.add_core.specs.Steps.{Follows, HasPeerCause, HasSinkCause};
ghost use Rattle.add_core.specs.Talk.{Ends, Runs, WritesAllOrFails, add_step, agent_seen, ended, is_list, last_line, run_step, talk, talk_with};
ghost use Rattle.add_words.specs.Counts.{IsCount};
ghost use Rattle.add_words.specs.Words.{plain_words, words_of};
ghost use Rattle.world_ports.specs.Causes.{Rose};
ghost use Rattle.world_ports.specs.Streams.{StreamView};

use crate::fault::{AddFault, AddStatus, Stop};
use crate::files::send_files;
use crate::listing::{Listing, list};
use crate::locking::{lock, remove_all};
use crate::restriction::terms;
use crate::sending::FileTask;
use add_words::{AddWords, Command, WordsFault, read_words};
use std::alloc::Global;
use world_ports::{Files, Sink, Source, write_all};

/// Adds the keys of files.
fn add<F: Files, P: Source + Sink, E: Sink>(
    alloc: Global,
    words: &AddWords<'_>,
    files: &mut F,
    peer: &mut P,
    errors: &mut E,
) -> Result<(), Stop>
    requires { IsCount words.now.uses }
    ensures told { (held : List ℕ → Option (List ℕ)) (replies : List ℕ)
        → (F.seen files.old).held ≡ Some held → (P.seen peer.old).left ≡ Some replies
        → Follows result (add_step (plain_words words.now) held replies)
        (P.seen peer.old) (P.seen peer.new) (E.seen errors.old) (E.seen errors.new) }
    ensures files { (place : ℕ) → result ≡ Err (Stop.Fault (AddFault.File place))
        → FailsIn (plain_words words.now) place (F.seen files.old) (F.seen files.new) }
    ensures peer { HasPeerCause result (P.seen peer.old) (P.seen peer.new) }
    ensures errors { HasSinkCause result (E.seen errors.old) (E.seen errors.new) }
    ensures input { result ≢ Err (Stop.Fault AddFault.InputFault) }
{
    let terms = terms(alloc, files, words)?;
    let mut task = FileTask::Add(terms);
    send_files(alloc, files, peer, errors, &mut task, &words.files)
}

/// Does what the words say.
fn run<F: Files, P: Source + Sink, I: Source, O: Sink, E: Sink>(
    alloc: Global,
    words: &AddWords<'_>,
    files: &mut F,
    peer: &mut P,
    input: &mut I,
    output: &mut O,
    errors: &mut E,
) -> Result<(), Stop>
    requires { IsCount words.now.uses }
    ensures told { (held : List ℕ → Option (List ℕ)) (left replies : List ℕ)
        → (F.seen files.old).held ≡ Some held → (I.seen input.old).left ≡ Some left
        → (P.seen peer.old).left ≡ Some replies
        → Runs (is_list words.now.command) result
        (run_step (plain_words words.now) held left replies)
        (P.seen peer.old) (P.seen peer.new) (O.seen output.old) (O.seen output.new)
        (E.seen errors.old) (E.seen errors.new) }
    ensures files { (place : ℕ) → result ≡ Err (Stop.Fault (AddFault.File place))
        → FailsIn (plain_words words.now) place (F.seen files.old) (F.seen files.new) }
    ensures peer { HasPeerCause result (P.seen peer.old) (P.seen peer.new) }
    ensures input { result ≡ Err (Stop.Fault AddFault.InputFault)
        → Rose (I.seen input.old).read_faults (I.seen input.new).read_faults }
    ensures outputs { result ≡ Err (Stop.Fault AddFault.OutputFault)
        → Rose (O.seen output.old).write_faults (O.seen output.new).write_faults
        ⊎ Rose (E.seen errors.old).write_faults (E.seen errors.new).write_faults }
    ensures errors { (E.seen errors.old).write_faults ≤ (E.seen errors.new).write_faults }
{
    match words.command {
        Command::Add => add(alloc, words, files, peer, errors),
        Command::Remove => {
            let mut task = FileTask::Remove;
            send_files(alloc, files, peer, errors, &mut task, &words.files)
        }
        Command::RemoveAll => remove_all(alloc, peer, errors),
        Command::List => list(alloc, peer, output, Listing::Fingerprints),
        Command::ListKeys => list(alloc, peer, output, Listing::Keys),
        Command::Lock => lock(alloc, true, input, peer, errors),
        Command::Unlock => lock(alloc, false, input, peer, errors),
    }
}

/// The last line on the errors.
fn last_line(status: AddStatus) -> &'static [u8]
    ensures { result.now ≡ last_line status }
{
    let AddStatus::Failed(fault) = status else {
        return &[];
    };
    match fault {
        AddFault::NoIdentities => &[],
        AddFault::Usage => b"ssh-add: usage\n",
        AddFault::File { .. } => b"ssh-add: file\n",
        AddFault::FileTooLong { .. } => b"ssh-add: filetoolong\n",
        AddFault::Body(_) => b"ssh-add: body\n",
        AddFault::Public(_) => b"ssh-add: public\n",
        AddFault::Destination(_) => b"ssh-add: destination\n",
        AddFault::Purpose(_) => b"ssh-add: purpose\n",
        AddFault::EmptyPassphrase => b"ssh-add: emptypassphrase\n",
        AddFault::LongPassphrase => b"ssh-add: longpassphrase\n",
        AddFault::TooLong => b"ssh-add: toolong\n",
        AddFault::Refused => b"ssh-add: refused\n",
        AddFault::BadReply => b"ssh-add: badreply\n",
        AddFault::PeerFault => b"ssh-add: peerfault\n",
        AddFault::InputFault => b"ssh-add: inputfault\n",
        AddFault::OutputFault => b"ssh-add: outputfault\n",
    }
}

/// Writes the last line. That a write of it fails is passed over.
fn write_last<E: Sink>(errors: &mut E, status: AddStatus)
    ensures last { WritesAllOrFails (last_line status) (E.seen errors.old) (E.seen errors.new) }
    ensures later { (E.seen errors.old).write_faults ≤ (E.seen errors.new).write_faults }
{
    let _ = write_all(errors, last_line(status));
}

/// How the tool ends after its last step.
fn ended(answer: Result<(), Stop>) -> AddStatus
    ensures value { result ≡ ended answer }
    ensures reached { result ≢ AddStatus.NoAgent }
{
    match answer {
        Ok(()) => AddStatus::Done,
        Err(Stop::Fault(fault)) => AddStatus::Failed(fault),
        Err(Stop::Memory) => AddStatus::Memory,
    }
}

/// Does what the words say with this agent, and writes the last line.
fn talk<F: Files, P: Source + Sink, I: Source, O: Sink, E: Sink>(
    alloc: Global,
    words: &AddWords<'_>,
    files: &mut F,
    peer: &mut P,
    input: &mut I,
    output: &mut O,
    errors: &mut E,
) -> AddStatus
    requires { IsCount words.now.uses }
    ensures told { (held : List ℕ → Option (List ℕ)) (left replies : List ℕ)
        → (F.seen files.old).held ≡ Some held → (I.seen input.old).left ≡ Some left
        → (P.seen peer.old).left ≡ Some replies
        → Ends result (talk_with true (plain_words words.now) held left replies)
        (P.seen peer.old) (P.seen peer.new) (O.seen output.old) (O.seen output.new)
        (E.seen errors.old) (E.seen errors.new) }
    ensures reached { result ≢ AddStatus.NoAgent }
    ensures files { (place : ℕ) → result ≡ AddStatus.Failed (AddFault.File place)
        → FailsIn (plain_words words.now) place (F.seen files.old) (F.seen files.new) }
    ensures agent { result ≡ AddStatus.Failed AddFault.PeerFault
        → Rose (P.seen peer.old).read_faults (P.seen peer.new).read_faults
        ⊎ Rose (P.seen peer.old).write_faults (P.seen peer.new).write_faults }
    ensures input { result ≡ AddStatus.Failed AddFault.InputFault
        → Rose (I.seen input.old).read_faults (I.seen input.new).read_faults }
    ensures outputs { result ≡ AddStatus.Failed AddFault.OutputFault
        → Rose (O.seen output.old).write_faults (O.seen output.new).write_faults
        ⊎ Rose (E.seen errors.old).write_faults (E.seen errors.new).write_faults }
{
    let answer = run(alloc, words, files, peer, input, output, errors);
    let status = ended(answer);
    write_last(errors, status);
    status
}

/// The words, where they are of one of the tool's forms.
fn read_form<'a>(alloc: Global, words: &'a [String]) -> Result<AddWords<'a>, AddStatus>
    ensures value { MatchResult result
        (λ read. words_of (map string_bytes words.entry.now) ≡ Some (plain_words read))
        (λ status. (status ≡ AddStatus.Memory)
        ⊎ ((status ≡ AddStatus.Failed AddFault.Usage)
        × (words_of (map string_bytes words.entry.now) ≡ None))) }
    ensures uses { IfOk result (λ read. IsCount read.uses) }
{
    match read_words(alloc, words) {
        Ok(words) => Ok(words),
        Err(WordsFault::Usage) => Err(AddStatus::Failed(AddFault::Usage)),
        Err(WordsFault::Memory) => Err(AddStatus::Memory),
    }
}

/// The tool: does what the words behind the program's name say, with an agent where there is one.
///
/// Where it fails, `ssh-add: WORD` is its last line on `errors`, with the fault's name in lower case;
/// there is none for an agent that holds no identity. What was done before a fault stands.
pub fn add_main<F: Files, P: Source + Sink, I: Source, O: Sink, E: Sink>(
    alloc: Global,
    words: &[String],
    files: &mut F,
    peer: &mut Option<P>,
    input: &mut I,
    output: &mut O,
    errors: &mut E,
) -> AddStatus
    // What is sent and written and how it ends, where the objects tell what they hold.
    ensures told { (held : List ℕ → Option (List ℕ)) (left replies : List ℕ)
        → (F.seen files.old).held ≡ Some held → (I.seen input.old).left ≡ Some left
        → IfSome (option_map P.seen peer.old) (λ seen. seen.left ≡ Some replies)
        → Ends result (talk (map string_bytes words.now) (is_some peer.old) held left replies)
        (agent_seen (option_map P.seen peer.old)) (agent_seen (option_map P.seen peer.new))
        (O.seen output.old) (O.seen output.new) (E.seen errors.old) (E.seen errors.new) }

    // What it says of the words and of an agent is so in any case.
    ensures usage { words_of (map string_bytes words.now) ≡ None
        → (result ≡ AddStatus.Failed AddFault.Usage) ⊎ (result ≡ AddStatus.Memory) }
    ensures no_agent { result ≡ AddStatus.NoAgent → peer.old ≡ None }

    // A fault of an object was counted there; that of a file on the very path that the place names.
    ensures files { (place : ℕ) → result ≡ AddStatus.Failed (AddFault.File place)
        → FailsByWords (map string_bytes words.now) place (F.seen files.old) (F.seen files.new) }
    ensures agent { result ≡ AddStatus.Failed AddFault.PeerFault
        → Rose (agent_seen (option_map P.seen peer.old)).read_faults
        (agent_seen (option_map P.seen peer.new)).read_faults
        ⊎ Rose (agent_seen (option_map P.seen peer.old)).write_faults
        (agent_seen (option_map P.seen peer.new)).write_faults }
    ensures input { result ≡ AddStatus.Failed AddFault.InputFault
        → Rose (I.seen input.old).read_faults (I.seen input.new).read_faults }
    ensures outputs { result ≡ AddStatus.Failed AddFault.OutputFault
        → Rose (O.seen output.old).write_faults (O.seen output.new).write_faults
        ⊎ Rose (E.seen errors.old).write_faults (E.seen errors.new).write_faults }
{
    let words = match read_form(alloc, words) {
        Ok(words) => words,
        Err(status) => {
            write_last(errors, status);
            return status;
        }
    };
    let Some(peer) = peer else {
        return AddStatus::NoAgent;
    };
    talk(alloc, &words, files, peer, input, output, errors)
}
