//! The program that audits a record, over any files and any output.

ghost use Rattle.std.specs.Prelude.{◌≡◌, ◌≢◌, ℕ, List, Option, Some};
ghost use Rattle.agent_core.specs.Parts.{settings_of};
ghost use Rattle.audit_core.specs.Program.{Audits, EndsAudit, FailsInOrder, IsTooLongInOrder};
ghost use Rattle.audit_core.specs.Words.{Asked, IsAsked, IsUsage};
ghost use Rattle.audit_core.specs.declared.status.AuditStatus.TheVariants as status;
ghost use Rattle.world_ports.specs.Causes.{Rose};
ghost use Rattle.world_ports.specs.Files.{OnlyReadsFiles};
ghost use Rattle.world_ports.specs.Streams.{OnlyWrites};

use crate::comparison::compare;
use crate::status::{AuditStatus, status_for};
use crate::texts::read_texts;
use crate::words::read_words;
use crate::writing::write_report;
use agent_core::Settings;
use std::alloc::Global;
use world_ports::{Files, Sink};

/// Audits the text of a record and of its deeds, where the record's agent has these settings.
/// The record is run twice: nothing is written before the first run was compared to its end, and no report is kept.
pub fn audit<O: Sink>(
    alloc: Global,
    settings: Settings,
    recording: &[u8],
    deeds: &[u8],
    output: &mut O,
) -> AuditStatus
    ensures ends { EndsAudit (settings_of settings) recording.now deeds.now result
        (O.seen output.old) (O.seen output.new) }
    ensures only { OnlyWrites (O.seen output.old) (O.seen output.new) }
{
    match compare(alloc, settings, recording, deeds) {
        Ok(finding) => {
            let written = write_report(alloc, settings, recording, finding, output);
            status_for(finding, written)
        }
        Err(_) => AuditStatus::Memory,
    }
}

/// The program: `words` are those of the command line after the program's name, RECORD, DEEDS and what they choose.
///
/// Runs the schedule of the file RECORD again, compares what it prints with the file DEEDS, and reports each request for
/// a signature that was put to the helper in it: or the first line that is refused, or else the first that differs. With
/// LIFE identities that are added without a lifetime live so long: parts as in `1h30m`, or seconds; 0 stands for no
/// lifetime. With `--confirm-limit SECONDS` a question to the user stays open for so long in a schedule of format 2. RECORD
/// is read first, each of both once and whole. With any other words it touches nothing.
///
/// Where the files tell what they hold, `audits` says of each end what was found and written. Where it is yes, the run
/// that RECORD and DEEDS describe meets the law of history of agent_laws, and all signing requests that were put in it
/// are listed. At a file fault a call on a path that the words name failed and no other did, and that was counted; at any
/// other end no call failed. A file that is called too long has such a path too. It is that of the deeds only where the file
/// of the record is short enough and no call on it failed.
pub fn audit_main<F: Files, O: Sink>(
    alloc: Global,
    words: &[String],
    files: &mut F,
    output: &mut O,
) -> AuditStatus
    ensures audits { (held : List ℕ → Option (List ℕ)) (asked : Asked) → IsAsked words.now asked
        → (F.seen files.old).held ≡ Some held
        → Audits held asked result (O.seen output.old) (O.seen output.new) }
    ensures usage { result ≡ status.Usage → IsUsage words.now }
    ensures refused { IsUsage words.now
        → (result ≡ status.Usage) × ((output.new ≡ output.old) × (files.new ≡ files.old)) }
    ensures file { (asked : Asked) → IsAsked words.now asked → result ≡ status.FileFault
        → FailsInOrder asked.recording asked.deeds (F.seen files.old) (F.seen files.new) }
    ensures long { (asked : Asked) → IsAsked words.now asked → result ≡ status.FileTooLong
        → IsTooLongInOrder asked.recording asked.deeds (F.seen files.old) (F.seen files.new) }
    ensures failed { result ≢ status.FileFault
        → (F.seen files.new).failed ≡ (F.seen files.old).failed }
    ensures faults { result ≢ status.FileFault → result ≢ status.Memory
        → (F.seen files.new).faults ≡ (F.seen files.old).faults }
    ensures write { result ≡ status.WriteFault
        → Rose (O.seen output.old).write_faults (O.seen output.new).write_faults }
    ensures files_only { OnlyReadsFiles (F.seen files.old) (F.seen files.new) }
    ensures output_only { OnlyWrites (O.seen output.old) (O.seen output.new) }
{
    let Some(asked) = read_words(words) else {
        return AuditStatus::Usage;
    };
    match read_texts(alloc, files, asked.recording, asked.deeds) {
        Ok(texts) => audit(
            alloc,
            asked.settings,
            &texts.recording,
            &texts.deeds,
            output,
        ),
        Err(status) => status,
    }
}
