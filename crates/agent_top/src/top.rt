//! The program over any input, output and world.

ghost use Rattle.std.specs.Prelude.{◌≡◌, ◌⊎◌, None, true, false};
ghost use Rattle.agent_model.specs.State.{Settings};
ghost use Rattle.agent_top.specs.DrillProgram.{DrillCompletes, DrillsExactly, DrillsLawfully};
ghost use Rattle.agent_top.specs.Program.{ReplaysExactly, Completes, RunsLawfully};
ghost use Rattle.agent_top.specs.RecordProgram.{Breaks, HoldsOfAdded, IsUnbroken, Records};
ghost use Rattle.agent_top.specs.ServeFair.{ServesFairly};
ghost use Rattle.agent_top.specs.ServeLaw.{ServesLawfully};
ghost use Rattle.agent_top.specs.ServeProgram.{ServesExactly};
ghost use Rattle.agent_top.specs.Words.{Drilling, IsDrill, IsReplay, IsServe, IsUsage, drill_words, replay_settings, serve_settings, texts_of};
ghost use Rattle.ready_loop.specs.Serving.{Setting};
ghost use Rattle.replay_run.specs.Claims.{Seen};
ghost use Rattle.serve_words.specs.Serve.{begins, ends_with_record, is_recorded};
ghost use Rattle.world_ports.specs.Causes.{Rose};
ghost use Rattle.world_ports.specs.Streams.{OnlyReads, OnlyWrites};

use crate::agent::replay_main;
use crate::drilling::drill_by;
use crate::serving::serve_by;
use crate::status::Status;
use crate::words::read_drill;
use serve_words::begins_with_serve;
use std::alloc::Global;
use std::sync::Wait;
use world_ports::{Sink, Source, World};

/// The program: `words` are those of the command line after the program's name.
///
/// With the word `replay` it runs the schedule that the input gives, and writes to the output what that
/// prints. With `replay -t LIFE` identities that are added without a lifetime live so long: parts as in
/// `1h30m`, or seconds; 0 stands for no lifetime. With `--confirm-limit SECONDS` behind these a question to the user
/// stays open for so long in a schedule of format 2. With `serve` and its options (crate serve_words) it
/// serves clients over the world until that fails or, where it is asked to, until it is idle; with `--record`
/// it writes what happens to the output, as a schedule without secrets, and where that breaks, one line to the errors that
/// says why (`says`); with `--record-or-stop` it makes no call behind one that it couldn't write: `records`. With
/// `drill N SEED` it makes N requests that are drawn from a seed, and writes a line that sums up what came
/// of them. With any other words it touches none of the four.
///
/// With each of these commands a signature is put to the helper exactly where what was done before says so, while
/// neither the numbers of asks nor those of jobs are spent: `lawful`, `serves_lawfully` and `drills_lawfully`. With `serve`
/// each thing that is ready and can be served is served between two services of any other, and a child process that is to be
/// started before any of them: `serves_fairly`.
///
/// What the clauses say stands in specs/Program.antt, DrillProgram.antt, ServeProgram.antt, ServeLaw.antt, LawfulRun.antt,
/// ServeFair.antt and RecordProgram.antt, whose heads name where to read on, down to the table of requests.
pub fn agent_main<R: Wait, W: World, I: Source, O: Sink, E: Sink>(
    rt: &R,
    alloc: Global,
    words: &[String],
    world: &mut W,
    input: &mut I,
    output: &mut O,
    errors: &mut E,
) -> Status
    requires { W.last_port world.old ≡ 0 }
    // of `replay`
    ensures replays { (chosen : Settings) → IsReplay words.now chosen → ReplaysExactly chosen result
        (record { input = I.seen input.old; output = O.seen output.old })
        (record { input = I.seen input.new; output = O.seen output.new }) }
    ensures completes { (chosen : Settings) → IsReplay words.now chosen → Completes chosen result
        (record { input = I.seen input.old; output = O.seen output.old })
        (record { input = I.seen input.new; output = O.seen output.new }) }
    ensures lawful { (chosen : Settings) → IsReplay words.now chosen → RunsLawfully chosen
        (record { input = I.seen input.old; output = O.seen output.old })
        (record { input = I.seen input.new; output = O.seen output.new }) }
    ensures replay_alone { (chosen : Settings) → IsReplay words.now chosen → world.new ≡ world.old }
    // of `serve`
    ensures serves { (setting : Setting) → IsServe words.now setting
        → ServesExactly (is_recorded (texts_of words.now)) setting result (W.journal world.old) (W.journal world.new) }
    ensures serves_lawfully { (setting : Setting) → IsServe words.now setting
        → ServesLawfully (serve_settings (texts_of words.now)) setting (W.journal world.old) (W.journal world.new) }
    ensures serves_fairly { (setting : Setting) → IsServe words.now setting
        → ServesFairly setting (W.journal world.old) (W.journal world.new) }
    ensures records { (setting : Setting) → IsServe words.now setting → is_recorded (texts_of words.now) ≡ true
        → HoldsOfAdded (W.journal world.old) (W.journal world.new)
        (Records (ends_with_record (texts_of words.now)) result (O.seen output.old) (O.seen output.new)
        (E.seen errors.old) (E.seen errors.new)) }
    ensures write { (setting : Setting) → IsServe words.now setting → result ≡ Status.WriteFault
        → Breaks (W.journal world.old) (W.journal world.new)
        (O.seen output.old) (O.seen output.new) (E.seen errors.old) (E.seen errors.new) }
    ensures says { (setting : Setting) → IsServe words.now setting
        → IsUnbroken (O.seen output.old) (O.seen output.new) (E.seen errors.old) (E.seen errors.new)
        ⊎ Breaks (W.journal world.old) (W.journal world.new) (O.seen output.old) (O.seen output.new)
        (E.seen errors.old) (E.seen errors.new) }
    ensures done { (setting : Setting) → IsServe words.now setting → result ≡ Status.Done
        → IsUnbroken (O.seen output.old) (O.seen output.new) (E.seen errors.old) (E.seen errors.new) }
    ensures goes_on { (setting : Setting) → IsServe words.now setting → result ≡ Status.RecordFault
        → ends_with_record (texts_of words.now) ≡ false
        → IsUnbroken (O.seen output.old) (O.seen output.new) (E.seen errors.old) (E.seen errors.new) }
    ensures serve_alone { replay_settings (texts_of words.now) ≡ None
        → (input.new ≡ input.old) × (drill_words (texts_of words.now) ≡ None
        → is_recorded (texts_of words.now) ≡ false → output.new ≡ output.old) }
    // of `drill`
    ensures drills { (asked : Drilling) → IsDrill words.now asked → DrillsExactly asked result
        (O.seen output.old) (O.seen output.new) }
    ensures drill_completes { (asked : Drilling) → IsDrill words.now asked
        → DrillCompletes result (O.seen output.old) (O.seen output.new) }
    ensures drills_lawfully { (asked : Drilling) → IsDrill words.now asked → DrillsLawfully asked }
    ensures drill_alone { (asked : Drilling) → IsDrill words.now asked
        → (input.new ≡ input.old) × (world.new ≡ world.old) }
    // of other words
    ensures usage { result ≡ Status.Usage → IsUsage words.now }
    ensures refused { IsUsage words.now
        → (result ≡ Status.Usage) ⊎ ((result ≡ Status.Memory) × (begins (texts_of words.now) ≡ true)) }
    ensures unused { IsUsage words.now
        → (input.new ≡ input.old) × (output.new ≡ output.old) × (world.new ≡ world.old)
        × (errors.new ≡ errors.old) }
    // of each object, whatever the words
    ensures bind { result ≡ Status.BindFault → Rose (W.faults world.old) (W.faults world.new) }
    ensures poll { result ≡ Status.PollFault → Rose (W.faults world.old) (W.faults world.new) }
    ensures input_only { OnlyReads (I.seen input.old) (I.seen input.new) }
    ensures output_only { OnlyWrites (O.seen output.old) (O.seen output.new) }
    ensures unserved { begins (texts_of words.now) ≡ false → errors.new ≡ errors.old }
    ensures unrecorded { is_recorded (texts_of words.now) ≡ false → errors.new ≡ errors.old }
    ensures errors_only { OnlyWrites (E.seen errors.old) (E.seen errors.new) }
{
    if begins_with_serve(words) {
        return serve_by(rt, alloc, words, world, output, errors);
    }
    if let Some(words) = read_drill(words) {
        return drill_by(alloc, words, output);
    }
    replay_main(alloc, words, input, output)
}
