//! The command `serve`.

ghost use Rattle.std.specs.Prelude.{◌≡◌, ◌⊎◌, true, false};
ghost use Rattle.ready_loop.specs.Serving.{Setting};
ghost use Rattle.agent_top.specs.RecordProgram.{Breaks, HoldsOfAdded, IsUnbroken, Records};
ghost use Rattle.agent_top.specs.ServeFair.{ServesFairly};
ghost use Rattle.agent_top.specs.ServeLaw.{ServesLawfully};
ghost use Rattle.agent_top.specs.ServeProgram.{ServesExactly, status_of_serving};
ghost use Rattle.agent_top.specs.Words.{IsServe, serve_settings, texts_of};
ghost use Rattle.serve_words.specs.Serve.{ends_with_record, is_recorded, is_usage};
ghost use Rattle.world_ports.specs.Causes.{Rose};
ghost use Rattle.world_ports.specs.Streams.{OnlyWrites};

use crate::recording::serve_recorded;
use crate::status::Status;
use agent_core::Agent;
use ready_loop::{ServeEnd, serve};
use replay_run::served_settings;
use serve_words::{ServeFault, read_serve};
use std::alloc::Global;
use std::sync::Wait;
use world_ports::{Sink, World};

// The status of a loop that ended so.
pub fn status_of_serving(end: ServeEnd) -> Status
    ensures { result ≡ status_of_serving end }
{
    match end {
        ServeEnd::Over => Status::Done,
        ServeEnd::Idle => Status::Done,
        ServeEnd::BindFault => Status::BindFault,
        ServeEnd::PollFault => Status::PollFault,
        ServeEnd::Memory => Status::Memory,
    }
}

// Serves clients over the world, where the words are those of the command. Writes to the output where they ask for a
// record, and to the errors where that breaks.
pub fn serve_by<R: Wait, W: World, O: Sink, E: Sink>(
    rt: &R,
    alloc: Global,
    words: &[String],
    world: &mut W,
    output: &mut O,
    errors: &mut E,
) -> Status
    requires { W.last_port world.old ≡ 0 }
    ensures serves { (setting : Setting) → IsServe words.now setting
        → ServesExactly (is_recorded (texts_of words.now)) setting result (W.journal world.old) (W.journal world.new) }
    ensures records { (setting : Setting) → IsServe words.now setting → is_recorded (texts_of words.now) ≡ true
        → HoldsOfAdded (W.journal world.old) (W.journal world.new)
        (Records (ends_with_record (texts_of words.now)) result (O.seen output.old) (O.seen output.new)
        (E.seen errors.old) (E.seen errors.new)) }
    ensures unrecorded { is_recorded (texts_of words.now) ≡ false
        → (output.new ≡ output.old) × (errors.new ≡ errors.old) }
    ensures serves_lawfully { (setting : Setting) → IsServe words.now setting
        → ServesLawfully (serve_settings (texts_of words.now)) setting (W.journal world.old) (W.journal world.new) }
    ensures serves_fairly { (setting : Setting) → IsServe words.now setting
        → ServesFairly setting (W.journal world.old) (W.journal world.new) }
    ensures usage { result ≡ Status.Usage → is_usage (texts_of words.now) ≡ true }
    ensures refused { is_usage (texts_of words.now) ≡ true
        → (result ≡ Status.Usage) ⊎ (result ≡ Status.Memory) }
    ensures unused { is_usage (texts_of words.now) ≡ true
        → (world.new ≡ world.old) × (output.new ≡ output.old) × (errors.new ≡ errors.old) }
    ensures bind { result ≡ Status.BindFault → Rose (W.faults world.old) (W.faults world.new) }
    ensures poll { result ≡ Status.PollFault → Rose (W.faults world.old) (W.faults world.new) }
    ensures write { result ≡ Status.WriteFault → Breaks (W.journal world.old) (W.journal world.new)
        (O.seen output.old) (O.seen output.new) (E.seen errors.old) (E.seen errors.new) }
    ensures says { IsUnbroken (O.seen output.old) (O.seen output.new) (E.seen errors.old) (E.seen errors.new)
        ⊎ Breaks (W.journal world.old) (W.journal world.new) (O.seen output.old) (O.seen output.new)
        (E.seen errors.old) (E.seen errors.new) }
    ensures done { result ≡ Status.Done
        → IsUnbroken (O.seen output.old) (O.seen output.new) (E.seen errors.old) (E.seen errors.new) }
    ensures goes_on { result ≡ Status.RecordFault → ends_with_record (texts_of words.now) ≡ false
        → IsUnbroken (O.seen output.old) (O.seen output.new) (E.seen errors.old) (E.seen errors.new) }
    ensures led { W.leads world.old world.new }
    ensures only { OnlyWrites (O.seen output.old) (O.seen output.new) }
    ensures errors_only { OnlyWrites (E.seen errors.old) (E.seen errors.new) }
{
    let served = match read_serve(alloc, words) {
        Ok(served) => served,
        Err(ServeFault::Usage) => return Status::Usage,
        Err(ServeFault::Memory) => return Status::Memory,
    };
    let settings = served_settings(served.life, served.confirm_limit);
    let mut agent = Agent::new(alloc, settings);
    let path = served.path.as_str();
    if served.recorded {
        return serve_recorded(
            rt,
            alloc,
            &mut agent,
            world,
            output,
            errors,
            path,
            served.until_idle,
            served.or_stop,
        );
    }
    status_of_serving(serve(rt, alloc, &mut agent, world, path, served.until_idle))
}
