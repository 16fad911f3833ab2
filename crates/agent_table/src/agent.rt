//! Runs of the program over an input, an output and a world that is played.

use crate::cues::turns_of;
use crate::input::Input;
use crate::stage::{Settings, Stage, words_of};
use agent_top::{Status, agent_main};
use std::alloc::{AllocError, Global};
use std::io;
use std::sync::Wait;
use world_ports::{ScriptWorld, SliceSource, VecSink};

/// How the program ends with these words.
pub(crate) fn say_run(
    rt: &HostRuntime,
    wait: &impl Wait,
    stage: &mut Stage,
    settings: Settings,
    line: &str,
) -> io::Result<()> {
    let status = run(rt.alloc(), wait, stage, settings, line)?;
    println!(rt; "{status:?}")
}

fn run(
    alloc: Global,
    wait: &impl Wait,
    stage: &mut Stage,
    settings: Settings,
    line: &str,
) -> Result<Status, AllocError> {
    let words = words_of(alloc, line)?;
    let mut output = output_of(alloc, settings)?;
    let status = with_output(alloc, wait, stage, settings, &words, &mut output)?;
    stage.output = Vec::from_slice(alloc, output.written())?;
    Ok(status)
}

// Room for all outputs of the table.
fn output_of(alloc: Global, settings: Settings) -> Result<VecSink, AllocError> {
    let failing = [settings.failing_write].to_vec(alloc)?;
    VecSink::with_cut(alloc, 65_536, settings.output_cut.max(1), failing)
}

fn with_output(
    alloc: Global,
    wait: &impl Wait,
    stage: &mut Stage,
    settings: Settings,
    words: &[String],
    output: &mut VecSink,
) -> Result<Status, AllocError> {
    let mut errors = VecSink::new(alloc, 1, Vec::new(alloc))?;
    let failing_read = [settings.failing_read].to_vec(alloc)?;
    let failing = [settings.failing].to_vec(alloc)?;
    let turns = turns_of(alloc, &stage.turns)?;
    let source = SliceSource::new(&stage.input, settings.cut.max(1), failing_read);
    let mut input = Input::new(source);
    let mut world = ScriptWorld::new(alloc, turns, failing);
    let status = agent_main(
        wait,
        alloc,
        words,
        &mut world,
        &mut input,
        output,
        &mut errors,
    );
    stage.taken = input.taken;
    stage.late_reads = input.late_reads;
    stage.ended = input.ended;
    stage.world = Some(world);
    Ok(status)
}
