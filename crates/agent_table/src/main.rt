//! Answers a table of runs of the agent in memory, a line each: of schedules, over worlds that are played, of its loop
//! alone, and of the relay that asks the user.
//!
//! A line is a verb and what follows it: it sets what later lines read, and is written again, or it runs something and
//! says how that ended, or it asks what was done there. A text has the escapes of Rust's byte strings. Lines that begin
//! with `#` are written again as they are, so that both tables have the same headings.
#![tactic(auto)]

mod agent;
mod asked;
mod cues;
mod each;
mod input;
mod kinds;
mod looped;
mod relay;
mod stage;

use stage::{Settings, Stage};
use std::alloc::{AllocError, Global};
use std::io;
use std::sync::Wait;

fn main(rt: HostRuntime) -> io::Result<()> {
    let mut stage = Stage::new(rt.alloc());
    answer_all(&rt, &rt, &mut stage)
}

fn answer_all(rt: &HostRuntime, wait: &impl Wait, stage: &mut Stage) -> io::Result<()> {
    let mut settings = Settings::NONE;
    for line in rt.lines(rt.alloc()) {
        let line = line?;
        answer(rt, wait, stage, &mut settings, line.as_str())?;
    }
    Ok(())
}

fn answer(
    rt: &HostRuntime,
    wait: &impl Wait,
    stage: &mut Stage,
    settings: &mut Settings,
    line: &str,
) -> io::Result<()> {
    let (verb, text) = line.split_once(' ').unwrap_or((line, ""));
    match verb {
        "agent" => agent::say_run(rt, wait, stage, *settings, text),
        "loop" => looped::say_run(rt, wait, stage, *settings, text),
        "each" => each::say_runs(rt, wait, stage, *settings, text),
        "relay" => relay::say_run(rt, stage, text),
        _ => say_asked(rt, stage, settings, line),
    }
}

fn say_asked(
    rt: &HostRuntime,
    stage: &mut Stage,
    settings: &mut Settings,
    line: &str,
) -> io::Result<()> {
    let (verb, text) = line.split_once(' ').unwrap_or((line, ""));
    if is_set(rt.alloc(), stage, settings, line)? {
        println!(rt; "{line}")
    } else if asked::say_output(rt, stage, verb, text)? || asked::say_done(rt, stage, verb, text)? {
        Ok(())
    } else {
        println!(rt; "not a line")
    }
}

fn is_set(
    alloc: Global,
    stage: &mut Stage,
    settings: &mut Settings,
    line: &str,
) -> Result<bool, AllocError> {
    if line.starts_with('#') || line.is_empty() {
        return Ok(true);
    }
    let (verb, text) = line.split_once(' ').unwrap_or((line, ""));
    if settings.set(verb, text) {
        return Ok(true);
    }
    stage.set(alloc, verb, text)
}
