//! What lines set for those behind them, and what the last run left.

use bstr::ByteVec;
use std::alloc::{AllocError, Global};
use world_ports::ScriptWorld;

/// Numbers that runs take.
#[derive(Clone, Copy)]
pub(crate) struct Settings {
    /// How many bytes a read of the input brings at the most, and a write to the output takes.
    pub(crate) cut: u32,
    pub(crate) output_cut: u32,
    /// The numbers, from 1, of the calls that fail, 0 for none: of the input, of the output, and of the world.
    pub(crate) failing_read: u64,
    pub(crate) failing_write: u64,
    pub(crate) failing: u64,
    /// For how many seconds the loop alone waits for its helper, and for its user, 0 for ever.
    pub(crate) helper_limit: u32,
    pub(crate) user_limit: u32,
}

impl Settings {
    pub(crate) const NONE: Settings = Settings {
        cut: 4096,
        output_cut: 65_536,
        failing_read: 0,
        failing_write: 0,
        failing: 0,
        helper_limit: 0,
        user_limit: 0,
    };

    /// Sets the number that this name has, and says whether there is one.
    pub(crate) fn set(&mut self, name: &str, text: &str) -> bool {
        let Ok(number) = text.parse::<u64>() else {
            return false;
        };
        match name {
            "cut" => self.cut = number.min(65_536) as u32,
            "output-cut" => self.output_cut = number.min(65_536) as u32,
            "failing-read" => self.failing_read = number,
            "failing-write" => self.failing_write = number,
            "failing" => self.failing = number,
            "helper-limit" => self.helper_limit = number.min(3600) as u32,
            "user-limit" => self.user_limit = number.min(3600) as u32,
            _ => return false,
        }
        true
    }
}

/// The turns of the world, a line each, and the bytes of the input; of the last run what it wrote, its world, how many
/// bytes it read, how often behind the end of the input, and whether it was told of that end.
#[derive(Drop)]
pub(crate) struct Stage {
    pub(crate) turns: Vec<String>,
    pub(crate) input: Vec<u8>,
    pub(crate) output: Vec<u8>,
    pub(crate) world: Option<ScriptWorld>,
    pub(crate) taken: usize,
    pub(crate) late_reads: u64,
    pub(crate) ended: bool,
}

impl Stage {
    pub(crate) fn new(alloc: Global) -> Stage {
        Stage {
            turns: Vec::new(alloc),
            input: Vec::new(alloc),
            output: Vec::new(alloc),
            world: None,
            taken: 0,
            late_reads: 0,
            ended: false,
        }
    }

    /// Sets the text that this name has, and says whether there is one.
    pub(crate) fn set(
        &mut self,
        alloc: Global,
        name: &str,
        text: &str,
    ) -> Result<bool, AllocError> {
        match name {
            "input" => self.input = unescaped(alloc, text)?,
            "replayed" => self.input = Vec::from_slice(alloc, &self.output)?,
            "world" => self.turns.clear(),
            "turn" => self.add_turn(alloc, text)?,
            _ => return Ok(false),
        }
        Ok(true)
    }

    fn add_turn(&mut self, alloc: Global, text: &str) -> Result<(), AllocError> {
        let turn = String::from_str(alloc, text)?;
        self.turns.push(turn)?;
        Ok(())
    }
}

/// The bytes of a text with escapes.
pub(crate) fn unescaped(alloc: Global, text: &str) -> Result<Vec<u8>, AllocError> {
    <Vec<u8> as ByteVec>::unescape_bytes(alloc, text)
}

/// The words of a command line.
pub(crate) fn words_of(alloc: Global, line: &str) -> Result<Vec<String>, AllocError> {
    let mut words = Vec::new(alloc);
    for word in line.split_whitespace() {
        words.push(String::from_str(alloc, word)?)?;
    }
    Ok(words)
}
