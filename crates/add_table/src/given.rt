//! What lines set for those behind them.

use bstr::ByteVec;
use std::alloc::{AllocError, Global};

/// Numbers that the runs of the tool take.
#[derive(Clone, Copy)]
pub(crate) struct Settings {
    /// How many bytes a read from the agent brings at the most.
    pub(crate) cut: u32,
    /// The numbers, from 1, of the calls that fail, 0 for none.
    pub(crate) files: u64,
    pub(crate) reads: u64,
    pub(crate) writes: u64,
    pub(crate) inputs: u64,
    pub(crate) outputs: u64,
    /// 0 where there is none.
    pub(crate) agents: u64,
    /// How often the last two words stand there.
    pub(crate) times: u64,
}

impl Settings {
    pub(crate) const NONE: Settings = Settings {
        cut: 4096,
        files: 0,
        reads: 0,
        writes: 0,
        inputs: 0,
        outputs: 0,
        agents: 1,
        times: 1,
    };

    /// Sets the number that this name has, and says whether there is one.
    pub(crate) fn set(&mut self, name: &str, text: &str) -> bool {
        let Ok(number) = text.parse::<u64>() else {
            return false;
        };
        match name {
            "cut" => self.cut = number.min(4096) as u32,
            "failing-file" => self.files = number,
            "failing-read" => self.reads = number,
            "failing-write" => self.writes = number,
            "failing-input" => self.inputs = number,
            "failing-output" => self.outputs = number,
            "agents" => self.agents = number,
            "times" => self.times = number,
            _ => return false,
        }
        true
    }
}

/// Texts: files by path, one of known hosts, the tool's input, and the agent's replies.
#[derive(Drop)]
pub(crate) struct Given {
    pub(crate) files: Vec<(String, Vec<u8>)>,
    pub(crate) hosts: Vec<u8>,
    pub(crate) input: Vec<u8>,
    pub(crate) replies: Vec<u8>,
}

impl Given {
    pub(crate) fn new(alloc: Global) -> Given {
        Given {
            files: Vec::new(alloc),
            hosts: Vec::new(alloc),
            input: Vec::new(alloc),
            replies: Vec::new(alloc),
        }
    }

    /// Sets the text that this name has, and says whether there is one.
    pub(crate) fn set(
        &mut self,
        alloc: Global,
        name: &str,
        text: &str,
    ) -> Result<bool, AllocError> {
        match name {
            "file" => self.add_file(alloc, text)?,
            "filled" => self.add_filled(alloc, text)?,
            "hosts" => self.hosts = unescaped(alloc, text)?,
            "input" => self.input = unescaped(alloc, text)?,
            "replies" => self.replies = unescaped(alloc, text)?,
            "list" => self.replies = list_of(alloc, text)?,
            _ => return Ok(false),
        }
        Ok(true)
    }

    fn add_file(&mut self, alloc: Global, text: &str) -> Result<(), AllocError> {
        let (path, held) = text.split_once(' ').unwrap_or((text, ""));
        let path = String::from_str(alloc, path)?;
        self.files.push((path, unescaped(alloc, held)?))?;
        Ok(())
    }

    // A file of so many times the letter A, as `PATH COUNT`.
    fn add_filled(&mut self, alloc: Global, text: &str) -> Result<(), AllocError> {
        let (path, count) = text.split_once(' ').unwrap_or((text, ""));
        let path = String::from_str(alloc, path)?;
        let count = count.parse::<u32>().unwrap_or(0);
        let held = vec![in alloc; b'A'; count as usize]?;
        self.files.push((path, held))?;
        Ok(())
    }
}

/// The bytes of a text with escapes.
pub(crate) fn unescaped(alloc: Global, text: &str) -> Result<Vec<u8>, AllocError> {
    <Vec<u8> as ByteVec>::unescape_bytes(alloc, text)
}

/// A reply: so many times the same identity, as `COUNT ENTRY`.
fn list_of(alloc: Global, text: &str) -> Result<Vec<u8>, AllocError> {
    let (count, entry) = text.split_once(' ').unwrap_or((text, ""));
    let count = count.parse::<u16>().unwrap_or(0);
    let entry = unescaped(alloc, entry)?;
    let mut body = Vec::new(alloc);
    for _ in 0..count {
        body.extend_from_slice(&entry)?;
    }
    let len = u32::try_from(body.len()).unwrap_or(0).saturating_add(5);
    let mut reply = Vec::from_slice(alloc, &len.to_be_bytes())?;
    reply.push(12)?;
    reply.extend_from_slice(&u32::from(count).to_be_bytes())?;
    reply.extend_from_slice(&body)?;
    Ok(reply)
}
