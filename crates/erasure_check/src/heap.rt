//! The process's own heap, read through the system and searched for copies of a mark.

use std::fs::{self, File};
use std::io;
use std::os::unix::fs::FileExt;
use std::rt::Files;

/// The byte that is looked for. Text and addresses have no long runs of it.
pub const MARK: u8 = 0xa5;

/// The number of marked bytes in a copy.
pub const SIZE: usize = 512;

// Marks in a row that are counted: fewer may be part of an address.
const RUN: usize = 8;

const PAGE: usize = 4096;

/// The heap of this process, read through the system.
#[derive(Drop)]
pub struct Heap {
    memory: File,
    start: u64,
    pages: u64,
}

impl Heap {
    /// Finds the heap, or answers `NotFound` where the system names none.
    pub fn open(rt: &HostRuntime) -> io::Result<Heap> {
        let memory = fs::open(rt, "/proc/self/mem")?;
        let maps = fs::read_to_string(rt, "/proc/self/maps")?;
        let Some((start, end)) = heap_bounds(&maps) else {
            return Err(io::ErrorKind::NotFound.into());
        };
        Ok(Heap {
            memory,
            start,
            pages: end.saturating_sub(start) / PAGE as u64,
        })
    }

    /// The number of copies of `SIZE` marks in the heap, a part of one counted as one.
    ///
    /// What is freed loses its first bytes to the allocator's list, so a freed copy is a part.
    pub fn copies(&mut self) -> io::Result<usize> {
        let mut room = [0; PAGE];
        let mut marks: usize = 0;
        let mut at = self.start;
        for _ in 0..self.pages {
            self.memory.read_exact_at(&mut room, at)?;
            marks = marks.saturating_add(marks_in_runs(&room));
            at = at.wrapping_add(PAGE as u64);
        }
        Ok(marks.div_ceil(SIZE))
    }
}

// The bounds of the mapping that is named `[heap]`, in the text of a file `maps` of proc(5).
fn heap_bounds(maps: &str) -> Option<(u64, u64)> {
    let line = maps.lines().find(|line| line.ends_with("[heap]"))?;
    let (range, _) = line.split_once(' ')?;
    let (start, end) = range.split_once('-')?;
    Some((
        u64::from_str_radix(start, 16).ok()?,
        u64::from_str_radix(end, 16).ok()?,
    ))
}

// The number of marks that stand in runs of at least `RUN`.
fn marks_in_runs(bytes: &[u8]) -> usize {
    let mut marks: usize = 0;
    for run in bytes.split(|byte| *byte != MARK) {
        if run.len() >= RUN {
            marks = marks.saturating_add(run.len());
        }
    }
    marks
}
