//! One side of a pair in memory: the bytes that its peer sends, and those that it takes.

ghost use Rattle.std.specs.Prelude.{◌≡◌, ◌++◌, ◌+◌, ◌-◌, ◌^◌, ◌<◌, ◌≤◌, OnOk, None, Some, [], false, true, length, min, take, drop, vec_len};
ghost use Rattle.world_ports.specs.Script.{PipeState, added_room, next_got, next_wrote, room_after};

use std::alloc::{AllocError, Global};
use std::marker::Model;
use world_ports::{Got, Wrote};

#[derive(Drop)]
pub struct Pipe {
    sent: Vec<u8>,
    at: usize,
    shut: bool,
    room: Option<u64>,
}

impl Model for Pipe {
    ghost Value = { PipeState };

    ghost view = { λ p. record { left = drop p.at p.sent.items; shut = p.shut; room = p.room } };

    ghost invariant = { λ p. p.at ≤ vec_len p.sent };
}

impl Pipe {
    pub fn new(alloc: Global) -> Self
        ensures { result ≡ record { left = []; shut = false; room = None } }
    {
        Pipe {
            sent: Vec::new(alloc),
            at: 0,
            shut: false,
            room: None,
        }
    }

    pub fn send(&mut self, bytes: &[u8]) -> Result<(), AllocError>
        ensures { OnOk result (self.new ≡ record self.old { left = self.old.left ++ bytes.now }) }
    {
        self.sent.extend_from_slice(bytes)
    }

    pub fn shut(&mut self)
        ensures { self.new ≡ record self.old { shut = true } }
    {
        self.shut = true;
    }

    pub fn add_room(&mut self, count: u32)
        ensures { self.new ≡ record self.old { room = Some (added_room self.old.room count) } }
    {
        self.room = Some(self.room.unwrap_or(0).saturating_add(u64::from(count)));
    }

    // What a read into so much room is answered.
    pub fn next_got(&self, most: usize) -> Got
        requires { 0 < most }
        ensures { result ≡ next_got self.now most }
    {
        let n = self.left().len().min(most).min(u32::MAX as usize);
        match n {
            0 if self.shut => Got::End,
            0 => Got::NotNow,
            _ => Got::Bytes(n as u32),
        }
    }

    // What was sent and not read yet.
    pub fn left(&self) -> &[u8]
        ensures { result.now ≡ self.now.left }
    {
        &self.sent[self.at..]
    }

    // So many bytes are read, or all where there are fewer.
    pub fn skip(&mut self, n: usize)
        ensures { self.new ≡ record self.old { left = drop n self.old.left } }
    {
        self.at += n.min(self.left().len());
    }

    // What a write of so many bytes is answered.
    pub fn next_wrote(&self, len: usize) -> Wrote
        ensures { result ≡ next_wrote self.now len }
    {
        let room = self.room.unwrap_or(u64::MAX);
        match room.min(len as u64).min(u64::from(u32::MAX)) {
            0 => Wrote::NotNow,
            n => Wrote::Took(n as u32),
        }
    }

    // So many bytes are taken.
    pub fn fill(&mut self, n: u32)
        ensures { self.new ≡ record self.old { room = room_after n self.old.room } }
    {
        if let Some(room) = self.room {
            self.room = Some(room.saturating_sub(u64::from(n)));
        }
    }
}
