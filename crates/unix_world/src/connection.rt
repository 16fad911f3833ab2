//! A connection of a client or a child process, whose hello comes whole before all else.

ghost use Rattle.std.specs.Prelude.{◌≡◌, ◌≤◌, ◌<◌, ◌⊎◌, ◌↔◌, length, IfOk, IsTrue, OnErr, Ok};
ghost use Rattle.world_ports.specs.Worlds.{KeepsRest, GotWithin, TookWithin};
ghost use Rattle.unix_world.specs.Rounds.{HasNone, IsUnnamed, OnNoBytes, OnNoRoom, StaysOwed, WhyNoBytes, WhyNoRoom};

use crate::hello::HELLO;
use crate::owed::Owed;
use crate::port::Port;
use crate::started::Started;
use mio::{Registry, Token};
use std::io;
use std::process::OpenProcess;
use world_ports::{Got, Wrote};

/// A connection, and the child process at its other end, where it is one's.
#[derive(Drop)]
pub struct Connection<P: OpenProcess + Drop> {
    /// Where it was accepted: a child process has a connection from its start on.
    pub number: Option<u64>,
    pub port: Port,
    pub child: Option<Started<P>>,
}

impl<P: OpenProcess + Drop> Connection<P> {
    /// Whether a child process hasn't named itself here yet.
    #[inline(always)]
    fn is_unnamed(&self) -> bool
        ensures { IsTrue result ↔ IsUnnamed self.now }
    {
        match &self.child {
            Some(child) => !child.hello.is_said(),
            None => false,
        }
    }

    // Reads once. Of a child process nothing comes before its hello, which comes whole or not at all; the world says it
    // where the connection ends without it. Whether this read brought the rest of a hello comes back too.
    #[inline(always)]
    fn read(&mut self, round: u64, inbox: &mut [u8], room: &mut [u8]) -> io::Result<(Got, bool)>
        requires { 0 < length room.old }
        ensures within { IfOk result (λ read. GotWithin (Ok read.0) (length room.old)) }
        ensures rest { IfOk result (λ read. KeepsRest (Ok read.0) room.old room.new) }
        ensures unchanged { OnErr result (room.new ≡ room.old) }
        ensures none { IfOk result (λ read. OnNoBytes read.0 (HasNone round self.new.port.marks)) }
        ensures number { self.new.number ≡ self.old.number }
    {
        match &mut self.child {
            Some(child) if !child.hello.is_said() => {
                hear(&mut self.port, child, round, inbox);
                if !child.hello.is_whole() {
                    return Ok((Got::NotNow, false));
                }
                let got = child.hello.read(room);
                match got {
                    Got::End => self.port.marks.finish(),
                    _ => self.port.marks.gave(round, true),
                }
                Ok((got, child.hello.is_said()))
            }
            _ => Ok((self.port.read(round, inbox, room)?, false)),
        }
    }

    /// Reads once a round. Of a connection that may have more, and was read in this round, the next poll tells.
    #[inline(always)]
    pub fn read_or_owe(
        &mut self,
        port: u64,
        owed: &mut Owed,
        inbox: &mut [u8],
        room: &mut [u8],
    ) -> io::Result<(Got, bool)>
        requires { 0 < length room.old }
        ensures within { IfOk result (λ read. GotWithin (Ok read.0) (length room.old)) }
        ensures rest { IfOk result (λ read. KeepsRest (Ok read.0) room.old room.new) }
        ensures unchanged { OnErr result (room.new ≡ room.old) }
        ensures number { self.new.number ≡ self.old.number }
        ensures stays { StaysOwed owed.old owed.new }
        ensures why { IfOk result (λ read. OnNoBytes read.0
            (WhyNoBytes owed.old.round port self.old.port.marks self.new.port.marks owed.new)) }
    {
        if self.port.marks.asks(owed.round) {
            return self.read(owed.round, inbox, room);
        }
        if self.port.marks.may_wait() {
            owed.put_off_read(port, &mut self.port.marks.place)?;
        }
        Ok((Got::NotNow, false))
    }

    /// Writes while the round allows it. Where it doesn't, the next poll tells of the connection.
    #[inline(always)]
    pub fn write_or_owe(
        &mut self,
        port: u64,
        owed: &mut Owed,
        is_long: bool,
        registry: &Registry,
        token: Token,
        bytes: &[u8],
    ) -> io::Result<Wrote>
        requires { 0 < length bytes.now }
        ensures within { IfOk result (λ wrote. TookWithin (Ok wrote) (length bytes.now)) }
        ensures number { self.new.number ≡ self.old.number }
        ensures stays { StaysOwed owed.old owed.new }
        ensures why { IfOk result (λ wrote. OnNoRoom wrote (WhyNoRoom owed.old.round port self.old self.new owed.new)) }
    {
        if self.port.marks.may_write(owed.round, is_long) {
            return self.write(registry, token, bytes);
        }
        owed.put_off_write(port)?;
        Ok(Wrote::NotNow)
    }

    // Writes from the front of `bytes`: nothing before the hello, as private keys, which nobody may be there to take.
    #[inline(always)]
    fn write(&mut self, registry: &Registry, token: Token, bytes: &[u8]) -> io::Result<Wrote>
        requires { 0 < length bytes.now }
        ensures within { IfOk result (λ wrote. TookWithin (Ok wrote) (length bytes.now)) }
        ensures registered { IfOk result (λ wrote. OnNoRoom wrote
            (IsUnnamed self.old ⊎ IsTrue self.new.port.waits_for_room)) }
        ensures marks { self.new.port.marks ≡ self.old.port.marks }
        ensures number { self.new.number ≡ self.old.number }
    {
        if self.is_unnamed() {
            return Ok(Wrote::NotNow);
        }
        self.port.write(registry, token, bytes)
    }

    /// The child process has named itself too late: it is killed, and the world says what is missing.
    pub fn give_up(&mut self) {
        if let Some(child) = &mut self.child {
            child.hello.end();
            child.kill();
            self.port.shut();
        }
    }
}

// Hears what is missing of a hello, as far as it is there: the loop isn't told of a part, and so doesn't read on. Other
// bytes end it.
fn hear<P: OpenProcess + Drop>(
    port: &mut Port,
    child: &mut Started<P>,
    round: u64,
    inbox: &mut [u8],
)
    ensures { HasNone round port.new.marks ⊎ (33 ≤ child.new.hello.came) }
{
    let mut room = [0; HELLO];
    for _ in 0..HELLO {
        let missing = child.hello.missing();
        if missing == 0 || missing > HELLO {
            return;
        }
        match port.read(round, inbox, &mut room[..missing]) {
            Ok(Got::Bytes(count)) => {
                if !child.hello.hear(&room[..count as usize]) {
                    child.hello.end();
                    port.shut();
                }
            }
            Ok(Got::NotNow) => return,
            Ok(Got::End) | Err(_) => child.hello.end(),
        }
    }
    // No hello comes in more pieces than it has bytes.
    child.hello.end();
}
