//! The marks of ports: one for each port at which something was ready since it joined.

ghost use Rattle.std.specs.Bool.{OnTrue};
ghost use Rattle.std.specs.Prelude.{◌≡◌, [], MatchResult, OnErr, OnOk};
ghost use Rattle.lists.specs.Rising.{IsRisingList};
ghost use Rattle.ready_loop.specs.Marks.{HasPort, IsGap, IsPlace};
ghost use Rattle.ready_loop.specs.Marks.{changed, mark_of, marked, no_mark, ports_of, unmarked, with_read, with_write};
ghost use Rattle.ready_loop.specs.declared.marks.Standing.TheVariants.{Neither};

use std::alloc::{AllocError, Global};
use std::marker::Model;

/// Where something stands that may be ready.
#[derive(Clone, Copy)]
pub enum Standing {
    /// It isn't ready.
    Neither,
    /// In the list.
    Listed,
    /// Set aside.
    Aside,
}

/// Where what is to be read at a port stands, and what is to be written there.
#[derive(Clone, Copy)]
pub struct Mark {
    pub port: u64,
    pub read: Standing,
    pub write: Standing,
}

/// Marks by their ports, which rise.
#[derive(Drop)]
pub struct Marks {
    marks: Vec<Mark>,
    // The place that was found last: most calls are for the port of the one before. Any number will do.
    hint: usize,
}

impl Model for Marks {
    ghost use Rattle.std.specs.Prelude.{List};
    ghost use Rattle.lists.specs.Rising.{IsRisingList};
    ghost use Rattle.ready_loop.specs.Marks.{ports_of};
    ghost use Rattle.ready_loop.specs.declared.marks.Mark.{Mark as Marked};

    ghost Value = { List Marked };

    ghost view = { λ m. m.marks.items };

    ghost invariant = { λ m. IsRisingList (ports_of m.marks.items) };
}

impl Marks {
    /// Takes no memory.
    pub fn new(alloc: Global) -> Marks
        ensures { result ≡ [] }
    {
        Marks {
            marks: Vec::new(alloc),
            hint: 0,
        }
    }

    // The ports rise.
    pub fn rise(&self)
        ensures { IsRisingList (ports_of self.now) }
    {
        let _ = &self.marks;
    }

    /// The port's mark.
    #[inline(always)]
    pub fn of(&mut self, port: u64) -> Mark
        ensures mark { result ≡ mark_of port self.old }
        ensures same { self.new ≡ self.old }
        ensures rising { IsRisingList (ports_of self.old) }
    {
        match find(&self.marks, self.hint, port) {
            Ok(place) => {
                self.hint = place;
                self.marks[place]
            }
            Err(_) => none(port),
        }
    }

    /// What is to be read at the port stands there from here on.
    #[inline(always)]
    pub fn set_read(&mut self, port: u64, standing: Standing) -> Result<(), AllocError>
        ensures set { OnOk result (self.new ≡ marked (with_read standing (mark_of port self.old)) self.old) }
        ensures err { OnErr result (self.new ≡ self.old) }
        ensures rising { IsRisingList (ports_of self.old) }
    {
        match find(&self.marks, self.hint, port) {
            Ok(place) => {
                self.hint = place;
                self.marks[place].read = standing;
            }
            Err(place) => {
                self.hint = place;
                self.marks.insert(
                    place,
                    Mark {
                        port,
                        read: standing,
                        write: Standing::Neither,
                    },
                )?;
            }
        }
        Ok(())
    }

    /// What is to be written at the port stands there from here on.
    #[inline(always)]
    pub fn set_write(&mut self, port: u64, standing: Standing) -> Result<(), AllocError>
        ensures set { OnOk result (self.new ≡ marked (with_write standing (mark_of port self.old)) self.old) }
        ensures err { OnErr result (self.new ≡ self.old) }
        ensures rising { IsRisingList (ports_of self.old) }
    {
        match find(&self.marks, self.hint, port) {
            Ok(place) => {
                self.hint = place;
                self.marks[place].write = standing;
            }
            Err(place) => {
                self.hint = place;
                self.marks.insert(
                    place,
                    Mark {
                        port,
                        read: Standing::Neither,
                        write: standing,
                    },
                )?;
            }
        }
        Ok(())
    }

    /// What is to be read at the port isn't ready any more.
    #[inline(always)]
    pub fn clear_read(&mut self, port: u64)
        ensures cleared { self.new ≡ changed (with_read Neither (mark_of port self.old)) self.old }
        ensures rising { IsRisingList (ports_of self.old) }
    {
        if let Ok(place) = find(&self.marks, self.hint, port) {
            self.hint = place;
            self.marks[place].read = Standing::Neither;
        }
    }

    /// What is to be written at the port isn't ready any more.
    #[inline(always)]
    pub fn clear_write(&mut self, port: u64)
        ensures cleared { self.new ≡ changed (with_write Neither (mark_of port self.old)) self.old }
        ensures rising { IsRisingList (ports_of self.old) }
    {
        if let Ok(place) = find(&self.marks, self.hint, port) {
            self.hint = place;
            self.marks[place].write = Standing::Neither;
        }
    }

    /// Takes the port's mark away, and tells it.
    pub fn forget(&mut self, port: u64) -> Mark
        ensures mark { result ≡ mark_of port self.old }
        ensures left { self.new ≡ unmarked port self.old }
        ensures rising { IsRisingList (ports_of self.old) }
    {
        match find(&self.marks, self.hint, port) {
            Ok(place) => self.marks.remove(place),
            Err(_) => none(port),
        }
    }
}

// The mark of a port that has none.
fn none(port: u64) -> Mark
    ensures { result ≡ no_mark port }
{
    Mark {
        port,
        read: Standing::Neither,
        write: Standing::Neither,
    }
}

// Where the port's mark stands, or else where it goes: at the hint, or elsewhere.
#[inline(always)]
fn find(marks: &[Mark], hint: usize, port: u64) -> Result<usize, usize>
    requires { IsRisingList (ports_of marks.now) }
    ensures { MatchResult result (IsPlace port marks.now) (IsGap port marks.now) }
{
    if is_at(marks, hint, port) {
        return Ok(hint);
    }
    find_from(marks, hint, port)
}

// Where the port's mark stands, or would stand: as far from the hint as its port is, or anywhere.
#[inline(never)]
fn find_from(marks: &[Mark], hint: usize, port: u64) -> Result<usize, usize>
    requires { IsRisingList (ports_of marks.now) }
    ensures { MatchResult result (IsPlace port marks.now) (IsGap port marks.now) }
{
    let place = guess(marks, hint, port);
    if is_at(marks, place, port) {
        return Ok(place);
    }
    search(marks, port)
}

// Where the port's mark stands if every port between it and that of the hint has one.
fn guess(marks: &[Mark], hint: usize, port: u64) -> usize {
    match marks.get(hint) {
        Some(mark) => hint.wrapping_add(port.wrapping_sub(mark.port) as usize),
        None => 0,
    }
}

// Whether the port's mark stands there.
#[inline(always)]
fn is_at(marks: &[Mark], place: usize, port: u64) -> bool
    ensures { OnTrue result (HasPort port marks.now place) }
{
    match marks.get(place) {
        Some(mark) => mark.port == port,
        None => false,
    }
}

// Where the port's mark stands, or else where it goes, by halving.
fn search(marks: &[Mark], port: u64) -> Result<usize, usize>
    requires { IsRisingList (ports_of marks.now) }
    ensures { MatchResult result (IsPlace port marks.now) (IsGap port marks.now) }
{
    marks.binary_search_by_key(&port, |mark| mark.port)
}
