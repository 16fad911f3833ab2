//! Where each thing that is ready stands: in the list, or aside under its door or port.

ghost use Rattle.std.specs.Prelude.{◌≡◌, ◌||◌, List, OnErr, OnOk, filter, map, not};
ghost use Rattle.lists.specs.Rising.{IsRisingList};
ghost use Rattle.loop_model.specs.Aside.{things_aside};
ghost use Rattle.loop_model.specs.Things.{same_door, set_of};
ghost use Rattle.loop_model.specs.declared.thing.Thing.TheVariants.{Accept, Read, Write};
ghost use Rattle.ready_loop.specs.Marks.{forgotten, is_aside, is_listed, none_standing, standings_of, stood};
ghost use Rattle.ready_loop.specs.declared.marks.Mark.{Mark};
ghost use Rattle.ready_loop.specs.declared.marks.Standing.TheVariants.{Neither};

use crate::marks::{Marks, Standing};
use crate::things::is_same_door;
use loop_model::Thing;
use std::alloc::{AllocError, Global};
use std::marker::Model;
use world_ports::Door;

/// Where things stand. Each is found by its port, so that nobody looks at the others.
#[derive(Drop)]
pub struct Standings {
    listed: Vec<Door>,
    aside: Vec<Door>,
    marks: Marks,
}

impl Model for Standings {
    ghost use Rattle.ready_loop.specs.Marks.{Standings as Stands, standings_of};

    ghost Value = { Stands };

    ghost view = { λ s. standings_of s.listed.items s.aside.items s.marks };
}

impl Standings {
    /// Takes no memory.
    pub fn new(alloc: Global) -> Standings
        ensures { result ≡ none_standing }
    {
        Standings {
            listed: Vec::new(alloc),
            aside: Vec::new(alloc),
            marks: Marks::new(alloc),
        }
    }

    // The numbers of the ports rise that are set aside, to be read and to be written to.
    pub fn aside_rises(&self)
        ensures reads { IsRisingList self.now.aside.reads }
        ensures writes { IsRisingList self.now.aside.writes }
    {
        self.marks.rise();
    }

    /// Whether the thing is ready.
    #[inline(always)]
    pub fn has(&mut self, thing: Thing) -> bool
        ensures there { result
            ≡ (set_of (things_aside self.old.listed) thing || set_of (things_aside self.old.aside) thing) }
        ensures same { self.new ≡ self.old }
    {
        match thing {
            Thing::Accept(door) => has_either(&self.listed, &self.aside, door),
            Thing::Read(port) => is_ready(self.marks.of(port).read),
            Thing::Write(port) => is_ready(self.marks.of(port).write),
        }
    }

    /// Whether the thing is set aside.
    #[inline(always)]
    pub fn is_aside(&mut self, thing: Thing) -> bool
        ensures there { result ≡ set_of (things_aside self.old.aside) thing }
        ensures same { self.new ≡ self.old }
    {
        match thing {
            Thing::Accept(door) => has_door(&self.aside, door),
            Thing::Read(port) => is_aside(self.marks.of(port).read),
            Thing::Write(port) => is_aside(self.marks.of(port).write),
        }
    }

    /// The thing stands there from here on.
    #[inline(always)]
    pub fn set(&mut self, thing: Thing, standing: Standing) -> Result<(), AllocError>
        ensures set { OnOk result (self.new ≡ stood thing standing self.old) }
        ensures err { OnErr result (self.new ≡ self.old) }
    {
        match thing {
            Thing::Accept(door) => set_door(&mut self.listed, &mut self.aside, door, standing)?,
            Thing::Read(port) => self.marks.set_read(port, standing)?,
            Thing::Write(port) => self.marks.set_write(port, standing)?,
        }
        Ok(())
    }

    /// The thing isn't ready any more. Takes no memory.
    #[inline(always)]
    pub fn clear(&mut self, thing: Thing)
        ensures { self.new ≡ stood thing Neither self.old }
    {
        match thing {
            Thing::Accept(door) => {
                drop_door(&mut self.listed, door);
                drop_door(&mut self.aside, door);
            }
            Thing::Read(port) => self.marks.clear_read(port),
            Thing::Write(port) => self.marks.clear_write(port),
        }
    }

    /// The port was closed: nothing is ready there any more. Tells what was in the list, of what is to be read and of
    /// what is to be written.
    pub fn forget(&mut self, port: u64) -> (bool, bool)
        ensures read { result.0 ≡ set_of (things_aside self.old.listed) (Read port) }
        ensures write { result.1 ≡ set_of (things_aside self.old.listed) (Write port) }
        ensures left { self.new ≡ forgotten port self.old }
    {
        let mark = self.marks.forget(port);
        (is_listed(mark.read), is_listed(mark.write))
    }
}

fn is_listed(standing: Standing) -> bool
    ensures { result ≡ is_listed standing }
{
    matches!(standing, Standing::Listed)
}

fn is_aside(standing: Standing) -> bool
    ensures { result ≡ is_aside standing }
{
    matches!(standing, Standing::Aside)
}

fn is_ready(standing: Standing) -> bool
    ensures { result ≡ (is_listed standing || is_aside standing) }
{
    !matches!(standing, Standing::Neither)
}

// Whether the listener is among these.
fn has_door(doors: &[Door], door: Door) -> bool
    ensures { result ≡ set_of (map Accept doors.now) (Accept door) }
{
    'doors: for other in doors {
        if is_same_door(*other, door) {
            return true;
        }
    }
    false
}

// Whether the listener is among either.
fn has_either(listed: &[Door], aside: &[Door], door: Door) -> bool
    ensures { result
        ≡ (set_of (map Accept listed.now) (Accept door) || set_of (map Accept aside.now) (Accept door)) }
{
    has_door(listed, door) || has_door(aside, door)
}

// Takes the listener out.
fn drop_door(doors: &mut Vec<Door>, door: Door)
    ensures { doors.new.items ≡ filter (λ other. not (same_door door other)) doors.old.items }
{
    doors.retain(|other| !is_same_door(door, *other));
}

// The listener stands there from here on.
fn set_door(
    listed: &mut Vec<Door>,
    aside: &mut Vec<Door>,
    door: Door,
    standing: Standing,
) -> Result<(), AllocError>
    ensures set { OnOk result ((marks : List Mark) → standings_of listed.new.items aside.new.items marks
        ≡ stood (Accept door) standing (standings_of listed.old.items aside.old.items marks)) }
    ensures listed { OnErr result (listed.new.items ≡ listed.old.items) }
    ensures aside { OnErr result (aside.new.items ≡ aside.old.items) }
{
    match standing {
        Standing::Neither => {
            drop_door(listed, door);
            drop_door(aside, door);
        }
        Standing::Listed => {
            listed.push(door)?;
            drop_door(aside, door);
        }
        Standing::Aside => {
            aside.push(door)?;
            drop_door(listed, door);
        }
    }
    Ok(())
}
