//! The agent's state in storage, and what each event does to it.

ghost use Rattle.std.specs.Prelude.{◌≡◌, ℕ, IfOk, IsFalse, IsOk, IsSome, OnOk, List};
ghost use Rattle.wire_text.specs.Frames.{Whole};
ghost use Rattle.frame_core.specs.Looks.{front_of};
ghost use Rattle.agent_model.specs.Actions.{stepped};
ghost use Rattle.agent_model.specs.Answers.{lose_where};
ghost use Rattle.agent_model.specs.Children.{changed, heard_more, is_started_by};
ghost use Rattle.agent_model.specs.Looks.{due_by};
ghost use Rattle.agent_model.specs.Events.{Ended, Heard, Joined, StartFailed, Started, Took};
ghost use Rattle.agent_model.specs.Sound.{IsSteady, IsTied};
ghost use Rattle.agent_model.specs.State.{Fits, Port, State, find_port, next_due, next_owed, owed_of};
ghost use Rattle.agent_model.specs.Step.{handle, looked, step};
ghost use Rattle.agent_model.specs.Time.{at_moment};
ghost use Rattle.agent_core.specs.Bound.{IsAtRest, IsBound, StillFits, WantsNoMemory};
ghost use Rattle.agent_core.specs.Happenings.{happening};
ghost use Rattle.agent_core.specs.Owing.{next_child_owed};
ghost use Rattle.agent_core.specs.Parts.{IsSpared, after, stepped_of};

use crate::Event;
use crate::confirmer::{end_if, lose_client, lose_confirmer};
use crate::helper::{hear_helper, lose_helper, touch_asked};
use crate::keys::Keys;
use crate::ports::Ports;
use crate::role::{Role, child_owed, lesser, owed_helper_above, role_at};
use frame_core::Look;
use std::alloc::AllocError;
use std::marker::Model;
use under_way::{UnderWay, earlier};
use world_ports::{Door, JobKind, Moment};

/// The most clients that may be open at once.
const MOST_CLIENTS: usize = 128;

/// The most child processes that may be open at once and haven't named themselves.
const MOST_UNNAMED: usize = 32;

/// What is held, what is under way and the open ports, at a second of the wall clock.
#[derive(Drop)]
pub struct Parts {
    pub wall: u64,
    pub keys: Keys,
    pub under_way: UnderWay,
    pub ports: Ports,
}

impl Model for Parts {
    ghost use Rattle.agent_core.specs.Parts.{Moved, moved_of};

    ghost Value = { Moved };

    ghost view = { λ c. moved_of c.wall c.keys c.under_way c.ports };
}

impl Parts {
    /// Takes one event at a moment, where `due` is what `next_due` gives, and tells whether it may give another second
    /// from then on.
    pub fn take(
        &mut self,
        moment: Moment,
        event: &Event<'_>,
        due: Option<u64>,
    ) -> Result<bool, AllocError>
        requires fits { Fits (happening event.now) self.old.state }
        requires rest { IsAtRest self.old.state }
        requires due { due ≡ next_due self.old.state }

        ensures stepped { OnOk result
            (stepped_of self.new ≡ stepped (step self.old.state moment (happening event.now))) }
        ensures same { IfOk result (λ moved. IsFalse moved → next_due self.new.state ≡ next_due self.old.state) }
        ensures succeeds { WantsNoMemory (at_moment moment self.old.state) (happening event.now) → IsOk result }
        ensures spared { OnOk result (IsSpared self.old.state self.new) }
    {
        let passed = self.pass(moment, due);
        let moved = self.handle(event)?;
        Ok(passed || moved)
    }

    /// The first second at which something ends by itself. It is looked for where it may have moved, and was `before`
    /// otherwise.
    pub fn next_due(&self, moved: bool, before: Option<u64>) -> Option<u64>
        requires { IsFalse moved → before ≡ next_due self.now.state }
        ensures { result ≡ next_due self.now.state }
    {
        if !moved {
            return before;
        }
        earlier(self.keys.next_death(), self.under_way.next_limit())
    }

    /// What the port is owed: nothing where it isn't open.
    #[inline(always)]
    pub fn owed(&self, port: u64) -> &[u8]
        ensures { result.now ≡ owed_of port self.now.state }
    {
        match self.ports.find(port) {
            Some(slot) if slot.door == Door::Clients => slot.owed.bytes(),
            Some(slot) => child_owed(&self.under_way, slot.number),
            None => &[],
        }
    }

    /// The open port of the least number above `after` that is owed bytes.
    pub fn next_owed(&self, after: u64) -> Option<u64>
        requires { IsAtRest self.now.state }
        ensures next { result ≡ next_owed after self.now.state }
        ensures steady { IsSteady self.now.state }
    {
        let client = self.ports.next_owed(after);
        let child = self.next_child_owed(after);
        lesser(client, child)
    }

    // The open port of the least number above `after` that is a child process's and owed bytes.
    fn next_child_owed(&self, after: u64) -> Option<u64>
        requires { IsAtRest self.now.state }
        ensures next { result ≡ next_child_owed after self.now.state }
        ensures steady { IsSteady self.now.state }
    {
        let helper = owed_helper_above(&self.ports, &self.under_way, after);
        let confirmer = self.under_way.next_confirmer_owed(after);
        lesser(helper, confirmer)
    }

    // Takes one event after its moment, and tells whether what is due may have changed.
    fn handle(&mut self, event: &Event<'_>) -> Result<bool, AllocError>
        requires fits { StillFits (happening event.now) self.old.state }
        requires rest { IsAtRest self.old.state }

        ensures handled { OnOk result
            (stepped_of self.new ≡ after self.old.closes (handle (happening event.now) self.old.state)) }
        ensures same { IfOk result (λ moved. IsFalse moved → next_due self.new.state ≡ next_due self.old.state) }
        ensures succeeds { WantsNoMemory self.old.state (happening event.now) → IsOk result }
        ensures spared { (was : State) → IsSpared was self.old → OnOk result (IsSpared was self.new) }
    {
        match *event {
            Event::Joined(door) => {
                self.join(door)?;
                Ok(true)
            }
            Event::Heard { port, piece } => {
                self.hear(port, piece)?;
                Ok(true)
            }
            Event::Ended { port } => {
                self.end(port);
                Ok(true)
            }
            Event::Took { port, count } => self.send(port, count),
            Event::Started { job, ticket } => {
                self.start(job, ticket);
                Ok(true)
            }
            Event::StartFailed { job } => {
                self.fail(job);
                Ok(true)
            }
            Event::Tick => Ok(false),
        }
    }

    // A client or a child process joins.
    fn join(&mut self, door: Door) -> Result<(), AllocError>
        requires { StillFits (Joined door) self.old.state }

        ensures parts { OnOk result
            (stepped_of self.new ≡ after self.old.closes (handle (Joined door) self.old.state)) }
        ensures spared { (was : State) → IsSpared was self.old → OnOk result (IsSpared was self.new) }
    {
        let has_room = match door {
            Door::Clients => self.ports.clients() < MOST_CLIENTS,
            Door::Children => self.ports.unnamed(&self.under_way) < MOST_UNNAMED,
        };
        self.ports.join(door, has_room)
    }

    // A port sent more: nothing comes of it where its moment closed the port.
    fn hear(&mut self, port: u64, piece: &[u8]) -> Result<(), AllocError>
        requires rest { IsAtRest self.old.state }

        ensures parts { OnOk result
            (stepped_of self.new ≡ after self.old.closes (handle (Heard port piece.now) self.old.state)) }
        ensures spared { (was : State) → IsSpared was self.old → OnOk result (IsSpared was self.new) }
    {
        match role_at(&self.ports, &self.under_way, port) {
            Some(Role::Client) => self.hear_client(port, piece),
            Some(Role::Unnamed) => self.hear_unnamed(port, piece),
            Some(Role::Confirmer) => self.hear_confirmer(port, piece),
            Some(Role::Helper) => hear_helper(&mut self.ports, &mut self.under_way, piece),
            None => Ok(()),
        }
    }

    // A client sent more.
    fn hear_client(&mut self, port: u64, piece: &[u8]) -> Result<(), AllocError>
        requires is_open { IsSome (find_port port self.old.state.ports) }
        requires rest { IsAtRest self.old.state }

        ensures parts { OnOk result (stepped_of self.new ≡ after self.old.closes
            (looked port (changed port (heard_more piece.now) self.old.state))) }
        ensures spared { (was : State) → IsSpared was self.old → OnOk result (IsSpared was self.new) }
    {
        let front = self.ports.push(port, piece)?;
        self.look(port, front)?;
        Ok(())
    }

    // A port took some of what it is owed, or all: nothing comes of it where its moment closed the port. Tells whether
    // what is due may have changed.
    fn send(&mut self, port: u64, count: usize) -> Result<bool, AllocError>
        requires rest { IsAtRest self.old.state }

        ensures sent { OnOk result
            (stepped_of self.new ≡ after self.old.closes (handle (Took port count) self.old.state)) }
        ensures same { IfOk result (λ moved. IsFalse moved → next_due self.new.state ≡ next_due self.old.state) }
        ensures succeeds { WantsNoMemory self.old.state (Took port count) → IsOk result }
        ensures spared { (was : State) → IsSpared was self.old → OnOk result (IsSpared was self.new) }
    {
        match role_at(&self.ports, &self.under_way, port) {
            Some(Role::Client) => {
                let front = self.ports.drop_sent(port, count);
                self.look(port, front)
            }
            Some(Role::Helper) => {
                let count = count.min(self.under_way.owed().len());
                self.ports.touch(port);
                self.under_way.helper_took(count);
                Ok(true)
            }
            Some(Role::Confirmer) => {
                let count = count.min(self.under_way.confirmer_owed(port).len());
                self.ports.touch(port);
                self.under_way.confirmer_took(port, count);
                Ok(true)
            }
            // It is owed nothing.
            Some(Role::Unnamed) => Ok(false),
            None => Ok(false),
        }
    }

    // A port has ended: nothing comes of it where its moment closed the port.
    fn end(&mut self, port: u64)
        requires rest { IsAtRest self.old.state }

        ensures parts { stepped_of self.new ≡ after self.old.closes (handle (Ended port) self.old.state) }
        ensures spared { (was : State) → IsSpared was self.old → IsSpared was self.new }
    {
        match role_at(&self.ports, &self.under_way, port) {
            Some(Role::Client) => lose_client(&mut self.ports, &mut self.under_way, port),
            Some(Role::Unnamed) => self.ports.close(port),
            Some(Role::Helper) => lose_helper(&mut self.ports, &mut self.under_way),
            Some(Role::Confirmer) => lose_confirmer(&mut self.ports, &mut self.under_way, port),
            None => {}
        }
    }

    // A child process was started.
    fn start(&mut self, job: u64, ticket: [u8; 16])
        requires { StillFits (Started job ticket) self.old.state }

        ensures parts { stepped_of self.new ≡ after self.old.closes (handle (Started job ticket) self.old.state) }
        ensures spared { (was : State) → IsSpared was self.old → IsSpared was self.new }
    {
        self.under_way.job_started(job, ticket);
    }

    // A child process could not be started.
    fn fail(&mut self, job: u64)
        requires fits { StillFits (StartFailed job) self.old.state }
        requires rest { IsAtRest self.old.state }

        ensures parts { stepped_of self.new ≡ after self.old.closes (handle (StartFailed job) self.old.state) }
        ensures spared { (was : State) → IsSpared was self.old → IsSpared was self.new }
    {
        match self.under_way.job_failed(job) {
            JobKind::Helper => self.lose_starting(job),
            JobKind::Confirm => end_if(&mut self.ports, &mut self.under_way, job),
        }
    }

    // A helper is lost that was being started by this job.
    fn lose_starting(&mut self, job: u64)
        requires { IsBound self.old.state.ports self.old.state.under_way }

        ensures parts { stepped_of self.new ≡ after self.old.closes
            (lose_where (is_started_by job self.old.state.under_way.link.state) self.old.state) }
        ensures spared { (was : State) → IsSpared was self.old → IsSpared was self.new }
    {
        if self.under_way.is_starting(job) {
            lose_helper(&mut self.ports, &mut self.under_way);
        }
    }

    // Takes the first request of a client where it is whole, and tells whether it is; closes its port where its length
    // is bad.
    #[inline(always)] // what a client took is followed by no request most times
    fn look(&mut self, port: u64, front: Look) -> Result<bool, AllocError>
        requires tied { IsTied self.old.state }
        requires front { front_of front ≡ due_by (find_port port self.old.state.ports) }

        ensures looked { OnOk result (stepped_of self.new ≡ after self.old.closes (looked port self.old.state)) }
        ensures same { IfOk result (λ taken. IsFalse taken → next_due self.new.state ≡ next_due self.old.state) }
        ensures succeeds { ((body_len : ℕ) → due_by (find_port port self.old.state.ports) ≡ Whole body_len → ⊥)
            → IsOk result }
        ensures spared { (was : State) → IsSpared was self.old → OnOk result (IsSpared was self.new) }
    {
        match front {
            Look::Whole { body } => {
                let asks = self.under_way.asks();
                self.ports
                    .serve(&mut self.keys, &mut self.under_way, self.wall, port, body)?;
                touch_asked(&mut self.ports, &self.under_way, asks);
                Ok(true)
            }
            Look::Bad { .. } => {
                self.ports.close(port);
                Ok(false)
            }
            Look::More => Ok(false),
        }
    }
}
