//! Child processes that haven't named themselves.

ghost use Rattle.std.specs.Prelude.{◌≡◌, None, Some, IfSome, IsSome, OnOk, List};
ghost use Rattle.child_msg.specs.Reading.{from_child_of};
ghost use Rattle.frame_core.specs.Looks.{front_of};
ghost use Rattle.wire_text.specs.Bounds.{longest_body};
ghost use Rattle.wire_text.specs.Frames.{Whole, after_front, front, front_body};
ghost use Rattle.agent_model.specs.Children.{first_message, unnamed_heard};
ghost use Rattle.agent_model.specs.State.{Port, State, find_port};
ghost use Rattle.confirm_desk.specs.Confirmations.{find_linked};
ghost use Rattle.agent_core.specs.Bound.{AreHeldFor, IsBound};
ghost use Rattle.agent_core.specs.Parts.{IsSpared, after, stepped_of};
ghost use Rattle.agent_core.specs.Settlings.{IsNamed, named_job};
ghost use Rattle.agent_core.specs.Slots.{heard_in};

use crate::helper::hear_helper;
use crate::parts::Parts;
use crate::ports::Ports;
use crate::slot::first_body;
use child_msg::{FromChild, read_from_child};
use frame_core::{LONGEST_BODY, Look, after_front, look};
use std::alloc::AllocError;
use under_way::UnderWay;
use world_ports::{Job, JobKind};

impl Parts {
    /// A child process that hasn't named itself sent more: its first frame is to name it, or it is closed.
    pub fn hear_unnamed(&mut self, number: u64, piece: &[u8]) -> Result<(), AllocError>
        requires is_open { IsSome (find_port number self.old.state.ports) }
        requires free { find_linked number self.old.state.under_way.confirmations ≡ None }
        requires bound { IsBound self.old.state.ports self.old.state.under_way }
        requires held { AreHeldFor self.old.state.under_way.confirmations self.old.state.ports }

        ensures parts { (port : Port) → find_port number self.old.state.ports ≡ Some port → OnOk result
            (stepped_of self.new ≡ after self.old.closes (unnamed_heard port.heard piece.now number self.old.state)) }
        ensures spared { (was : State) → IsSpared was self.old → OnOk result (IsSpared was self.new) }
    {
        self.ports.push(number, piece)?;
        match first_frame(&self.ports, number) {
            Look::Whole { body } => self.take_first(number, body),
            Look::Bad { .. } => {
                self.ports.close_open(number);
                Ok(())
            }
            Look::More => Ok(()),
        }
    }

    // Takes the first frame, and what follows it where it names the child process.
    fn take_first(&mut self, number: u64, body_len: u32) -> Result<(), AllocError>
        requires is_open { IsSome (find_port number self.old.state.ports) }
        requires whole { (port : Port) → find_port number self.old.state.ports ≡ Some port
            → front longest_body port.heard ≡ Whole body_len }
        requires free { find_linked number self.old.state.under_way.confirmations ≡ None }
        requires bound { IsBound self.old.state.ports self.old.state.under_way }
        requires held { AreHeldFor self.old.state.under_way.confirmations self.old.state.ports }

        ensures parts { (port : Port) → find_port number self.old.state.ports ≡ Some port → OnOk result
            (stepped_of self.new ≡ after self.old.closes (first_message (from_child_of (front_body body_len port.heard)) number
            (after_front body_len port.heard) self.old.state)) }
        ensures spared { (was : State) → IsSpared was self.old → OnOk result (IsSpared was self.new) }
    {
        let Some(job) = job_named(
            &self.under_way,
            first_body(self.ports.heard(number), body_len),
        ) else {
            self.ports.close_open(number);
            return Ok(());
        };
        let heard = self.ports.take_heard(number);
        let rest = after_front(heard.live(), body_len);
        match job.kind {
            JobKind::Helper => {
                self.under_way.helper_named(job.number, number);
                hear_helper(&mut self.ports, &mut self.under_way, rest)
            }
            JobKind::Confirm => {
                self.under_way.confirmer_named(job.number, number);
                self.hear_confirmer(number, rest)
            }
        }
    }
}

// What stands at the front of its bytes.
fn first_frame(ports: &Ports, number: u64) -> Look
    ensures { front_of result ≡ front longest_body (heard_in (find_port number ports.now.ports)) }
{
    look(ports.heard(number), LONGEST_BODY)
}

// The started job that this body names by its ticket.
fn job_named(under_way: &UnderWay, body: &[u8]) -> Option<Job>
    ensures job { result ≡ named_job (from_child_of body.now) under_way.now }
    ensures named { IfSome result (λ job. IsNamed job under_way.now) }
{
    let Ok(FromChild::Hello { job, ticket }) = read_from_child(body) else {
        return None;
    };
    let started = under_way.find_started(job)?;
    if started.ticket == ticket {
        Some(started.job)
    } else {
        None
    }
}
