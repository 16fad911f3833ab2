//! What an open port sends and takes, and what it is told.

ghost use Rattle.std.specs.Prelude.{◌≡◌, [], true, None, Some, IfOk, IsSome, OnOk};
ghost use Rattle.wire_text.specs.Frames.{Whole, front_body};
ghost use Rattle.frame_core.specs.Looks.{front_of};
ghost use Rattle.agent_model.specs.Answers.{prove};
ghost use Rattle.agent_model.specs.Children.{heard_more, unheard};
ghost use Rattle.agent_model.specs.Looks.{due_by};
ghost use Rattle.agent_model.specs.State.{Port, change_port, find_port};
ghost use Rattle.agent_model.specs.Step.{attempts, take_frame, took_some};
ghost use Rattle.agent_model.specs.Verdicts.{Verdict, tell};
ghost use Rattle.under_way.specs.Parts.{TellsOf};
ghost use Rattle.confirm_desk.specs.Confirmations.{find_asker};
ghost use Rattle.agent_core.specs.Served.{served_at};
ghost use Rattle.agent_core.specs.Settlings.{IsProvable, IsShortAnswer, verdict_of};
ghost use Rattle.agent_core.specs.Slots.{IsUntouched, Spares, open_of};
ghost use Rattle.lists.specs.Rising.{is_among};
ghost use Rattle.under_way.specs.Verifications.{verification_of};

use crate::keys::Keys;
use crate::places::place_near;
use crate::ports::Ports;
use crate::slot;
use frame_core::Look;
use helper_link::Answer;
use secret_buf::ScrubBuf;
use std::alloc::AllocError;
use under_way::{UnderWay, Verification};

impl Ports {
    /// A port is touched, where it is open: what it is owed stands elsewhere, and has changed. Takes no memory.
    pub fn touch(&mut self, number: u64)
        ensures ports { open_of self.new ≡ open_of self.old }
        ensures spared { Spares self.old self.new }
        ensures touched { IsUntouched number self.new.closed self.new.touched
            → find_port number self.new.ports ≡ None }
    {
        match place_near(&self.slots, self.near, number) {
            Some(_) => lists::put_in(&mut self.touched, number),
            None => {}
        }
    }

    /// Appends the piece to what was heard of an open port, and tells what is to be taken of it then.
    pub fn push(&mut self, number: u64, piece: &[u8]) -> Result<Look, AllocError>
        requires { IsSome (find_port number self.old.ports) }

        ensures ports { OnOk result (open_of self.new ≡ record (open_of self.old) {
          ports = change_port number (heard_more piece.now) self.old.ports;
        }) }
        ensures front { IfOk result (λ look. front_of look ≡ due_by (find_port number self.new.ports)) }
        ensures spared { Spares self.old self.new }
    {
        let Some(place) = place_near(&self.slots, self.near, number) else {
            unreachable!()
        };
        lists::put_in(&mut self.touched, number);
        self.near = place;
        slot::push(&mut self.slots[place], piece)
    }

    /// Takes out what was heard of an open port.
    pub fn take_heard(&mut self, number: u64) -> ScrubBuf
        requires { IsSome (find_port number self.old.ports) }

        ensures ports { open_of self.new ≡ record (open_of self.old) { ports = change_port number unheard self.old.ports } }
        ensures heard { (port : Port) → find_port number self.old.ports ≡ Some port → result.live ≡ port.heard }
        ensures spared { Spares self.old self.new }
        ensures touched { is_among number self.new.touched ≡ true }
    {
        let Some(place) = place_near(&self.slots, self.near, number) else {
            unreachable!()
        };
        lists::put_in(&mut self.touched, number);
        slot::take_heard(&mut self.slots[place])
    }

    /// Drops the first `count` bytes that an open port is owed, all where it is owed fewer, and tells what is to be
    /// taken of it then.
    pub fn drop_sent(&mut self, number: u64, count: usize) -> Look
        requires { IsSome (find_port number self.old.ports) }

        ensures ports { open_of self.new ≡ record (open_of self.old) {
          ports = change_port number (took_some count) self.old.ports;
        } }
        ensures front { front_of result ≡ due_by (find_port number self.new.ports) }
        ensures spared { Spares self.old self.new }
    {
        let Some(place) = place_near(&self.slots, self.near, number) else {
            unreachable!()
        };
        lists::put_in(&mut self.touched, number);
        self.near = place;
        slot::drop_sent(&mut self.slots[place], count)
    }

    /// Takes the request with a body of this length, and owes its reply or lets the client wait.
    pub fn serve(
        &mut self,
        keys: &mut Keys,
        under_way: &mut UnderWay,
        wall: u64,
        number: u64,
        body_len: u32,
    ) -> Result<(), AllocError>
        requires due { due_by (find_port number self.old.ports) ≡ Whole body_len }
        requires alone { find_asker number under_way.old.confirmations ≡ None }

        ensures ports { (port : Port) → find_port number self.old.ports ≡ Some port
            → OnOk result (open_of self.new ≡ record (open_of self.old) {
              ports = change_port number (λ p. tell
                  (served_at body_len wall port keys.old under_way.old).work.verdict
                  (take_frame body_len (attempts keys.old.lock (front_body body_len port.heard)) p)) self.old.ports;
            }) }
        ensures keys { (port : Port) → find_port number self.old.ports ≡ Some port
            → OnOk result (keys.new ≡ (served_at body_len wall port keys.old under_way.old).held) }
        ensures under_way { (port : Port) → find_port number self.old.ports ≡ Some port
            → OnOk result (under_way.new ≡ (served_at body_len wall port keys.old under_way.old).work.under_way) }
        ensures spared { Spares self.old self.new }
    {
        let Some(place) = place_near(&self.slots, self.near, number) else {
            unreachable!()
        };
        lists::put_in(&mut self.touched, number);
        slot::serve(&mut self.slots[place], keys, under_way, wall, body_len)
    }

    /// Binds an asker's connection as it was verified, and tells the asker so: nobody's, where it has left.
    pub fn prove(&mut self, number: u64, verification: &Verification) -> Result<(), AllocError>
        requires { IsProvable (Some (verification_of verification.now)) (find_port number self.old.ports) }

        ensures ports { OnOk result (open_of self.new ≡ record (open_of self.old) {
          ports = change_port number (prove (verification_of verification.now)) self.old.ports;
        }) }
        ensures spared { Spares self.old self.new }
    {
        match place_near(&self.slots, self.near, number) {
            Some(place) => {
                lists::put_in(&mut self.touched, number);
                slot::prove(&mut self.slots[place], verification)
            }
            None => Ok(()),
        }
    }

    /// Tells an asker what the helper answered, where that binds nothing: nobody, where it has left.
    pub fn tell(&mut self, number: u64, answer: &Answer) -> Result<(), AllocError>
        requires { IsShortAnswer answer.now }

        ensures ports { OnOk result (open_of self.new ≡ record (open_of self.old) {
          ports = change_port number (tell (verdict_of answer.now)) self.old.ports;
        }) }
        ensures spared { Spares self.old self.new }
    {
        match place_near(&self.slots, self.near, number) {
            Some(place) => {
                lists::put_in(&mut self.touched, number);
                slot::tell(&mut self.slots[place], answer)
            }
            None => Ok(()),
        }
    }

    /// Lets an asker wait for an ask, or tells it that there is none any more: nobody, where it has left. Takes no
    /// memory.
    pub fn conclude(&mut self, number: u64, asked: Option<u64>)
        requires { (port : Port) → find_port number self.old.ports ≡ Some port → port.owed ≡ [] }

        ensures ports { (verdict : Verdict) → TellsOf verdict asked → open_of self.new ≡ record (open_of self.old) {
          ports = change_port number (tell verdict) self.old.ports;
        } }
        ensures spared { Spares self.old self.new }
    {
        match place_near(&self.slots, self.near, number) {
            Some(place) => {
                lists::put_in(&mut self.touched, number);
                slot::conclude(&mut self.slots[place], asked)
            }
            None => {}
        }
    }
}
