//! What comes of the helper: its answers, and its loss.

ghost use Rattle.std.specs.Prelude.{◌≡◌, ◌≢◌, ◌⊎◌, ℕ, List, [], OnOk, None, Some, false, true};
ghost use Rattle.helper_link.specs.HelperLink.{IsLinked, askers};
ghost use Rattle.helper_link.specs.declared.ask.Ask.{Ask as AnAsk};
ghost use Rattle.agent_model.specs.Answers.{close_helper, find_verification, helper_closes, helper_heard, lose, remove_verification, tell_each};
ghost use Rattle.agent_model.specs.KeyStates.{KeyState};
ghost use Rattle.agent_model.specs.NumberLists.{put_all};
ghost use Rattle.agent_model.specs.Sound.{AreTied};
ghost use Rattle.agent_model.specs.State.{Port, State, change_port, find_port, is_linked_to};
ghost use Rattle.agent_model.specs.Verdicts.{HelperLost, Refuses, tell};
ghost use Rattle.agent_core.specs.Bound.{AreSilent, IsBound};
ghost use Rattle.agent_core.specs.Parts.{AreSpared, after, parts_of, state_of};
ghost use Rattle.agent_core.specs.Settlings.{AreProvable, AreShortAnswers, IsProvable, IsShortAnswer, answered, told_with, unanswered};
ghost use Rattle.agent_core.specs.Slots.{IsUntouched, Spares, open_of};

use crate::ports::Ports;
use helper_link::{Answer, Ask, LinkState, Settled};
use std::alloc::AllocError;
use under_way::UnderWay;

/// The helper sent more: each asker is told its answer, and at a fault of the stream the helper is lost.
pub fn hear_helper(
    ports: &mut Ports,
    under_way: &mut UnderWay,
    piece: &[u8],
) -> Result<(), AllocError>
    requires linked { IsLinked under_way.old.link.state }
    requires bound { IsBound ports.old.ports under_way.old }

    ensures parts { (wall : ℕ) (keys : KeyState) → OnOk result (parts_of wall keys under_way.new (open_of ports.new)
        ≡ after ports.old.closed (helper_heard piece.now (state_of wall keys under_way.old (open_of ports.old)))) }
    ensures spared { (was : State)
        → AreSpared was under_way.old ports.old → OnOk result (AreSpared was under_way.new ports.new) }
{
    let told = under_way.helper_told(piece)?;
    answer_all(ports, under_way, told.settled.as_slice())?;
    match told.fault {
        Some(_) => {
            lose_helper(ports, under_way);
            Ok(())
        }
        None => Ok(()),
    }
}

/// The helper is lost: its port is closed, where it came, and each client that waits for an answer of it is told. Takes
/// no memory.
pub fn lose_helper(ports: &mut Ports, under_way: &mut UnderWay)
    requires some { under_way.old.link.state ≢ LinkState.None }
    requires bound { IsBound ports.old.ports under_way.old }

    ensures parts { (wall : ℕ) (keys : KeyState) → parts_of wall keys under_way.new (open_of ports.new)
        ≡ after ports.old.closed (lose (state_of wall keys under_way.old (open_of ports.old))) }
    ensures spared { (was : State)
        → AreSpared was under_way.old ports.old → AreSpared was under_way.new ports.new }
{
    close_helper(ports, under_way.link_state());
    let failed = under_way.lose();
    refuse_all(ports, failed.as_slice());
}

// The helper's port is closed, where it came.
fn close_helper(ports: &mut Ports, state: LinkState)
    ensures ports { open_of ports.new ≡ record (open_of ports.old) {
      ports = close_helper state ports.old.ports;
      closed = put_all ports.old.closed (helper_closes state ports.old.ports);
    } }
    ensures tied { (asks : List AnAsk) → AreTied ports.old.ports asks → AreTied ports.new.ports asks }
    ensures gone { (number : ℕ) → is_linked_to number state ≡ true → find_port number ports.new.ports ≡ None }
    ensures spared { Spares ports.old ports.new }
{
    match state {
        LinkState::Linked { port } => ports.close_open(port),
        LinkState::None | LinkState::Starting { .. } => {}
    }
}

/// The helper's port is touched, where it came and an ask was put since there were so many: it is owed more. Takes no
/// memory.
pub fn touch_asked(ports: &mut Ports, under_way: &UnderWay, asks: u64)
    ensures ports { open_of ports.new ≡ open_of ports.old }
    ensures spared { Spares ports.old ports.new }
    ensures touched { (number : ℕ) (at : Port) → IsUntouched number ports.new.closed ports.new.touched
        → find_port number ports.new.ports ≡ Some at
        → (under_way.now.link.last ≡ asks) ⊎ (is_linked_to number under_way.now.link.state ≡ false) }
{
    if under_way.asks() != asks {
        touch_helper(ports, under_way.link_state());
    }
}

// The helper's port is touched, where it came.
fn touch_helper(ports: &mut Ports, state: LinkState)
    ensures ports { open_of ports.new ≡ open_of ports.old }
    ensures spared { Spares ports.old ports.new }
    ensures touched { (number : ℕ) → is_linked_to number state ≡ true
        → IsUntouched number ports.new.closed ports.new.touched → find_port number ports.new.ports ≡ None }
{
    match state {
        LinkState::Linked { port } => ports.touch(port),
        LinkState::None | LinkState::Starting { .. } => {}
    }
}

// Tells who asked that the helper is lost, in the order of the asks. Takes no memory.
fn refuse_all(ports: &mut Ports, asks: &[Ask])
    requires { AreSilent (askers asks.now) ports.old.ports }
    ensures ports { open_of ports.new ≡ record (open_of ports.old) {
      ports = tell_each (Refuses HelperLost) (askers asks.now) ports.old.ports;
    } }
    ensures spared { Spares ports.old ports.new }
{
    for ask in asks {
        refuse_one(ports, ask);
    }
}

// Tells who asked that the helper is lost.
fn refuse_one(ports: &mut Ports, ask: &Ask)
    requires { (port : Port) → find_port ask.now.asker ports.old.ports ≡ Some port → port.owed ≡ [] }
    ensures ports { open_of ports.new ≡ record (open_of ports.old) {
      ports = change_port ask.now.asker (tell (Refuses HelperLost)) ports.old.ports;
    } }
    ensures spared { Spares ports.old ports.new }
{
    ports.conclude(ask.asker, None);
}

// Tells each asker its answer, in the order of the answers.
fn answer_all(
    ports: &mut Ports,
    under_way: &mut UnderWay,
    settled: &[Settled],
) -> Result<(), AllocError>
    requires short { AreShortAnswers settled.now }
    requires provable { AreProvable settled.now under_way.old.verifications ports.old.ports }

    ensures ports { OnOk result (open_of ports.new ≡ record (open_of ports.old) {
      ports = answered settled.now under_way.old.verifications ports.old.ports;
    }) }
    ensures under_way { OnOk result (under_way.new ≡ record under_way.old {
      verifications = unanswered settled.now under_way.old.verifications;
    }) }
    ensures spared { Spares ports.old ports.new }
{
    for one in settled {
        answer_one(ports, under_way, one)?;
    }
    Ok(())
}

// Tells an asker its answer. A verified binding is added to its chain before, where it is new.
fn answer_one(ports: &mut Ports, under_way: &mut UnderWay, one: &Settled) -> Result<(), AllocError>
    requires short { IsShortAnswer one.now.answer }
    requires provable { IsProvable (find_verification one.now.ask under_way.old.verifications)
        (find_port one.now.asker ports.old.ports) }

    ensures ports { OnOk result (open_of ports.new ≡ record (open_of ports.old) {
      ports = change_port one.now.asker
          (told_with one.now.answer (find_verification one.now.ask under_way.old.verifications)) ports.old.ports;
    }) }
    ensures under_way { under_way.new ≡ record under_way.old {
      verifications = remove_verification one.now.ask under_way.old.verifications;
    } }
    ensures spared { Spares ports.old ports.new }
{
    match (&one.answer, under_way.take_verification(one.ask)) {
        (Answer::True, Some(verification)) => ports.prove(one.asker, &verification),
        (answer, _) => ports.tell(one.asker, answer),
    }
}
