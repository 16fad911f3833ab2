//! What is told of a run brings what the run brought.

ghost use Rattle.std.specs.Prelude.{◌≡◌, ◌++◌, ℕ, List, Result, Some};
ghost use Rattle.world_ports.specs.declared.Door.{Door};
ghost use Rattle.world_ports.specs.declared.Door.TheVariants.{Clients};
ghost use Rattle.world_ports.specs.declared.Moment.{Moment};
ghost use Rattle.wire_text.specs.Wire.{IsBytes};
ghost use Rattle.agent_msg.specs.declared.fault.MsgFault.{MsgFault};
ghost use Rattle.agent_msg.specs.Requests.{ClientRequest};
ghost use Rattle.agent_model.specs.Dispatch.{Asker, serve};
ghost use Rattle.agent_model.specs.Events.{Happening, Heard, Joined, Took};
ghost use Rattle.agent_model.specs.KeyStates.{KeyState};
ghost use Rattle.agent_model.specs.State.{Port, State, UnderWay, find_port};
ghost use Rattle.agent_model.specs.Step.{handle};
ghost use Rattle.agent_model.specs.Time.{at_moment, time_passes};
ghost use Rattle.replay_laws.specs.Redacting.{IsRenaming, relocked, relocked_outcome};
ghost use Rattle.replay_laws.specs.Redacting.{relocked_state, renamed_read, served_as};
ghost use Rattle.replay_laws.specs.Replaying.{LooksAlike};
ghost use Rattle.replay_laws.specs.Telling.{AreToldAlike, BringsAlike, IsOfNoClient, IsShort, told_bytes};

/// A request to an agent that is locked with a passphrase, and the same where passphrases have
/// other names, are served alike; so does time pass.
pub fn names_of_passphrases_change_no_answer()
    ensures served { (rename : List ℕ → List ℕ) → IsRenaming rename
        → (read : Result ClientRequest MsgFault) (asker : Asker) (held : KeyState)
        (under_way : UnderWay) → serve (renamed_read rename read) asker (relocked rename held)
        under_way ≡ served_as rename (serve read asker held under_way) }
    ensures moment { (rename : List ℕ → List ℕ) (moment : Moment) (state : State)
        → time_passes moment (relocked_state rename state)
        ≡ relocked_outcome rename (time_passes moment state) }
{}

/// A state and that of the run of what is told stay alike whatever happens: as time passes, as a
/// port joins, at an event of no client, and at a client's bytes, of which those are heard that are
/// told behind those that were told before. Who looks at both sees the same.
pub fn what_is_told_brings_the_same()
    ensures moment { (rename : List ℕ → List ℕ) → IsRenaming rename
        → (moment : Moment) (one other : State) → AreToldAlike rename one other
        → AreToldAlike rename (at_moment moment one) (at_moment moment other) }
    ensures quiet { (rename : List ℕ → List ℕ) → IsRenaming rename
        → (event : Happening) (one other : State) → AreToldAlike rename one other
        → IsOfNoClient event one → IsOfNoClient event other
        → BringsAlike rename (handle event one) (handle event other) }
    ensures joined { (rename : List ℕ → List ℕ) → IsRenaming rename
        → (door : Door) (one other : State) → AreToldAlike rename one other
        → BringsAlike rename (handle (Joined door) one) (handle (Joined door) other) }
    ensures heard { (rename : List ℕ → List ℕ) → IsRenaming rename
        → (number : ℕ) (piece bytes : List ℕ) (port : Port) (one other : State)
        → AreToldAlike rename one other
        → find_port number one.ports ≡ Some port → port.door ≡ Clients
        → told_bytes rename (port.heard ++ piece) ≡ told_bytes rename port.heard ++ bytes
        → IsBytes (port.heard ++ piece) → IsShort rename (port.heard ++ piece)
        → BringsAlike rename (handle (Heard number piece) one) (handle (Heard number bytes) other) }
    ensures took { (rename : List ℕ → List ℕ) → IsRenaming rename
        → (number count : ℕ) (port : Port) (one other : State) → AreToldAlike rename one other
        → find_port number one.ports ≡ Some port → port.door ≡ Clients
        → IsBytes port.heard → IsShort rename port.heard
        → BringsAlike rename (handle (Took number count) one) (handle (Took number count) other) }
    ensures looks { (rename : List ℕ → List ℕ) → IsRenaming rename → (one other : State)
        → AreToldAlike rename one other → LooksAlike one other }
{}
