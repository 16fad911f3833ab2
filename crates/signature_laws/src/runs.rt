//! What clients get of helpers that are the signer, over runs.

ghost use Rattle.std.specs.Prelude.{◌≡◌, List};
ghost use Rattle.agent_model.specs.Events.{Timed};
ghost use Rattle.agent_model.specs.State.{Settings, State, first_state};
ghost use Rattle.signature_laws.specs.Lives.{AreSigned, AreSigners, Lead, Life};

/// Over any settings and any events: where each helper is the signer, so that what an event brings of its stream goes on with
/// what it said before as the frames of its answers do, to what was put to it in its own life, each signature that comes of
/// an ask is that of its message by its key, and each refusal is of an ask for which there is no signature. A client that
/// waits for the ask is told just this, or SSH_AGENT_FAILURE as the helper was lost, and is told nothing before.
pub fn signers_sign_what_clients_ask_for()
    ensures { (settings : Settings) (events : List Timed) → AreSigners (first_state settings) events
        → AreSigned (first_state settings) events }
{}

/// From any state and any life on, any events lead to a life, and to one alone.
pub fn events_lead_to_one_life()
    ensures some { (state : State) (life : Life) (events : List Timed) → (last : Life) × Lead state life events last }
    ensures one { (state : State) (life last other : Life) (events : List Timed) → Lead state life events last
        → Lead state life events other → last ≡ other }
{}
