//! What becomes of asks and of confirmations that are over.

ghost use Rattle.std.specs.Prelude.{◌≡◌, ◌⊎◌, ◌++◌, ◌∷◌, ℕ, List, None};
ghost use Rattle.confirm_desk.specs.Confirmations.{find_job};
ghost use Rattle.agent_model.specs.Actions.{Action, Granted, Over, Proved, Proving};
ghost use Rattle.agent_model.specs.Events.{Timed};
ghost use Rattle.agent_model.specs.Fates.{actions_of};
ghost use Rattle.agent_model.specs.Grants.{IsAmong};
ghost use Rattle.agent_model.specs.Runs.{run};
ghost use Rattle.agent_model.specs.State.{Settings, first_state};
ghost use Rattle.agent_laws.specs.Proven.{IsRightAnswer};

/// Over all events: a binding is proved of a connection only directly behind the helper's answer
/// that a signature is right, and the ask that this answers was put before for that very connection
/// and that very binding.
pub fn a_proved_binding_was_asked_for()
    ensures { (settings : Settings) (events : List Timed) (before later : List Action)
        (proving : Proving)
        → actions_of (first_state settings) events ≡ before ++ Proved proving ∷ later
        → IsRightAnswer before proving }
{}

/// Over all events: a confirmation that the user agreed to, or that ended otherwise, is nowhere in
/// the agent from then on: neither what was to be signed, nor the prompt, nor what its child
/// process said or is owed.
pub fn nothing_is_left_of_a_confirmation_that_ended()
    ensures { (settings : Settings) (events : List Timed) (job : ℕ)
        → IsAmong (Granted job) (actions_of (first_state settings) events)
        ⊎ IsAmong (Over job) (actions_of (first_state settings) events)
        → find_job job (run (first_state settings) events).under_way.confirmations ≡ None }
{}
