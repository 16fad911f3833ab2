//! Laws of the user's consent over all events: each signature with a key that asks for confirmation
//! has one of its own.

ghost use Rattle.std.specs.Prelude.{◌≡◌, ◌≤◌, ℕ, List, None, Some, IsSome};
ghost use Rattle.std.specs.Option.{option_map};
ghost use Rattle.world_ports.specs.declared.Moment.{Moment};
ghost use Rattle.identity_table.specs.Identities.{HeldKey, find_number};
ghost use Rattle.agent_msg.specs.Requests.{Signing};
ghost use Rattle.agent_model.specs.Actions.{Asked, Asking, ForSignature, Granted, Over, Raising};
ghost use Rattle.agent_model.specs.Events.{Happening, Timed};
ghost use Rattle.agent_model.specs.Fates.{actions_of};
ghost use Rattle.agent_model.specs.Grants.{IsAmong};
ghost use Rattle.agent_laws.specs.Grants.{HaveOwnParts, IsPut, WasHeld, noted, pending, times_ended, times_raised, wanted};
ghost use Rattle.agent_model.specs.Runs.{run};
ghost use Rattle.agent_model.specs.State.{Settings, State, first_state};
ghost use Rattle.agent_model.specs.Step.{step};
ghost use Rattle.agent_model.specs.Time.{at_moment};

/// Over all events: each signature that is put to the helper was asked for in that very event, with
/// a key that asks for no confirmation; or the user agreed in that event to this very request of
/// this very client, of an addition that may be used by then. A confirmation is raised at most once
/// under its job, and ends at most once: after it was granted, or ended otherwise, it is never
/// granted again. What waits is what the actions so far tell.
pub fn a_signature_has_a_consent_of_its_own()
    ensures put { (settings : Settings) (events : List Timed) (moment : Moment) (event : Happening)
        (asking : Asking) (signing : Signing) → asking.purpose ≡ ForSignature signing
        → IsAmong (Asked asking) (step (run (first_state settings) events) moment event).actions
        → IsPut asking signing (pending (actions_of (first_state settings) events))
        (at_moment moment (run (first_state settings) events))
        (step (run (first_state settings) events) moment event).actions }
    ensures granted { (settings : Settings) (events : List Timed) (moment : Moment)
        (event : Happening) (job : ℕ) → IsAmong (Granted job) (step (run (first_state settings)
        events) moment event).actions
        → IsSome (pending (actions_of (first_state settings) events) job) }
    ensures over { (settings : Settings) (events : List Timed) (moment : Moment) (event : Happening)
        (job : ℕ)
        → IsAmong (Over job) (step (run (first_state settings) events) moment event).actions
        → IsSome (pending (actions_of (first_state settings) events) job) }
    ensures ended { (settings : Settings) (events : List Timed) (job : ℕ)
        → times_ended job (actions_of (first_state settings) events) ≤ 1 }
    ensures raised { (settings : Settings) (events : List Timed) (job : ℕ)
        → times_raised job (actions_of (first_state settings) events) ≤ 1 }
    ensures waits { (settings : Settings) (events : List Timed) (job : ℕ)
        → noted job (run (first_state settings) events).under_way.confirmations
        ≡ option_map wanted (pending (actions_of (first_state settings) events) job) }
{}

/// Over all events: no two identities have one number or one blob; what an addition's number finds
/// is what it found before, with as many uses as it had then, or fewer; and an addition that was
/// replaced, removed or used up, or has run out, is never found by its number again. So no consent
/// that was asked for before leads to an ask.
pub fn an_addition_that_left_is_never_used()
    ensures own { (settings : Settings) (events : List Timed)
        → HaveOwnParts (run (first_state settings) events).held.table }
    ensures found { (state : State) (events : List Timed) (number : ℕ) (key : HeldKey)
        → HaveOwnParts state.held.table → number ≤ state.held.table.last
        → find_number number (run state events).held.table.identities ≡ Some key
        → WasHeld number state.held.table.identities key }
    ensures gone { (state : State) (events : List Timed) (number : ℕ)
        → HaveOwnParts state.held.table → number ≤ state.held.table.last
        → find_number number state.held.table.identities ≡ None
        → find_number number (run state events).held.table.identities ≡ None }
    ensures given { (settings : Settings) (events : List Timed) (job : ℕ) (raising : Raising)
        → pending (actions_of (first_state settings) events) job ≡ Some raising
        → raising.addition ≤ (run (first_state settings) events).held.table.last }
{}
