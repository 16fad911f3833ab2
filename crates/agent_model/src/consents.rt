//! Laws of the user's consent: who waits for it, and where what a child process sends is cut.

ghost use Rattle.std.specs.Prelude.{◌≡◌, ◌≢◌, ◌↔◌, ◌+◌, ◌++◌, ℕ, List, Option, None, Some};
ghost use Rattle.world_ports.specs.declared.Moment.{Moment};
ghost use Rattle.confirm_desk.specs.Confirmations.{Confirmation};
ghost use Rattle.dest_rule.specs.declared.binding.Binding.{Binding};
ghost use Rattle.identity_table.specs.Identities.{HeldKey, find_number};
ghost use Rattle.agent_model.specs.Askable.{HasRoom, IsGrantable, IsRefusedAtGrant};
ghost use Rattle.agent_model.specs.Asking.{IsAsking, IsAttended};
ghost use Rattle.agent_model.specs.Consents.{grant_by, signing_of};
ghost use Rattle.agent_model.specs.Errands.{Signs, put_unless};
ghost use Rattle.agent_model.specs.Events.{Ended, Happening, Heard, Timed, Took};
ghost use Rattle.agent_model.specs.Fates.{IsTold};
ghost use Rattle.agent_model.specs.Grants.{IsAgreed};
ghost use Rattle.agent_model.specs.KeyStates.{KeyState};
ghost use Rattle.agent_model.specs.Runs.{run};
ghost use Rattle.agent_model.specs.Sound.{IsTied};
ghost use Rattle.agent_model.specs.State.{Confirmer, OnAsk, OnConfirmation, Port, Settings, State, UnderWay, find_port, first_state, role_of};
ghost use Rattle.agent_model.specs.Step.{step};
ghost use Rattle.agent_model.specs.Time.{at_moment};
ghost use Rattle.agent_model.specs.Verdicts.{Awaits, Cause, Refuses};

/// Whatever happened before: at most 16 confirmations are waited for, whoever waits for one is open
/// and owed nothing, each child process that came to ask is open, and no two of these, nor the
/// helper, share a port. A client that waits for consent has a confirmation of its own.
pub fn who_waits_for_the_user_is_open()
    ensures attended { (settings : Settings) (events : List Timed)
        → IsAttended (run (first_state settings) events) }
    ensures step { (state : State) (moment : Moment) (event : Happening) → IsTied state
        → IsAttended state → IsAttended (step state moment event).state }
    ensures waits { (state : State) (number job : ℕ) (port : Port) → IsTied state
        → find_port number state.ports ≡ Some port → port.waits ≡ OnConfirmation job
        → IsAsking number job port state.under_way.confirmations }
{}

/// Whatever happened before, and while its port stays: a client that waits for the user is owed
/// nothing and goes on waiting until its own confirmation ends, whatever others do. Where that ends
/// without consent it is told SSH_AGENT_FAILURE; at consent it waits for the ask that is put for it
/// in that event, or is told SSH_AGENT_FAILURE.
pub fn a_client_waits_for_its_own_consent()
    ensures waits { (state : State) (number job : ℕ) (port : Port) → IsTied state
        → find_port number state.ports ≡ Some port → port.waits ≡ OnConfirmation job
        → IsTold number (Awaits (OnConfirmation job)) state.ports }
    ensures agreed { (state : State) (moment : Moment) (event : Happening) (number job : ℕ)
        → IsTied state → event ≢ Ended number → ((count : ℕ) → event ≢ Took number count)
        → IsTold number (Awaits (OnConfirmation job)) state.ports
        → IsAgreed number job (step state moment event).actions (step state moment
        event).state.ports }
{}

/// Consent leads to an ask exactly where the agent is unlocked, the very addition that the client
/// asked for is held, its destination constraints permit the signature for the client's chain at
/// the wall clock of this event, fewer than 256 asks are unanswered and the numbers are not spent;
/// and it comes to nothing for a cause exactly where that cause holds.
pub fn consent_counts_exactly_where_it_may()
    ensures put { (ask : ℕ) (held : KeyState) (chain : List Binding) (confirmation : Confirmation)
        (wall : ℕ) (under_way : UnderWay)
        → ((grant_by held.lock (find_number confirmation.addition held.table.identities) chain
        confirmation wall under_way).verdict ≡ Awaits (OnAsk ask))
        ↔ ((key : HeldKey) × IsGrantable key chain confirmation.addition confirmation.message confirmation.flags wall
        held × HasRoom under_way × (ask ≡ under_way.link.last + 1)) }
    ensures message { (key : HeldKey) (held : KeyState) (chain : List Binding)
        (confirmation : Confirmation) (wall : ℕ) (under_way : UnderWay)
        → IsGrantable key chain confirmation.addition confirmation.message confirmation.flags wall held
        → HasRoom under_way → grant_by held.lock
        (find_number confirmation.addition held.table.identities) chain confirmation wall under_way
        ≡ put_unless None (Signs key (signing_of key confirmation)) confirmation.asker under_way }
    ensures refused { (cause : Cause) (held : KeyState) (chain : List Binding)
        (confirmation : Confirmation) (wall : ℕ) (under_way : UnderWay)
        → ((grant_by held.lock (find_number confirmation.addition held.table.identities) chain
        confirmation wall under_way).verdict ≡ Refuses cause)
        ↔ IsRefusedAtGrant cause chain confirmation wall held under_way }
{}
