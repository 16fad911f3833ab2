//! Laws of what the helper is asked: who is told what it answers, how often, and which signatures
//! are put to it.

ghost use Rattle.std.specs.Prelude.{◌≡◌, ◌≢◌, ◌↔◌, ◌+◌, ◌++◌, ◌≤◌, ℕ, List, [], Option, None, Ok, Some, false, true};
ghost use Rattle.helper_link.specs.Settling.{find_ask};
ghost use Rattle.helper_link.specs.Telling.{telling};
ghost use Rattle.helper_link.specs.declared.state.LinkState.TheVariants as states;
ghost use Rattle.world_ports.specs.declared.Door.TheVariants.{Children};
ghost use Rattle.agent_msg.specs.Requests.{Sign, Signing};
ghost use Rattle.agent_model.specs.Askable.{HasConfirmationRoom, HasRoom, IsRefusedFor, IsUsable};
ghost use Rattle.agent_model.specs.Dispatch.{Asker, host_for, serve};
ghost use Rattle.agent_model.specs.Errands.{Signs, put_unless, raise_unless};
ghost use Rattle.agent_model.specs.Events.{Ended, Happening, Heard, Timed, Took};
ghost use Rattle.agent_model.specs.Fates.{Fails, IsTold, NoneEnds, Unanswered, actions_of, fate_of, fate_verdict, fault_fate, or_later, settled_fate, times_answered, times_asked};
ghost use Rattle.agent_model.specs.KeyStates.{KeyState};
ghost use Rattle.agent_model.specs.Runs.{run};
ghost use Rattle.agent_model.specs.Sound.{IsSound, IsTied};
ghost use Rattle.agent_model.specs.State.{OnAsk, OnConfirmation, Port, Settings, State, UnderWay, find_port, first_state};
ghost use Rattle.agent_model.specs.Step.{step};
ghost use Rattle.agent_model.specs.Time.{at_moment};
ghost use Rattle.agent_model.specs.Verdicts.{Awaits, Cause, Refuses};
ghost use Rattle.world_ports.specs.declared.Moment.{Moment};

/// Whatever happened before, and while its port stays: a client that waits for an ask is owed
/// nothing, and goes on waiting until the first answer of the helper to that ask, of which it is
/// told as the helper gave it, or until the helper is lost, of which it is told SSH_AGENT_FAILURE.
/// The first answer is the first one in the helper's stream, while the helper isn't late. Whoever
/// is owed nothing takes nothing, so that no event says that it did.
pub fn a_client_gets_its_own_answer()
    ensures tied { (settings : Settings) (events : List Timed)
        → IsTied (run (first_state settings) events) }
    ensures waits { (state : State) (number ask : ℕ) (port : Port) → IsTied state
        → find_port number state.ports ≡ Some port → port.waits ≡ OnAsk ask
        → IsTold number (Awaits (OnAsk ask)) state.ports }
    ensures until { (state : State) (events : List Timed) (number ask : ℕ) → IsTied state
        → NoneEnds number events → fate_of ask (actions_of state events) ≡ Unanswered
        → IsTold number (Awaits (OnAsk ask)) state.ports
        → IsTold number (Awaits (OnAsk ask)) (run state events).ports }
    ensures told { (state : State) (moment : Moment) (event : Happening) (number ask : ℕ)
        → IsTied state → event ≢ Ended number → ((count : ℕ) → event ≢ Took number count)
        → IsTold number (Awaits (OnAsk ask)) state.ports
        → IsTold number (fate_verdict (fate_of ask (step state moment event).actions) ask)
        (step state moment event).state.ports }
    ensures stream { (ask number : ℕ) (piece : List ℕ) (port : Port) (state : State)
        (moment : Moment) → find_port number (at_moment moment state).ports ≡ Some port
        → port.door ≡ Children
        → (at_moment moment state).under_way.link.state ≡ states.Linked number
        → fate_of ask (step state moment (Heard number piece)).actions
        ≡ or_later (settled_fate ask (telling piece state.under_way.link).settled) (fault_fate
        (telling piece state.under_way.link).fault) }
{}

/// However many events there are, an ask is answered at most once, and its number is given at most
/// once; and once a helper is lost no ask that was put before is answered, whatever comes later.
pub fn an_ask_is_answered_at_most_once()
    ensures answered { (settings : Settings) (events : List Timed) (ask : ℕ)
        → times_answered ask (actions_of (first_state settings) events) ≤ 1 }
    ensures asked { (settings : Settings) (events : List Timed) (ask : ℕ)
        → times_asked ask (actions_of (first_state settings) events) ≤ 1 }
    ensures settled { (state : State) (events : List Timed) (ask : ℕ) → IsTied state
        → ask ≤ state.under_way.link.last → find_ask ask state.under_way.link.asks ≡ None
        → times_answered ask (actions_of state events) ≡ 0 }
    ensures lost { (state : State) (moment : Moment) (event : Happening) (ask number : ℕ)
        → IsTied state → fate_of ask (step state moment event).actions ≡ Fails
        → number ≤ state.under_way.link.last
        → find_ask number (step state moment event).state.under_way.link.asks ≡ None }
{}

/// A request for a signature is put to the helper exactly where the agent is unlocked, the key is
/// held and asks for no confirmation, its destination constraints permit the signature for the
/// asker's chain at the wall clock of this event, fewer than 256 asks are unanswered and the
/// numbers are not spent. The user is asked exactly where the same holds of a key that asks for
/// confirmation, fewer than 16 confirmations are waited for and the jobs are not spent. And it is
/// refused for a cause exactly where that cause holds.
pub fn a_signature_is_asked_for_exactly_where_it_may_be()
    ensures put { (ask : ℕ) (signing : Signing) (asker : Asker) (held : KeyState)
        (under_way : UnderWay) → ((serve (Ok (Sign signing)) asker held under_way).work.verdict
        ≡ Awaits (OnAsk ask)) ↔ (IsUsable signing false asker held × HasRoom under_way × (ask
        ≡ under_way.link.last + 1)) }
    ensures message { (signing : Signing) (asker : Asker) (held : KeyState) (under_way : UnderWay)
        (usable : IsUsable signing false asker held) → HasRoom under_way
        → (serve (Ok (Sign signing)) asker held under_way).work
        ≡ put_unless None (Signs usable.permitted.key signing) asker.port under_way }
    ensures raised { (job : ℕ) (signing : Signing) (asker : Asker) (held : KeyState)
        (under_way : UnderWay) → ((serve (Ok (Sign signing)) asker held under_way).work.verdict
        ≡ Awaits (OnConfirmation job)) ↔ (IsUsable signing true asker held
        × HasConfirmationRoom under_way × (job ≡ under_way.last_job + 1)) }
    ensures question { (signing : Signing) (asker : Asker) (held : KeyState) (under_way : UnderWay)
        (usable : IsUsable signing true asker held) → HasConfirmationRoom under_way
        → (serve (Ok (Sign signing)) asker held under_way).work
        ≡ raise_unless None usable.permitted.key (host_for asker usable.permitted.key signing) signing
        asker.port under_way }
    ensures refused { (cause : Cause) (signing : Signing) (asker : Asker) (held : KeyState)
        (under_way : UnderWay) → ((serve (Ok (Sign signing)) asker held under_way).work.verdict
        ≡ Refuses cause) ↔ IsRefusedFor cause signing asker held under_way }
{}
