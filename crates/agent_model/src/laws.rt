//! Laws of the abstract agent.

ghost use Rattle.std.specs.Prelude.{◌≡◌, ◌≢◌, ℕ, ◌+◌, ◌++◌, Some, false, ◌^◌, ◌<◌, ◌≤◌, List, [], Option, None};
ghost use Rattle.helper_link.specs.declared.state.LinkState.TheVariants as states;
ghost use Rattle.helper_link.specs.declared.answer.Answer.TheVariants as answers;
ghost use Rattle.helper_link.specs.declared.answer.Settled.{Settled};
ghost use Rattle.agent_msg.specs.Replies.{sign_response};
ghost use Rattle.agent_model.specs.Answers.{Answering, answer_all, answer_by, askers_of, lose, tell_each};
ghost use Rattle.lists.specs.Rising.{is_among};
ghost use Rattle.agent_model.specs.Closings.{closed_between};
ghost use Rattle.agent_model.specs.Errands.{Errand, put_unless};
ghost use Rattle.agent_model.specs.Events.{Ended, Happening, Heard, Timed};
ghost use Rattle.agent_model.specs.Runs.{AllFit, run};
ghost use Rattle.agent_model.specs.Pieces.{Agree, MayBeCut};
ghost use Rattle.agent_model.specs.Sound.{IsRising, IsSound};
ghost use Rattle.agent_model.specs.State.{Nothing, OnAsk, Port, Settings, State, UnderWay, find_port, first_state};
ghost use Rattle.agent_model.specs.Step.{handle, step};
ghost use Rattle.agent_model.specs.Time.{GiveTime, at_moment};
ghost use Rattle.agent_model.specs.Verdicts.{Awaits, Cause, HelperLost, Refuses, Replies, Reply, verdict_text};
ghost use Rattle.agent_msg.specs.Replies.{failure};
ghost use Rattle.world_ports.specs.declared.Moment.{Moment};

/// A moment that was taken in is not taken in again.
pub fn a_moment_is_taken_in_once()
    ensures { (state : State) (moment : Moment)
        → at_moment moment (at_moment moment state) ≡ at_moment moment state }
{}

/// Where bytes are cut does not matter, whoever sends them: a client, the helper or a child process
/// that asks the user, faulty bytes included, where each limit that is set gives a second at least.
/// A piece in two parts leads to the state of the whole piece, and the same is done and put to the
/// helper. The sender is who is at the port as the moment leaves it; an identity that was added
/// with no lifetime left leaves as the next event begins, so that the states are compared as one
/// begins.
pub fn a_piece_in_two_parts()
    ensures { (state : State) (moment : Moment) (port : ℕ) (a b : List ℕ)
        → GiveTime state.under_way.limits
        → MayBeCut (find_port port (at_moment moment state).ports) (at_moment moment state)
        → Agree moment (step state moment (Heard port (a ++ b))) (step state moment (Heard port a))
        (step (step state moment (Heard port a)).state moment (Heard port b)) }
{}

/// The ports that an event closed are those that were open or joined and aren't open after, rising.
pub fn what_was_open_and_is_not_was_closed()
    ensures { (state : State) (moment : Moment) (event : Happening)
        → IsRising 0 state.last_port state.ports
        → (step state moment event).closes
        ≡ closed_between state (step state moment event).state }
{}

/// Whatever happens, the numbers of the ports rise, so that they differ, none is above that of the
/// last port that joined, and no more than 128 clients are open.
pub fn ports_rise_and_are_few()
    ensures sound { (settings : Settings) (events : List Timed)
        → IsSound (run (first_state settings) events) }
    ensures step { (state : State) (moment : Moment) (event : Happening) → IsSound state
        → IsSound (step state moment event).state }
    ensures fits { (settings : Settings) (events : List Timed)
        → AllFit (first_state settings) events
        → (run (first_state settings) events).last_port < 2 ^ 64 }
{}

/// The number of a port that was closed, or never let in, is not used again.
pub fn no_number_is_used_again()
    ensures last { (state : State) (events : List Timed)
        → state.last_port ≤ (run state events).last_port }
    ensures closed { (state : State) (events : List Timed) (number : ℕ) → number ≤ state.last_port
        → find_port number state.ports ≡ None
        → find_port number (run state events).ports ≡ None }
{}

/// A client is told SSH_AGENT_FAILURE exactly where there is a cause.
pub fn a_failure_has_a_cause()
    ensures cause { (cause : Cause) → verdict_text (Refuses cause) ≡ failure }
    ensures reply { (reply : Reply) → verdict_text (Replies reply) ≢ failure }
{}

/// The numbers of jobs and of asks never begin again: each one that is given is the next behind the
/// last, and no event makes the last one fall, the loss of the helper included.
pub fn no_number_is_given_twice()
    ensures jobs { (state : State) (events : List Timed)
        → state.under_way.last_job ≤ (run state events).under_way.last_job }
    ensures asks { (state : State) (events : List Timed)
        → state.under_way.link.last ≤ (run state events).under_way.link.last }
    ensures next { (errand : Errand) (asker : ℕ) (under_way : UnderWay)
        → (put_unless None errand asker under_way).verdict
        ≡ Awaits (OnAsk (under_way.link.last + 1)) }
    ensures last { (errand : Errand) (asker : ℕ) (under_way : UnderWay)
        → (put_unless None errand asker under_way).under_way.link.last ≡ under_way.link.last + 1 }
{}

/// Once the helper is lost nothing is unanswered, to be sent to it or heard of it, and its port
/// isn't open any more, so that none of its bytes can answer anything.
pub fn a_lost_helper_answers_nothing()
    ensures unanswered { (state : State) → (lose state).state.under_way.link.asks ≡ [] }
    ensures unsent { (state : State) → (lose state).state.under_way.link.owed ≡ [] }
    ensures unheard { (state : State) → (lose state).state.under_way.link.heard ≡ [] }
    ensures closed { (state : State) (port : ℕ) → IsRising 0 state.last_port state.ports
        → state.under_way.link.state ≡ states.Linked port
        → find_port port (lose state).state.ports ≡ None }
    ensures numbers_stay { (state : State)
        → (lose state).state.under_way.link.last ≡ state.under_way.link.last }
{}

/// An event at a port that isn't open brings nothing.
pub fn a_closed_port_brings_nothing()
    ensures heard { (state : State) (port : ℕ) (piece : List ℕ) → find_port port state.ports ≡ None
        → (handle (Heard port piece) state).state ≡ state }
    ensures ended { (state : State) (port : ℕ) → find_port port state.ports ≡ None
        → (handle (Ended port) state).state ≡ state }
{}

/// An answer goes to the client that asked and to nobody else: it is owed SSH_AGENT_SIGN_RESPONSE
/// with the helper's bytes, or SSH_AGENT_FAILURE, and waits for nothing more, so that no ask is
/// answered twice. Where the helper is lost, only those that wait for it are told.
pub fn answers_go_to_who_asked()
    ensures others { (settled : List Settled) (before : Answering) (number : ℕ)
        → is_among number (askers_of settled) ≡ false
        → find_port number (answer_all settled before).ports ≡ find_port number before.ports }
    ensures signed { (one : Settled) (signature : List ℕ) (before : Answering) (port : Port)
        → find_port one.asker before.ports ≡ Some port
        → find_port one.asker (answer_by (answers.Signed signature) one before).ports
        ≡ Some (record port { owed = port.owed ++ sign_response signature; waits = Nothing }) }
    ensures refused { (one : Settled) (before : Answering) (port : Port)
        → find_port one.asker before.ports ≡ Some port
        → find_port one.asker (answer_by answers.Refused one before).ports
        ≡ Some (record port { owed = port.owed ++ failure; waits = Nothing }) }
    ensures lost { (askers : List ℕ) (ports : List Port) (number : ℕ) → is_among number askers
        ≡ false → find_port number (tell_each (Refuses HelperLost) askers ports)
        ≡ find_port number ports }
{}
