//! Laws of bindings: which connections are bound to which hosts, and which requests to bind are put
//! to the helper.

ghost use Rattle.std.specs.Prelude.{◌≡◌, ◌≢◌, ◌↔◌, ◌+◌, ◌++◌, ◌≤◌, ℕ, List, [], ◌∷◌, false, length, Option, None, Ok, Err, Some, IsOk, All};
ghost use Rattle.world_ports.specs.declared.Door.TheVariants.{Clients};
ghost use Rattle.world_ports.specs.declared.Moment.{Moment};
ghost use Rattle.key_blob.specs.PublicKeys.{KeyParts, public_key_of};
ghost use Rattle.key_blob.specs.declared.fault.KeyFault.{KeyFault};
ghost use Rattle.agent_msg.specs.Faults.{key_fault};
ghost use Rattle.agent_msg.specs.Reading.{request_of};
ghost use Rattle.agent_msg.specs.Replies.{failure, success};
ghost use Rattle.agent_msg.specs.Requests.{Add, Addition, Bind, BindRequest, ClientRequest};
ghost use Rattle.dest_rule.specs.Rules.{visible};
ghost use Rattle.identity_table.specs.Identities.{HeldKey, find_identity};
ghost use Rattle.wire_text.specs.Frames.{Whole, front_body};
ghost use Rattle.helper_link.specs.declared.answer.Answer.{Answer};
ghost use Rattle.helper_link.specs.declared.answer.Answer.TheVariants as answers;
ghost use Rattle.helper_link.specs.declared.answer.Settled.{Settled};
ghost use Rattle.agent_model.specs.Answers.{Answering, answer_by, chain_with, find_verification};
ghost use Rattle.agent_model.specs.Askable.{HasRoom};
ghost use Rattle.agent_model.specs.Bindable.{IsBindRefusedFor, IsBindable};
ghost use Rattle.agent_model.specs.Bindings.{bound_after, chain_at};
ghost use Rattle.agent_model.specs.Binds.{agent_request_of};
ghost use Rattle.agent_model.specs.Dispatch.{Asker, sees, serve, with_identities};
ghost use Rattle.agent_model.specs.Children.{heard_more};
ghost use Rattle.agent_model.specs.Looks.{due};
ghost use Rattle.agent_model.specs.Unseen.{IsSameFor, IsSameReply, holding};
ghost use Rattle.agent_model.specs.Errands.{Verifies, put_unless};
ghost use Rattle.agent_model.specs.Events.{Happening, Heard, Timed, Took};
ghost use Rattle.agent_model.specs.Fates.{actions_of};
ghost use Rattle.agent_model.specs.KeyStates.{KeyState};
ghost use Rattle.agent_model.specs.Runs.{run};
ghost use Rattle.agent_model.specs.Sound.{AreApart, IsJudged, IsTied};
ghost use Rattle.agent_model.specs.State.{Nothing, OnAsk, Port, Settings, State, UnderWay, Verification, find_port, first_state};
ghost use Rattle.agent_model.specs.Step.{step, took_some};
ghost use Rattle.agent_model.specs.Time.{at_moment};
ghost use Rattle.agent_model.specs.Verdicts.{Awaits, Cause, Malformed, Refuses};

/// Whatever happened before, a connection is bound to exactly those hosts whose signatures the
/// helper found right for it, in that order, each session once, and to no more than 16 of them.
/// Nothing that a client sends binds a connection, its own or another one.
pub fn bindings_are_those_that_were_proved()
    ensures proved { (settings : Settings) (events : List Timed) (number : ℕ) (port : Port)
        → find_port number (run (first_state settings) events).ports ≡ Some port
        → port.chain ≡ bound_after number (actions_of (first_state settings) events) [] }
    ensures since { (state : State) (events : List Timed) (number : ℕ) (port : Port) → IsTied state
        → IsJudged state → find_port number (run state events).ports ≡ Some port
        → port.chain ≡ bound_after number (actions_of state events) (chain_at number state.ports) }
    ensures apart { (settings : Settings) (events : List Timed) (number : ℕ) (port : Port)
        → find_port number (run (first_state settings) events).ports ≡ Some port
        → AreApart port.chain }
    ensures few { (settings : Settings) (events : List Timed) (number : ℕ) (port : Port)
        → find_port number (run (first_state settings) events).ports ≡ Some port
        → length port.chain ≤ 16 }
    ensures read { (settings : Settings) (events : List Timed) (number : ℕ) (port : Port)
        → find_port number (run (first_state settings) events).ports ≡ Some port
        → All (λ binding. IsOk (public_key_of binding.host_key)) port.chain }
    ensures sent { (state : State) (moment : Moment) (at : ℕ) (piece : List ℕ) (client : Port)
        (number : ℕ) (port : Port) → IsTied state → IsJudged state → find_port at state.ports
        ≡ Some client → client.door ≡ Clients
        → find_port number (step state moment (Heard at piece)).state.ports ≡ Some port
        → port.chain ≡ chain_at number state.ports }
{}

/// A binding is added to its asker's connection where the helper finds its signature right, and
/// where it was new; at any other answer no connection is bound. Whatever happened between, what
/// was judged of the binding as it was put stands yet.
pub fn a_binding_is_added_where_it_is_right()
    ensures right { (one : Settled) (before : Answering) (verification : Verification) (port : Port)
        → find_verification one.ask before.verifications ≡ Some verification
        → find_port one.asker before.ports ≡ Some port
        → find_port one.asker (answer_by answers.True one before).ports ≡ Some (record port {
          chain = chain_with verification.is_new verification.binding port.chain;
          owed = port.owed ++ success;
          waits = Nothing;
        }) }
    ensures wrong { (one : Settled) (before : Answering) (port : Port)
        → find_port one.asker before.ports ≡ Some port
        → find_port one.asker (answer_by answers.False one before).ports
        ≡ Some (record port { owed = port.owed ++ failure; waits = Nothing }) }
    ensures other { (what : Answer) (one : Settled) (before : Answering) (number : ℕ)
        → what ≢ answers.True
        → chain_at number (answer_by what one before).ports ≡ chain_at number before.ports }
    ensures others { (what : Answer) (one : Settled) (before : Answering) (number : ℕ)
        → number ≢ one.asker
        → find_port number (answer_by what one before).ports ≡ find_port number before.ports }
    ensures judged { (settings : Settings) (events : List Timed)
        → IsJudged (run (first_state settings) events) }
    ensures step { (state : State) (moment : Moment) (event : Happening) → IsTied state
        → IsJudged state → IsJudged (step state moment event).state }
{}

/// A request to bind is put to the helper exactly where the agent is unlocked, the asker's bindings
/// judge it new or the same, and one more ask may be put; and it is refused for a cause exactly
/// where that cause holds. One whose host key doesn't read is malformed, also where the agent is
/// locked.
pub fn a_binding_is_verified_exactly_where_it_may_be()
    ensures put { (ask : ℕ) (bind : BindRequest) (asker : Asker) (held : KeyState)
        (under_way : UnderWay) → ((serve (Ok (Bind bind)) asker held under_way).work.verdict
        ≡ Awaits (OnAsk ask)) ↔ (IsBindable bind asker held × HasRoom under_way × (ask
        ≡ under_way.link.last + 1)) }
    ensures message { (bind : BindRequest) (asker : Asker) (held : KeyState) (under_way : UnderWay)
        (bindable : IsBindable bind asker held) → HasRoom under_way
        → (serve (Ok (Bind bind)) asker held under_way).work
        ≡ put_unless None (Verifies bind bindable.is_new) asker.port under_way }
    ensures refused { (cause : Cause) (bind : BindRequest) (asker : Asker) (held : KeyState)
        (under_way : UnderWay) → ((serve (Ok (Bind bind)) asker held under_way).work.verdict
        ≡ Refuses cause) ↔ IsBindRefusedFor cause bind asker held under_way }
    ensures malformed { (body : List ℕ) (bind : BindRequest) (fault : KeyFault) (asker : Asker)
        (held : KeyState) (under_way : UnderWay) → request_of body ≡ Ok (Bind bind)
        → public_key_of bind.host_key ≡ Err fault
        → (serve (agent_request_of body) asker held under_way).work.verdict
        ≡ Refuses (Malformed (key_fault fault)) }
    ensures read { (body : List ℕ) (bind : BindRequest) (key : KeyParts) → request_of body
        ≡ Ok (Bind bind) → public_key_of bind.host_key ≡ Ok key → agent_request_of body
        ≡ Ok (Bind bind) }
{}

/// A key that a client doesn't see changes no reply to it: from two states that differ in such a
/// key alone, what the client sends and takes leaves every port owing and waiting for the same, the
/// same under way, and the same put to the helper, unless an addition is taken of it. The client is
/// as the moment of that leaves it.
pub fn what_is_not_seen_changes_no_reply()
    ensures request { (asker : Asker) (key : HeldKey) (before after : List HeldKey)
        (held : KeyState) (under_way : UnderWay) → sees asker key ≡ false
        → find_identity key.blob (before ++ after) ≡ None → (request : ClientRequest)
        → ((addition : Addition) → request ≢ Add addition)
        → IsSameReply (serve (Ok request) asker (with_identities (before ++ key ∷ after) held)
        under_way).work (serve (Ok request) asker (with_identities (before ++ after) held)
        under_way).work }
    ensures heard { (state : State) (moment : Moment) (number : ℕ) (port : Port) (key : HeldKey)
        (before after : List HeldKey)
        → find_port number (at_moment moment state).ports ≡ Some port → port.door ≡ Clients
        → find_identity key.blob (before ++ after) ≡ None
        → visible key.rules port.chain port.attempted moment.wall ≡ false → (piece : List ℕ)
        → ((body_len : ℕ) (addition : Addition) → due (heard_more piece port) ≡ Whole body_len
        → agent_request_of (front_body body_len (port.heard ++ piece)) ≢ Ok (Add addition))
        → IsSameFor (step (holding (before ++ key ∷ after) state) moment (Heard number piece)) (step
        (holding (before ++ after) state) moment (Heard number piece)) }
    ensures took { (state : State) (moment : Moment) (number : ℕ) (port : Port) (key : HeldKey)
        (before after : List HeldKey)
        → find_port number (at_moment moment state).ports ≡ Some port → port.door ≡ Clients
        → find_identity key.blob (before ++ after) ≡ None
        → visible key.rules port.chain port.attempted moment.wall ≡ false → (count : ℕ)
        → ((body_len : ℕ) (addition : Addition) → due (took_some count port) ≡ Whole body_len
        → agent_request_of (front_body body_len port.heard) ≢ Ok (Add addition))
        → IsSameFor (step (holding (before ++ key ∷ after) state) moment (Took number count)) (step
        (holding (before ++ after) state) moment (Took number count)) }
{}
