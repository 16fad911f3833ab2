//! Laws of keys that may be used so many times: what uses one, and what doesn't.

ghost use Rattle.std.specs.Prelude.{◌≡◌, ℕ, List, Ok, Some, false};
ghost use Rattle.confirm_desk.specs.Confirmations.{Confirmation};
ghost use Rattle.identity_table.specs.Identities.{HeldKey};
ghost use Rattle.identity_table.specs.Tables.{spent};
ghost use Rattle.agent_msg.specs.Requests.{Bind, BindRequest, Sign, Signing};
ghost use Rattle.agent_model.specs.Answers.{helper_heard, lose};
ghost use Rattle.agent_model.specs.Askable.{HasRoom, IsGrantable, IsUsable};
ghost use Rattle.agent_model.specs.Consents.{grant, grant_work, over};
ghost use Rattle.agent_model.specs.Dispatch.{Asker, serve};
ghost use Rattle.agent_model.specs.KeyStates.{KeyState};
ghost use Rattle.agent_model.specs.State.{OnConfirmation, Port, State, UnderWay, find_port};
ghost use Rattle.agent_model.specs.Verdicts.{Awaits, Cause, Refuses};

/// A signature that is put to the helper uses the key that it is made with, once and in the same
/// event, whether the user was asked for it or not. Nothing else does: neither a request that is
/// refused or that the user is asked for, nor what the user refuses, nor a verification, nor what
/// the helper answers; and a helper that is lost gives no use back.
pub fn a_key_is_used_as_its_signature_is_put()
    ensures put { (signing : Signing) (asker : Asker) (held : KeyState) (under_way : UnderWay)
        (usable : IsUsable signing false asker held) → HasRoom under_way
        → (serve (Ok (Sign signing)) asker held under_way).held
        ≡ record held { table = spent usable.permitted.key.number held.table } }
    ensures refused { (cause : Cause) (signing : Signing) (asker : Asker) (held : KeyState)
        (under_way : UnderWay) → (serve (Ok (Sign signing)) asker held under_way).work.verdict
        ≡ Refuses cause → (serve (Ok (Sign signing)) asker held under_way).held ≡ held }
    ensures raised { (job : ℕ) (signing : Signing) (asker : Asker) (held : KeyState)
        (under_way : UnderWay) → (serve (Ok (Sign signing)) asker held under_way).work.verdict
        ≡ Awaits (OnConfirmation job)
        → (serve (Ok (Sign signing)) asker held under_way).held ≡ held }
    ensures verified { (bind : BindRequest) (asker : Asker) (held : KeyState) (under_way : UnderWay)
        → (serve (Ok (Bind bind)) asker held under_way).held ≡ held }
    ensures granted { (key : HeldKey) (port : Port) (confirmation : Confirmation) (state : State)
        → find_port confirmation.asker state.ports ≡ Some port → IsGrantable key port.chain
        confirmation.addition confirmation.message confirmation.flags state.moment.wall state.held
        → HasRoom state.under_way
        → (grant confirmation state).state.held
        ≡ record state.held { table = spent key.number state.held.table } }
    ensures ungranted { (cause : Cause) (port : Port) (confirmation : Confirmation) (state : State)
        → find_port confirmation.asker state.ports ≡ Some port
        → (grant_work port.chain confirmation state).verdict ≡ Refuses cause
        → (grant confirmation state).state.held ≡ state.held }
    ensures denied { (confirmation : Confirmation) (state : State)
        → (over confirmation state).state.held ≡ state.held }
    ensures answered { (piece : List ℕ) (state : State)
        → (helper_heard piece state).state.held ≡ state.held }
    ensures lost { (state : State) → (lose state).state.held ≡ state.held }
{}
