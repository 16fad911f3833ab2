//! What a client is listed.

ghost use Rattle.std.specs.Prelude.{◌≡◌, ℕ, List, Ok};
ghost use Rattle.agent_msg.specs.Requests.{ListIdentities};
ghost use Rattle.agent_model.specs.Actions.{Requested, Requesting};
ghost use Rattle.agent_model.specs.Binds.{agent_request_of};
ghost use Rattle.agent_model.specs.Events.{Timed};
ghost use Rattle.agent_model.specs.Grants.{IsAmong};
ghost use Rattle.agent_model.specs.Runs.{run};
ghost use Rattle.agent_model.specs.State.{Settings, first_state};
ghost use Rattle.agent_model.specs.Step.{step};
ghost use Rattle.agent_model.specs.Verdicts.{Identities, Replies};
ghost use Rattle.list_laws.specs.Lists.{IsListed};

/// Wherever in a run a client's request for identities is served, whatever came before and with no
/// condition on numbers: it is replied the blobs and comments of the additions that stand by what was
/// done before, in the order in which their keys came, as far as its connection sees them by what was
/// proved of it, and none while the agent is locked; and it is owed that reply and nothing else.
///
/// `only`: no other request is replied identities.
pub fn a_list_is_what_was_added()
    ensures listed { (settings : Settings) (before : List Timed) (one : Timed) (requesting : Requesting)
        → IsAmong (Requested requesting) (step (run (first_state settings) before) one.moment one.event).actions
        → agent_request_of requesting.body ≡ Ok ListIdentities
        → IsListed settings before one requesting }
    ensures only { (settings : Settings) (before : List Timed) (one : Timed) (requesting : Requesting)
        (identities : List (List ℕ × List ℕ))
        → IsAmong (Requested requesting) (step (run (first_state settings) before) one.moment one.event).actions
        → requesting.verdict ≡ Replies (Identities identities)
        → agent_request_of requesting.body ≡ Ok ListIdentities }
{}
