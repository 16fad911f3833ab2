//! Requests of an agent that is locked.

ghost use Rattle.std.specs.Prelude.{◌≡◌, IsSome};
ghost use Rattle.agent_msg.specs.Requests.{client_request};
ghost use Rattle.identity_table.specs.Identities.{TableState};
ghost use Rattle.agent_model.specs.State.{UnderWay as AnUnderWay};
ghost use Rattle.agent_core.specs.Served.{IsPlainRequest, IsStatus, keys_of, served_by};
ghost use Rattle.agent_core.specs.declared.asker.Asker.{Asker as AnAsker};

use agent_msg::Request;
use identity_table::Lock;

/// Does what a request asks of an agent that is locked, and tells whether it succeeded: only its passphrase does.
pub fn take_locked(lock: &mut Lock, request: Request<'_>) -> bool
    requires locked { IsSome lock.old }
    requires other { IsPlainRequest (client_request request) }

    ensures keys { (asker : AnAsker) (table : TableState) (under_way : AnUnderWay) → keys_of table lock.new
        ≡ (served_by asker (client_request request.entry) (keys_of table lock.old) under_way).held }
    ensures work { (asker : AnAsker) (table : TableState) (under_way : AnUnderWay) → IsStatus result
        (served_by asker (client_request request.entry) (keys_of table lock.old) under_way).work under_way }
{
    match request {
        Request::Unlock { passphrase } => lock.unlock(passphrase),
        _ => false,
    }
}
