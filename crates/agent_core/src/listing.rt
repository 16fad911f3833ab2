//! Requests for the list of identities.

ghost use Rattle.std.specs.Prelude.{◌≡◌, [], OnOk};
ghost use Rattle.agent_msg.specs.Requests.{ListIdentities};
ghost use Rattle.agent_model.specs.State.{UnderWay as AnUnderWay};
ghost use Rattle.agent_model.specs.Verdicts.{verdict_text};
ghost use Rattle.agent_core.specs.Served.{keys_of, served_by};

use crate::asker::Asker;
use crate::owed::Owed;
use identity_table::{Lock, Table};
use std::alloc::AllocError;

/// Owes the list of the identities that the asker sees, which is empty while the agent is locked.
#[tactic(auto, unfolding(identity_table::specs::Identities::entries_len))]
pub fn list(
    asker: &Asker<'_>,
    table: &Table,
    lock: &Lock,
    owed: &mut Owed,
) -> Result<(), AllocError>
    requires { owed.old ≡ [] }
    ensures { (under_way : AnUnderWay) → OnOk result (owed.new ≡ verdict_text
        (served_by asker.now ListIdentities (keys_of table.now lock.now) under_way).work.verdict) }
{
    if lock.is_locked() {
        owed.put_empty_list()?;
    } else {
        owed.put_list(asker, table)?;
    }
    Ok(())
}
