//! Requests to bind a connection to a host.

ghost use Rattle.std.specs.Prelude.{◌≡◌, ◌+◌, OnOk, IfOk, ◌≤◌, length};
ghost use Rattle.wire_text.specs.Bounds.{longest_body};
ghost use Rattle.identity_table.specs.Identities.{TableState};
ghost use Rattle.under_way.specs.Parts.{TellsOf};
ghost use Rattle.agent_core.specs.Served.{binds, keys_of, served_by};

use crate::asker::Asker;
use dest_rule::Next;
use identity_table::Lock;
use key_blob::read_public;
use std::alloc::AllocError;
use under_way::UnderWay;

/// Puts the verification of a binding to the helper, where the chain doesn't refuse it, and gives the ask's number.
pub fn bind(
    asker: &Asker<'_>,
    lock: &Lock,
    under_way: &mut UnderWay,
    host_key: &[u8],
    session: &[u8],
    signature: &[u8],
    forwarding: bool,
) -> Result<Option<u64>, AllocError>
    requires short { length host_key.now + length session.now + length signature.now ≤ longest_body }

    ensures keys { (table : TableState) → (served_by asker.now (binds host_key.now session.now signature.now forwarding)
        (keys_of table lock.now) under_way.old).held ≡ keys_of table lock.now }
    ensures under_way { (table : TableState) → OnOk result (under_way.new ≡ (served_by asker.now
        (binds host_key.now session.now signature.now forwarding)
        (keys_of table lock.now) under_way.old).work.under_way) }
    ensures told { (table : TableState) → IfOk result (TellsOf (served_by asker.now
        (binds host_key.now session.now signature.now forwarding)
        (keys_of table lock.now) under_way.old).work.verdict) }
{
    if lock.is_locked() || read_public(host_key).is_err() {
        return Ok(None);
    }
    let is_new = match asker.chain.judge(host_key, session) {
        Next::Refuse(_) => return Ok(None),
        Next::Same => false,
        Next::New => true,
    };
    Ok(under_way.put_verify(asker.port, host_key, session, signature, forwarding, is_new)?)
}
