//! Requests to sign, and what they use.

ghost use Rattle.std.specs.Prelude.{◌≡◌, ◌+◌, ℕ, List, None, Option, true, IsSome, IfSome, OnOk, IfOk, ◌≤◌, length};
ghost use Rattle.std.specs.Option.{option_map};
ghost use Rattle.wire_text.specs.Bounds.{longest_body, longest_to_child};
ghost use Rattle.agent_msg.specs.Requests.{Sign};
ghost use Rattle.identity_table.specs.Identities.{find_number};
ghost use Rattle.agent_model.specs.KeyStates.{after_use};
ghost use Rattle.agent_model.specs.Verdicts.{Verdict};
ghost use Rattle.under_way.specs.Parts.{TellsOf, TellsOfUser};
ghost use Rattle.confirm_desk.specs.Confirmations.{find_asker};
ghost use Rattle.agent_core.specs.Served.{TellsWait, sign_work, keys_of, served_by};

use crate::asker::Asker;
use crate::granted::permits;
use crate::waits::Waits;
use dest_rule::login_host;
use identity_table::{Identity, Lock, Table};
use std::alloc::AllocError;
use under_way::UnderWay;

// What came of a request to sign: what the client waits for, if it isn't refused, and the addition whose key it uses.
struct Signing {
    waits: Option<Waits>,
    used: Option<u64>,
}

// It is refused, and uses no key.
const REFUSED: Signing = Signing {
    waits: None,
    used: None,
};

/// Has a signature made, where the key is held and its purposes and constraints permit it, and then counts a use of the key. Gives
/// what the client waits for.
pub fn sign(
    asker: &Asker<'_>,
    table: &mut Table,
    lock: &Lock,
    under_way: &mut UnderWay,
    blob: &[u8],
    message: &[u8],
    flags: u32,
) -> Result<Option<Waits>, AllocError>
    requires short { length blob.now + length message.now ≤ longest_body }
    requires alone { find_asker asker.now.port under_way.old.confirmations ≡ None }

    ensures keys { OnOk result (keys_of table.new lock.now ≡ (served_by asker.now
        (Sign record { blob = blob.now; message = message.now; flags = flags })
        (keys_of table.old lock.now) under_way.old).held) }
    ensures under_way { OnOk result (under_way.new ≡ (served_by asker.now
        (Sign record { blob = blob.now; message = message.now; flags = flags })
        (keys_of table.old lock.now) under_way.old).work.under_way) }
    ensures told { IfOk result (TellsWait (served_by asker.now
        (Sign record { blob = blob.now; message = message.now; flags = flags })
        (keys_of table.old lock.now) under_way.old).work.verdict) }
{
    let Signing { waits, used } = put_signing(asker, table, lock, under_way, blob, message, flags)?;
    count_use(table, used);
    Ok(waits)
}

// Counts a use of the key of this addition, where there is one.
fn count_use(table: &mut Table, used: Option<u64>)
    requires { IfSome used (λ addition. IsSome (find_number addition table.old.identities)) }
    ensures { (lock : Option (List ℕ)) → keys_of table.new lock ≡ after_use used (keys_of table.old lock) }
{
    match used {
        Some(addition) => table.spend(addition),
        None => {}
    }
}

// Puts a signature to the helper or the user, where the key is held and its purposes and constraints permit it.
fn put_signing(
    asker: &Asker<'_>,
    table: &Table,
    lock: &Lock,
    under_way: &mut UnderWay,
    blob: &[u8],
    message: &[u8],
    flags: u32,
) -> Result<Signing, AllocError>
    requires short { length blob.now + length message.now ≤ longest_body }
    requires alone { find_asker asker.now.port under_way.old.confirmations ≡ None }

    ensures held { IfOk result (λ signing. IfSome signing.used
        (λ addition. IsSome (find_number addition table.now.identities))) }
    ensures used { IfOk result (λ signing. signing.used ≡ (served_by asker.now
        (Sign record { blob = blob.now; message = message.now; flags = flags })
        (keys_of table.now lock.now) under_way.old).work.used) }
    ensures under_way { OnOk result (under_way.new ≡ (served_by asker.now
        (Sign record { blob = blob.now; message = message.now; flags = flags })
        (keys_of table.now lock.now) under_way.old).work.under_way) }
    ensures told { IfOk result (λ signing. TellsWait (served_by asker.now
        (Sign record { blob = blob.now; message = message.now; flags = flags })
        (keys_of table.now lock.now) under_way.old).work.verdict signing.waits) }
{
    if lock.is_locked() {
        return Ok(REFUSED);
    }
    match table.find(blob) {
        Some(key) if permits(key, blob, asker.chain, message, flags, asker.wall) => {
            sign_with(asker, under_way, key, message, flags)
        }
        _ => Ok(REFUSED),
    }
}

// Puts a signature with this key to the helper, or asks the user first where its uses are to be confirmed.
fn sign_with(
    asker: &Asker<'_>,
    under_way: &mut UnderWay,
    key: &Identity,
    message: &[u8],
    flags: u32,
) -> Result<Signing, AllocError>
    requires short { 25 + length key.now.private + length key.now.blob + length message.now ≤ longest_to_child }
    requires message { length message.now ≤ longest_body }
    requires alone { find_asker asker.now.port under_way.old.confirmations ≡ None }

    ensures under_way { OnOk result (under_way.new ≡ (sign_work key.now.confirm asker.now key.now message.now flags
        under_way.old).under_way) }
    ensures told { IfOk result (λ signing. TellsWait
        (sign_work key.now.confirm asker.now key.now message.now flags under_way.old).verdict signing.waits) }
    ensures used { IfOk result (λ signing. signing.used
        ≡ (sign_work key.now.confirm asker.now key.now message.now flags under_way.old).used) }
    ensures own { IfOk result (λ signing. IfSome signing.used (λ addition. addition ≡ key.now.number)) }
{
    if key.confirm() {
        let job = ask_user(asker, under_way, key, message, flags)?;
        Ok(Signing {
            waits: on_confirmation(job),
            used: None,
        })
    } else {
        let ask = under_way.put_sign(asker.port, key, message, flags)?;
        Ok(Signing {
            waits: on_ask(ask),
            used: used_by(key, ask),
        })
    }
}

// Asks the user for a signature with this key: for a login to the host that its destination constraints tell.
fn ask_user(
    asker: &Asker<'_>,
    under_way: &mut UnderWay,
    key: &Identity,
    message: &[u8],
    flags: u32,
) -> Result<Option<u64>, AllocError>
    requires message { length message.now ≤ longest_body }
    requires alone { find_asker asker.now.port under_way.old.confirmations ≡ None }

    ensures under_way { OnOk result (under_way.new ≡ (sign_work true asker.now key.now message.now flags
        under_way.old).under_way) }
    ensures told { IfOk result (TellsOfUser (sign_work true asker.now key.now message.now flags under_way.old).verdict) }
{
    let host = login_host(key.rules(), key.blob(), asker.chain, message, asker.wall);
    under_way.ask_user(asker.port, key, host, message, flags)
}

// The addition of a key, where it is used for an ask.
fn used_by(key: &Identity, ask: Option<u64>) -> Option<u64>
    ensures { result ≡ option_map (λ _. key.now.number) ask }
{
    match ask {
        Some(_) => Some(key.addition()),
        None => None,
    }
}

/// The answer to this ask is waited for.
pub fn on_ask(ask: Option<u64>) -> Option<Waits>
    ensures { (verdict : Verdict) → TellsOf verdict ask → TellsWait verdict result }
{
    match ask {
        Some(ask) => Some(Waits::OnAsk { ask }),
        None => None,
    }
}

// The user's consent is waited for, which this job asks for.
fn on_confirmation(job: Option<u64>) -> Option<Waits>
    ensures { (verdict : Verdict) → TellsOfUser verdict job → TellsWait verdict result }
{
    match job {
        Some(job) => Some(Waits::OnConfirmation { job }),
        None => None,
    }
}
