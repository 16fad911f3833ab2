//! What requests do to the identities and the lock, and what they are answered.

ghost use Rattle.std.specs.Prelude.{◌≡◌, ℕ, List, [], true, None, Option, IfSome, OnOk, IfOk, ◌≤◌, length};
ghost use Rattle.wire_text.specs.Bounds.{longest_body};
ghost use Rattle.agent_msg.specs.Requests.{client_request};
ghost use Rattle.identity_table.specs.Identities.{find_identity};
ghost use Rattle.agent_model.specs.Dispatch.{add_by, add_seen, remove_by};
ghost use Rattle.agent_model.specs.State.{UnderWay as AnUnderWay};
ghost use Rattle.agent_model.specs.Verdicts.{Verdict, verdict_text, verdict_waits};
ghost use Rattle.confirm_desk.specs.Confirmations.{find_asker};
ghost use Rattle.agent_core.specs.Served.{TellsWait, IsPlainRequest, IsShortRequest, IsStatus, IsUsableRequest, asker_of, hides, keys_of, served_body, served_by};
ghost use Rattle.agent_core.specs.Slots.{waits_of};

use crate::asker::Asker;
use crate::binding::bind;
use crate::listing::list;
use crate::locking::take_locked;
use crate::owed::Owed;
use crate::seen::sees;
use crate::signing::{on_ask, sign};
use crate::waits::Waits;
use agent_msg::{MsgFault, Request, read_request};
use constraint_rec::Terms;
use identity_table::{AddFault, Lock, Table};
use key_blob::AddedKey;
use secret_buf::SecretBytes;
use std::alloc::{AllocError, Global};
use under_way::UnderWay;

/// Does what the request of this body asks: owes the reply, or tells what the asker waits for.
pub fn answer(
    alloc: Global,
    table: &mut Table,
    lock: &mut Lock,
    under_way: &mut UnderWay,
    asker: &Asker<'_>,
    body: &[u8],
    owed: &mut Owed,
) -> Result<Waits, AllocError>
    requires nothing { owed.old ≡ [] }
    requires short { length body.now ≤ longest_body }
    requires alone { find_asker asker.now.port under_way.old.confirmations ≡ None }

    ensures keys { OnOk result (keys_of table.new lock.new
        ≡ (served_body asker.now body.now (keys_of table.old lock.old) under_way.old).held) }
    ensures under_way { OnOk result (under_way.new
        ≡ (served_body asker.now body.now (keys_of table.old lock.old) under_way.old).work.under_way) }
    ensures reply { OnOk result (owed.new ≡ verdict_text
        (served_body asker.now body.now (keys_of table.old lock.old) under_way.old).work.verdict) }
    ensures waits { IfOk result (λ waits. waits_of waits ≡ verdict_waits
        (served_body asker.now body.now (keys_of table.old lock.old) under_way.old).work.verdict) }
{
    match read_request(alloc, body) {
        Ok(Request::List) => {
            list(asker, table, lock, owed)?;
            Ok(Waits::Nothing)
        }
        Ok(
            Request::Sign {
                blob,
                message,
                flags,
            },
        ) => {
            let asked = sign(asker, table, lock, under_way, blob, message, flags)?;
            Ok(wait(asked, owed))
        }
        Ok(
            Request::Bind {
                host_key,
                session,
                signature,
                forwarding,
            },
        ) => {
            let asked = bind(
                asker, lock, under_way, host_key, session, signature, forwarding,
            )?;
            Ok(wait(on_ask(asked), owed))
        }
        Ok(request) => {
            let done = take(alloc, asker, table, lock, request)?;
            owed.put_status(done);
            Ok(Waits::Nothing)
        }
        Err(MsgFault::Memory) => Err(AllocError),
        Err(_) => {
            owed.put_status(false);
            Ok(Waits::Nothing)
        }
    }
}

// The client waits for this, or is refused where it is for nothing.
fn wait(asked: Option<Waits>, owed: &mut Owed) -> Waits
    requires { owed.old ≡ [] }
    ensures { (verdict : Verdict) → TellsWait verdict asked
        → (owed.new ≡ verdict_text verdict) × (waits_of result ≡ verdict_waits verdict) }
{
    match asked {
        Some(waits) => waits,
        None => {
            owed.put_status(false);
            Waits::Nothing
        }
    }
}

// Whether an identity of this blob is held that the asker doesn't see.
fn is_hidden(asker: &Asker<'_>, table: &Table, blob: &[u8]) -> bool
    ensures { (lock : Option (List ℕ)) → result ≡ hides (find_identity blob.now table.now.identities)
        (asker_of asker.now (keys_of table.now lock)) }
{
    match table.find(blob) {
        Some(key) => !sees(asker, key),
        None => false,
    }
}

// Does what any other request asks, and tells whether it succeeded.
fn take(
    alloc: Global,
    asker: &Asker<'_>,
    table: &mut Table,
    lock: &mut Lock,
    request: Request<'_>,
) -> Result<bool, AllocError>
    requires other { IsPlainRequest (client_request request) }
    requires short { IsShortRequest (client_request request) }
    requires usable { IsUsableRequest (client_request request) }

    ensures keys { (under_way : AnUnderWay) → OnOk result (keys_of table.new lock.new
        ≡ (served_by asker.now (client_request request.entry) (keys_of table.old lock.old) under_way).held) }
    ensures work { (under_way : AnUnderWay) → IfOk result (λ done. IsStatus done
        (served_by asker.now (client_request request.entry) (keys_of table.old lock.old) under_way).work under_way) }
{
    if lock.is_locked() {
        return Ok(take_locked(lock, request));
    }
    match request {
        Request::Add {
            key,
            comment,
            terms,
        } => add(asker, table, key, comment, terms),
        Request::Remove { blob } => Ok(remove(asker, table, blob)),
        Request::RemoveAll => {
            table.remove_all();
            Ok(true)
        }
        Request::Lock { passphrase } => {
            let passphrase = SecretBytes::from_slice(alloc, passphrase)?;
            Ok(lock.lock(passphrase))
        }
        // The agent isn't locked, and no other extension is served.
        Request::Unlock { .. } | Request::OtherExtension { .. } | Request::Unsupported { .. } => {
            Ok(false)
        }
        // `answer` takes these.
        Request::List | Request::Sign { .. } | Request::Bind { .. } => unreachable!(),
    }
}

// Removes the key of this blob, where it is held and the asker sees it.
fn remove(asker: &Asker<'_>, table: &mut Table, blob: &[u8]) -> bool
    ensures keys { (lock : Option (List ℕ)) (under_way : AnUnderWay) → keys_of table.new lock
        ≡ (remove_by (find_identity blob.now table.old.identities) (asker_of asker.now (keys_of table.old lock))
        blob.now (keys_of table.old lock) under_way).held }
    ensures work { (lock : Option (List ℕ)) (under_way : AnUnderWay) → IsStatus result
        (remove_by (find_identity blob.now table.old.identities) (asker_of asker.now (keys_of table.old lock))
        blob.now (keys_of table.old lock) under_way).work under_way }
{
    if is_hidden(asker, table, blob) {
        return false;
    }
    table.remove(blob)
}

// Adds a key, where the asker sees the one that it replaces.
fn add(
    asker: &Asker<'_>,
    table: &mut Table,
    key: AddedKey,
    comment: &[u8],
    terms: Terms,
) -> Result<bool, AllocError>
    requires short { length key.private ≤ longest_body }
    requires usable { IfSome terms.uses (λ uses. 1 ≤ uses) }

    ensures keys { (lock : Option (List ℕ)) (under_way : AnUnderWay) → OnOk result
        (keys_of table.new lock ≡ (add_by (find_identity key.blob table.old.identities) (asker_of asker.now (keys_of table.old lock))
        record { key = key; comment = comment.now; terms = terms } (keys_of table.old lock) under_way).held) }
    ensures work { (lock : Option (List ℕ)) (under_way : AnUnderWay) → IfOk result (λ done.
        IsStatus done (add_by (find_identity key.blob table.old.identities) (asker_of asker.now (keys_of table.old lock))
        record { key = key; comment = comment.now; terms = terms } (keys_of table.old lock) under_way).work under_way) }
{
    if is_hidden(asker, table, key.blob.as_slice()) {
        return Ok(false);
    }
    put(table, key, comment, terms)
}

// Adds a key, in the place of the one that has its blob.
fn put(table: &mut Table, key: AddedKey, comment: &[u8], terms: Terms) -> Result<bool, AllocError>
    requires short { length key.private ≤ longest_body }
    requires usable { IfSome terms.uses (λ uses. 1 ≤ uses) }

    ensures keys { (lock : Option (List ℕ)) (under_way : AnUnderWay) → OnOk result (keys_of table.new lock
        ≡ (add_seen true record { key = key; comment = comment.now; terms = terms } table.old.greatest
        (keys_of table.old lock) under_way).held) }
    ensures work { (lock : Option (List ℕ)) (under_way : AnUnderWay) → IfOk result (λ done. IsStatus done
        (add_seen true record { key = key; comment = comment.now; terms = terms } table.old.greatest
        (keys_of table.old lock) under_way).work under_way) }
{
    let now = table.greatest();
    match table.add(key, terms, comment, now) {
        Ok(_) => Ok(true),
        Err(AddFault::Memory) => Err(AllocError),
        Err(AddFault::ListFull | AddFault::NumbersSpent) => Ok(false),
    }
}
