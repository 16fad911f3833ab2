//! What is tested again when the user consents.

ghost use Rattle.std.specs.Prelude.{◌≡◌, ◌≤◌, ℕ, [], IfOk, IfSome, IsSome, OnOk, None, Some, is_none, length, List};
ghost use Rattle.std.specs.Option.{option_copied};
ghost use Rattle.dest_rule.specs.Rules.{denial_under};
ghost use Rattle.identity_table.specs.Identities.{find_number};
ghost use Rattle.confirm_desk.specs.Calls.{given_back};
ghost use Rattle.confirm_desk.specs.Confirmations.{Confirmation};
ghost use Rattle.agent_model.specs.Consents.{close_confirmer, confirmer_closes};
ghost use Rattle.agent_model.specs.NumberLists.{put_all};
ghost use Rattle.agent_model.specs.Objections.{objection};
ghost use Rattle.wire_text.specs.Bounds.{longest_body};
ghost use Rattle.agent_model.specs.State.{Port, State, change_port, find_port};
ghost use Rattle.agent_model.specs.Verdicts.{Verdict, tell};
ghost use Rattle.under_way.specs.Parts.{TellsOf};
ghost use Rattle.agent_core.specs.Confirmers.{IsGrant, IsGrantedTo, IsShortKey, grant_in, grant_of, granted_by};
ghost use Rattle.agent_core.specs.Slots.{IsUntouched, Spares, open_of};
ghost use Rattle.agent_core.specs.Parts.{IsSpared, stepped_of};

use crate::helper::touch_asked;
use crate::keys::Keys;
use crate::parts::Parts;
use crate::ports::Ports;
use confirm_desk::Held;
use constraint_rec::Constraint;
use dest_rule::{Chain, may_sign};
use identity_table::{Identity, Lock, Table};
use key_purposes::let_sign;
use std::alloc::AllocError;
use under_way::UnderWay;

/// The key of an addition, where it is held yet, the agent isn't locked and the key may sign the message with these
/// flags now.
pub fn find_granted<'a>(
    table: &'a Table,
    lock: &Lock,
    addition: u64,
    chain: &Chain,
    message: &[u8],
    flags: u32,
    wall: u64,
) -> Option<&'a Identity>
    ensures value { option_copied result
        ≡ granted_by lock.now addition table.now.identities chain.now.bindings message.now flags wall }
    ensures short { IfSome result (λ key. IsShortKey key.now) }
{
    if lock.is_locked() {
        return None;
    }
    let key = table.by_number(addition)?;
    if !permits(key, key.blob(), chain, message, flags, wall) {
        return None;
    }
    Some(key)
}

/// Whether the purposes and the constraints of the key, which has this blob, permit a signature of the message with
/// these flags for a connection so bound.
#[tactic(auto, using(crate::proofs::HeldLemmas::no_objection))]
pub fn permits(
    key: &Identity,
    blob: &[u8],
    chain: &Chain,
    message: &[u8],
    flags: u32,
    wall: u64,
) -> bool
    ensures { result ≡ is_none (objection key.now blob.now chain.now.bindings message.now flags wall) }
{
    let_sign(key.purposes(), message, blob, flags)
        && permits_destination(key.rules(), blob, chain, message, wall)
}

// Whether these constraints of the key of this blob permit a signature of the message for a connection so bound.
// A key without any isn't asked about.
fn permits_destination(
    rules: &[Constraint],
    blob: &[u8],
    chain: &Chain,
    message: &[u8],
    wall: u64,
) -> bool
    ensures { result ≡ is_none (denial_under rules.now blob.now chain.now.bindings message.now wall) }
{
    rules.is_empty() || may_sign(rules, blob, chain, message, wall).is_ok()
}

impl Parts {
    /// Puts what was held to the helper, where it may be signed yet, and then counts a use of its key. Gives the ask's
    /// number.
    pub fn put_granted(&mut self, held: &Held) -> Result<Option<u64>, AllocError>
        requires is_open { IsSome (find_port held.now.asker self.old.state.ports) }
        requires short { length held.now.message ≤ longest_body }

        ensures ports { OnOk result (self.new.state.ports ≡ self.old.state.ports) }
        ensures put { (port : Port) (one : Confirmation) → find_port held.now.asker self.old.state.ports ≡ Some port
            → given_back one ≡ held.now
            → IfOk result (λ asked. IsGrantedTo asked (stepped_of self.new)
            (grant_in port.chain one self.old.state) (stepped_of self.old)) }
        ensures spared { (was : State) → IsSpared was self.old → OnOk result (IsSpared was self.new) }
    {
        let asks = self.under_way.asks();
        let asked = ask_granted(
            &self.ports,
            &mut self.under_way,
            &self.keys,
            self.wall,
            held,
        )?;
        touch_asked(&mut self.ports, &self.under_way, asks);
        match asked {
            Some(ask) => {
                self.keys.spend(held.addition);
                Ok(Some(ask))
            }
            None => Ok(None),
        }
    }
}

// Puts what was held to the helper, where it may be signed yet, and gives the ask's number.
fn ask_granted(
    ports: &Ports,
    under_way: &mut UnderWay,
    keys: &Keys,
    wall: u64,
    held: &Held,
) -> Result<Option<u64>, AllocError>
    requires is_open { IsSome (find_port held.now.asker ports.now.ports) }
    requires short { length held.now.message ≤ longest_body }

    ensures put { (port : Port) (one : Confirmation) → find_port held.now.asker ports.now.ports ≡ Some port
        → given_back one ≡ held.now → IfOk result (λ asked. IsGrant asked under_way.new
        (grant_of port.chain one wall keys.now under_way.old)) }
    ensures held { IfOk result (λ asked. IfSome asked
        (λ _. IsSome (find_number held.now.addition keys.now.table.identities))) }
{
    let Some(chain) = ports.chain(held.asker) else {
        unreachable!()
    };
    let message = held.message.as_slice();
    match keys.find_granted(held.addition, chain, message, held.flags, wall) {
        Some(key) => Ok(under_way.put_sign(held.asker, key, message, held.flags)?),
        None => Ok(None),
    }
}

/// The confirmation of this asker is over: its child process's port is closed where it came, and the asker waits for an
/// ask, or is told that there is none. Takes no memory.
pub fn conclude(ports: &mut Ports, confirmer: Option<u64>, asker: u64, asked: Option<u64>)
    requires silent { (port : Port) → find_port asker ports.old.ports ≡ Some port → port.owed ≡ [] }

    ensures ports { (verdict : Verdict) → TellsOf verdict asked → open_of ports.new ≡ record (open_of ports.old) {
      ports = change_port asker (tell verdict) (close_confirmer confirmer ports.old.ports);
      closed = put_all ports.old.closed (confirmer_closes confirmer ports.old.ports);
    } }
    ensures spared { Spares ports.old ports.new }
    ensures gone { (number : ℕ) → confirmer ≡ Some number
        → IsUntouched number ports.new.closed ports.new.touched → find_port number ports.new.ports ≡ None }
{
    close_confirmer(ports, confirmer);
    ports.conclude(asker, asked);
}

// Closes the port of a confirmer, where that came and is open.
fn close_confirmer(ports: &mut Ports, confirmer: Option<u64>)
    ensures ports { open_of ports.new ≡ record (open_of ports.old) {
      ports = close_confirmer confirmer ports.old.ports;
      closed = put_all ports.old.closed (confirmer_closes confirmer ports.old.ports);
    } }
    ensures left { (number : ℕ) (port : Port) → find_port number ports.new.ports ≡ Some port
        → find_port number ports.old.ports ≡ Some port }
    ensures spared { Spares ports.old ports.new }
    ensures gone { (number : ℕ) → confirmer ≡ Some number → find_port number ports.new.ports ≡ None }
{
    match confirmer {
        Some(number) => ports.close_open(number),
        None => {}
    }
}
