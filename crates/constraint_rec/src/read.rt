//! Reads all constraints behind a key that is added, each kind once, by draft-miller-ssh-agent.

ghost use Rattle.std.specs.Prelude.{◌≡◌, ◌<◌, length, OnOk, List, [], ◌⊎◌, IfOk, OnErr, MatchResult, Ok, Err};
ghost use Rattle.constraint_rec.specs.declared.fault.TermFault.TheVariants.{Memory};
ghost use Rattle.constraint_rec.specs.declared.terms.Terms.{Terms};
ghost use Rattle.constraint_rec.specs.Constraints.{IsConstraints};
ghost use Rattle.constraint_rec.specs.Reading.{has_kind, uses_at, next_at, terms_of};
ghost use Rattle.constraint_rec.specs.Writing.{IsWritable};

use crate::destination::read_destinations;
use crate::fault::TermFault;
use crate::kind::{Kind, take_kind};
use crate::purposes::read_purposes;
use crate::terms::Terms;
use std::alloc::Global;
use wire_core::Cursor;

// Whether the terms have a constraint of this kind.
fn has(terms: &Terms, kind: Kind) -> bool
    ensures { result ≡ has_kind terms.now kind }
{
    match kind {
        Kind::Lifetime => terms.life.is_some(),
        Kind::Confirm => terms.confirm,
        Kind::Uses => terms.uses.is_some(),
        Kind::Destinations => !terms.rules.is_empty(),
        Kind::Purposes => !terms.purposes.is_empty(),
    }
}

/// Takes a number of uses. A refused call may have moved the cursor.
fn take_uses(from: &mut Cursor<'_>) -> Result<u32, TermFault>
    ensures exact { MatchResult result (λ uses. uses_at from.old ≡ Ok (uses, from.new))
        (λ fault. uses_at from.old ≡ Err fault) }
    ensures shorter { OnOk result (length from.new < length from.old) }
{
    match from.take_u32()? {
        0 => Err(TermFault::NoUses),
        uses => Ok(uses),
    }
}

/// Takes a constraint and adds it to the terms. A refused call may have moved the cursor.
#[tactic(auto, unfolding(crate::specs::Reading::next_at, crate::specs::Reading::contents_at))]
fn take_constraint(alloc: Global, from: &mut Cursor<'_>, terms: &mut Terms) -> Result<(), TermFault>
    ensures exact { MatchResult result (λ _. next_at terms.old from.old ≡ Ok (terms.new, from.new))
        (λ fault. (fault ≡ Memory) ⊎ (next_at terms.old from.old ≡ Err fault)) }
    ensures shorter { OnOk result (length from.new < length from.old) }
{
    let kind = take_kind(from)?;
    if has(terms, kind) {
        return Err(TermFault::Twice);
    }
    match kind {
        Kind::Lifetime => terms.life = Some(from.take_u32()?),
        Kind::Confirm => terms.confirm = true,
        Kind::Uses => terms.uses = Some(take_uses(from)?),
        Kind::Destinations => terms.rules = read_destinations(alloc, from.take_string()?)?,
        Kind::Purposes => terms.purposes = read_purposes(alloc, from.take_string()?)?,
    }
    Ok(())
}

/// Reads constraints to the end of `bytes`.
fn terms_at(alloc: Global, bytes: &[u8]) -> Result<Terms, TermFault>
    ensures { MatchResult result (λ terms. terms_of bytes.now ≡ Ok terms)
        (λ fault. (fault ≡ Memory) ⊎ (terms_of bytes.now ≡ Err fault)) }
{
    let mut terms = Terms::new(alloc);
    let mut from = Cursor::new(bytes);
    'constraints: while !from.at_end() {
        take_constraint(alloc, &mut from, &mut terms)?;
    }
    Ok(terms)
}

/// Reads constraints to the end of what is left. No bytes are no constraints.
pub fn read_constraints(alloc: Global, from: &mut Cursor<'_>) -> Result<Terms, TermFault>
    // What is read is constraints.
    ensures found { IfOk result (λ terms. IsConstraints from.old terms × (from.new ≡ [])) }

    // Constraints are read, unless memory runs out.
    ensures only { (terms : Terms) → IsConstraints from.old terms →
        MatchResult result (λ read. (read ≡ terms) × (from.new ≡ [])) (λ fault. fault ≡ Memory) }

    // Which fault it is.
    ensures exact { MatchResult result (λ terms. terms_of from.old ≡ Ok terms)
        (λ fault. (fault ≡ Memory) ⊎ (terms_of from.old ≡ Err fault)) }
    ensures unchanged { OnErr result (from.new ≡ from.old) }

    // What is read can be written.
    ensures writable { IfOk result (λ terms. IsWritable terms) }
{
    let bytes = from.rest();
    let terms = terms_at(alloc, bytes)?;
    *from = Cursor::new(&[]);
    Ok(terms)
}
