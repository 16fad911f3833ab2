//! The kinds of constraints, and reading which one comes next, by draft-miller-ssh-agent.

ghost use Rattle.std.specs.Prelude.{◌≡◌, ◌<◌, length, OnOk, MatchResult, Ok, Err};
ghost use Rattle.constraint_rec.specs.Constraints.{purposes_name, restrict_destination, uses_name};
ghost use Rattle.constraint_rec.specs.Reading.{extension_at, kind_at};

use crate::fault::TermFault;
use wire_core::Cursor;

/// The kinds of constraints, of each of which an addition has at most one.
#[derive(Clone, Copy)]
pub enum Kind {
    Lifetime,
    Confirm,
    Uses,
    Destinations,
    Purposes,
}

/// The name of the extension that holds destination constraints.
#[tactic(auto, unfolding(crate::specs::Constraints::restrict_destination))]
pub fn restrict_destination() -> &'static [u8]
    ensures { result.now ≡ restrict_destination }
{
    b"restrict-destination-v00@openssh.com".as_slice()
}

/// The name of the extension that holds a number of uses.
#[tactic(auto, unfolding(crate::specs::Constraints::uses_name))]
pub fn uses_name() -> &'static [u8]
    ensures { result.now ≡ uses_name }
{
    b"uses-v00@example.com".as_slice()
}

/// The name of the extension that holds purposes.
#[tactic(auto, unfolding(crate::specs::Constraints::purposes_name))]
pub fn purposes_name() -> &'static [u8]
    ensures { result.now ≡ purposes_name }
{
    b"purposes-v00@example.com".as_slice()
}

/// Takes the name of an extension. A refused call may have moved the cursor.
fn take_extension(from: &mut Cursor<'_>) -> Result<Kind, TermFault>
    ensures exact { MatchResult result (λ kind. extension_at from.old ≡ Ok (kind, from.new))
        (λ fault. extension_at from.old ≡ Err fault) }
    ensures shorter { OnOk result (length from.new < length from.old) }
{
    let name = from.take_string()?;
    if name == restrict_destination() {
        Ok(Kind::Destinations)
    } else if name == uses_name() {
        Ok(Kind::Uses)
    } else if name == purposes_name() {
        Ok(Kind::Purposes)
    } else {
        Err(TermFault::Unknown)
    }
}

/// Takes the byte that begins a constraint. A refused call may have moved the cursor.
#[tactic(auto, unfolding(crate::specs::Reading::kind_at))]
pub fn take_kind(from: &mut Cursor<'_>) -> Result<Kind, TermFault>
    ensures exact { MatchResult result (λ kind. kind_at from.old ≡ Ok (kind, from.new))
        (λ fault. kind_at from.old ≡ Err fault) }
    ensures shorter { OnOk result (length from.new < length from.old) }
{
    match from.take_u8()? {
        1 => Ok(Kind::Lifetime),
        2 => Ok(Kind::Confirm),
        255 => take_extension(from),
        _ => Err(TermFault::Unknown),
    }
}
