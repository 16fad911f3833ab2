//! The line of a signing request.

ghost use Rattle.std.specs.Prelude.{◌≡◌, ◌++◌, OnOk};
ghost use Rattle.log_book.specs.Lines.{consent_text, end_text, fate_text, signer_text, told_line};

use crate::clock::put_second;
use crate::reading::{put_comment, put_key, put_message};
use crate::told::{Fate, Told};
use std::alloc::{AllocError, Global};

// What the user was asked.
fn consent_text(raised: bool, put: Option<u64>) -> &'static [u8]
    ensures { result.now ≡ consent_text raised put }
{
    match (raised, put) {
        (false, _) => b"",
        (true, None) => b"  asked, no consent that counted",
        (true, Some(_)) => b"  asked, agreed",
    }
}

// What came of it.
fn fate_text(fate: Fate) -> &'static [u8]
    ensures { result.now ≡ fate_text fate }
{
    match fate {
        Fate::Signed => b"  signed",
        Fate::Refused => b"  refused",
        Fate::HelperRefused => b"  refused by the helper",
        Fate::HelperLost => b"  refused, the helper was lost",
        Fate::Left => b"  client left",
        Fate::Open => b"  no answer yet",
    }
}

// The end of a line, from the user's consent on.
fn put_end(out: &mut Vec<u8>, told: &Told) -> Result<(), AllocError>
    ensures { OnOk result (out.new.items ≡ out.old.items ++ end_text told.now) }
{
    out.extend_from_slice(consent_text(told.course.raised, told.course.put))?;
    out.extend_from_slice(fate_text(told.fate))?;
    out.push(b'\n')?;
    Ok(())
}

// The same from the key on.
fn put_signer(alloc: Global, out: &mut Vec<u8>, told: &Told) -> Result<(), AllocError>
    ensures { OnOk result (out.new.items ≡ out.old.items ++ signer_text told.now) }
{
    out.extend_from_slice(b"  key")?;
    put_comment(out, &told.comment)?;
    out.push(b' ')?;
    put_key(alloc, out, told.blob.as_slice())?;
    put_end(out, told)
}

/// Appends the line of a signing request. Refused memory may leave a front of it.
#[tactic(auto, unfolding(crate::specs::Lines::told_line))]
pub fn put_told(alloc: Global, out: &mut Vec<u8>, told: &Told) -> Result<(), AllocError>
    ensures { OnOk result (out.new.items ≡ out.old.items ++ told_line told.now) }
{
    put_second(out, told.wall)?;
    out.extend_from_slice(b"  ")?;
    put_message(alloc, out, told.message.as_slice(), told.blob.as_slice())?;
    put_signer(alloc, out, told)
}
