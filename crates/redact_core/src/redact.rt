//! A body without its secrets.

ghost use Rattle.std.specs.Prelude.{◌≡◌, ◌≤◌, ◌∷◌, ◌++◌, length, take, true, false, Err, OnOk, OnErr};
ghost use Rattle.wire_text.specs.Bounds.{longest_body};
ghost use Rattle.wire_text.specs.Wire.{string};
ghost use Rattle.redact_core.specs.Redaction.{holds_secrets, is_over, numbered, redacted};
ghost use Rattle.redact_core.specs.declared.fault.RedactFault.TheVariants.{Full, Memory};

use crate::RedactFault;
use crate::addition::put_addition;
use crate::passphrases::{Passphrase, Passphrases};
use agent_msg::{MsgFault, Request, read_request};
use itoa::Buffer;
use std::alloc::AllocError;
use wire_core::{put_string, put_u8, put_u32};

/// Appends the frame of a body without its secrets to `out`, and keeps the passphrase that first
/// comes with it.
///
/// An addition, a lock or an unlock that can't be read is its number alone, and so is a body of a number
/// that isn't served. Where memory is short, or the passphrases would take too much room, nothing changes.
pub fn redact_body(
    body: &[u8],
    passphrases: &mut Passphrases,
    out: &mut Vec<u8>,
) -> Result<(), RedactFault>
    requires short { length body.now ≤ longest_body }

    ensures out { OnOk result (out.new.items
        ≡ out.old.items ++ string (redacted body.now passphrases.old).body) }
    ensures passphrases { OnOk result (passphrases.new
        ≡ (redacted body.now passphrases.old).passphrases) }
    ensures unchanged { OnErr result ((out.new.items ≡ out.old.items)
        × (passphrases.new ≡ passphrases.old)) }
    ensures full { result ≡ Err Full → is_over (redacted body.now passphrases.old).passphrases ≡ true }
    ensures fits { OnOk result (is_over passphrases.old ≡ false
        → is_over (redacted body.now passphrases.old).passphrases ≡ false) }
{
    let start = out.len();
    let done = put_redacted(body, passphrases, out);
    if done.is_err() {
        out.truncate(start);
    }
    done
}

// The same, but that a refused call may have appended bytes.
fn put_redacted(
    body: &[u8],
    passphrases: &mut Passphrases,
    out: &mut Vec<u8>,
) -> Result<(), RedactFault>
    requires short { length body.now ≤ longest_body }

    ensures out { OnOk result (out.new.items
        ≡ out.old.items ++ string (redacted body.now passphrases.old).body) }
    ensures passphrases { OnOk result (passphrases.new
        ≡ (redacted body.now passphrases.old).passphrases) }
    ensures front { OnErr result (take (length out.old.items) out.new.items ≡ out.old.items) }
    ensures kept { OnErr result (passphrases.new ≡ passphrases.old) }
    ensures full { result ≡ Err Full → is_over (redacted body.now passphrases.old).passphrases ≡ true }
    ensures fits { OnOk result (is_over passphrases.old ≡ false
        → is_over (redacted body.now passphrases.old).passphrases ≡ false) }
{
    let Some((&number, bytes)) = body.split_first() else {
        return keep(body, out);
    };
    match read_request(passphrases.allocator(), body) {
        Ok(Request::Add { key, .. }) => {
            let (key, rest) = bytes.split_at(key.private.len());
            put_addition(number, key, rest, out)?;
            Ok(())
        }
        Ok(Request::Lock { passphrase } | Request::Unlock { passphrase }) => {
            put_numbered(number, passphrase, passphrases, out)
        }
        Ok(Request::Unsupported { .. }) => keep(&[number], out),
        Ok(_) => keep(body, out),
        Err(MsgFault::Memory) => Err(RedactFault::Memory),
        Err(_) if holds_secrets(number) => keep(&[number], out),
        Err(_) => keep(body, out),
    }
}

// Appends the frame of a body as it is.
fn keep(body: &[u8], out: &mut Vec<u8>) -> Result<(), RedactFault>
    requires short { length body.now ≤ longest_body }

    ensures out { OnOk result (out.new.items ≡ out.old.items ++ string body.now) }
    ensures front { OnErr result (take (length out.old.items) out.new.items ≡ out.old.items) }
    ensures memory { OnErr result (result ≡ Err Memory) }
{
    put_string(out, body)?;
    Ok(())
}

// Whether this is the number of an addition, a lock or an unlock.
fn holds_secrets(number: u8) -> bool
    ensures { result ≡ holds_secrets number }
{
    matches!(number, 17 | 22 | 23 | 25)
}

// Appends the frame of a lock or an unlock with the passphrase's number, and keeps the passphrase.
fn put_numbered(
    number: u8,
    passphrase: &[u8],
    passphrases: &mut Passphrases,
    out: &mut Vec<u8>,
) -> Result<(), RedactFault>
    ensures out { OnOk result (out.new.items
        ≡ out.old.items ++ string (numbered number passphrase.now passphrases.old).body) }
    ensures passphrases { OnOk result (passphrases.new
        ≡ (numbered number passphrase.now passphrases.old).passphrases) }
    ensures front { OnErr result (take (length out.old.items) out.new.items ≡ out.old.items) }
    ensures kept { OnErr result (passphrases.new ≡ passphrases.old) }
    ensures full { result ≡ Err Full → is_over (numbered number passphrase.now passphrases.old).passphrases ≡ true }
    ensures fits { OnOk result (is_over passphrases.old ≡ false
        → is_over (numbered number passphrase.now passphrases.old).passphrases ≡ false) }
{
    if passphrase.is_empty() {
        put_text(number, &[], out)?;
        return Ok(());
    }
    let passphrase = Passphrase::from_slice(passphrases.allocator(), passphrase)?;
    let mut digits = Buffer::new();
    let digits = digits.format(passphrases.number_of(&passphrase));
    put_text(number, digits.as_bytes(), out)?;
    passphrases.note(passphrase)
}

// Appends the frame of a request that is a text alone.
#[tactic(auto, unfolding(wire_text::specs::Wire::string))]
fn put_text(number: u8, text: &[u8], out: &mut Vec<u8>) -> Result<(), AllocError>
    requires short { length text.now ≤ 40 }

    ensures ok { OnOk result (out.new.items
        ≡ out.old.items ++ string (number ∷ string text.now)) }
    ensures front { OnErr result (take (length out.old.items) out.new.items ≡ out.old.items) }
{
    put_u32(out, 5 + text.len() as u32)?;
    put_u8(out, number)?;
    put_string(out, text)
}
