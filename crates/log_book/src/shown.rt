//! Text that others chose, in quotation marks.

ghost use Rattle.std.specs.Prelude.{◌≡◌, ◌++◌, OnOk, map, take};
ghost use Rattle.log_book.specs.Shown.{quoted, shown_byte};

use std::alloc::AllocError;

/// How much of a text is shown (ours).
const MOST_SHOWN: usize = 256;

// A byte as it is shown.
fn shown(byte: u8) -> u8
    ensures { result ≡ shown_byte byte }
{
    match byte {
        b'"' => b'?',
        32..=126 => byte,
        _ => b'?',
    }
}

// As much of a text as is shown.
fn front_of(text: &[u8]) -> &[u8]
    ensures { result.now ≡ take 256 text.now }
{
    if text.len() < MOST_SHOWN {
        text
    } else {
        &text[..MOST_SHOWN]
    }
}

// Appends the bytes as they are shown.
fn put_shown(out: &mut Vec<u8>, bytes: &[u8]) -> Result<(), AllocError>
    ensures { OnOk result (out.new.items ≡ out.old.items ++ map shown_byte bytes.now) }
{
    for byte in bytes {
        out.push(shown(*byte))?;
    }
    Ok(())
}

/// Appends a text that others chose.
#[tactic(auto, unfolding(crate::specs::Shown::quoted))]
pub fn put_quoted(out: &mut Vec<u8>, text: &[u8]) -> Result<(), AllocError>
    ensures { OnOk result (out.new.items ≡ out.old.items ++ quoted text.now) }
{
    out.push(b'"')?;
    put_shown(out, front_of(text))?;
    out.push(b'"')?;
    Ok(())
}
