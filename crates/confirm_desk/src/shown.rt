//! Texts as they are shown: at most so many bytes of them, in printable ASCII.

ghost use Rattle.std.specs.Prelude.{◌≡◌, ◌++◌, IfOk, map, take};
ghost use Rattle.confirm_desk.specs.Prompt.{shown_byte, shown_text};

use std::alloc::AllocError;

/// Appends the first bytes of this name or comment, `most` at most, as they are shown.
pub fn push_shown(text: &mut Vec<u8>, name: &[u8], most: usize) -> Result<(), AllocError>
    ensures { IfOk result (λ _. text.new.items ≡ text.old.items ++ shown_text most name.now) }
{
    push_bytes(text, shown_part(name, most))
}

// As much as is shown.
fn shown_part(name: &[u8], most: usize) -> &[u8]
    ensures { result.now ≡ take most name.now }
{
    if name.len() < most {
        name
    } else {
        &name[..most]
    }
}

// Appends the bytes as they are shown.
fn push_bytes(text: &mut Vec<u8>, bytes: &[u8]) -> Result<(), AllocError>
    ensures { IfOk result (λ _. text.new.items ≡ text.old.items ++ map shown_byte bytes.now) }
{
    for byte in bytes {
        text.push(shown(*byte))?;
    }
    Ok(())
}

// A byte as it is shown.
fn shown(byte: u8) -> u8
    ensures { result ≡ shown_byte byte }
{
    if (32..=126).contains(&byte) {
        byte
    } else {
        b'?'
    }
}
