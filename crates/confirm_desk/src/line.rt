//! The third line of the question: what a key with purposes is to sign a message for.

ghost use Rattle.std.specs.Prelude.{◌≡◌, ◌++◌, IfOk, codes, decimal, length};
ghost use Rattle.std.specs.Option.{option_map};
ghost use Rattle.key_purposes.specs.Messages.{use_of};
ghost use Rattle.confirm_desk.specs.Prompt.{of_bytes, purpose_line, shown_text, to_host};

use crate::shown::push_shown;
use itoa::Buffer;
use key_purposes::{Use, use_of};
use std::alloc::AllocError;

/// How much is shown of a user, of a host and of a namespace (ours).
const MAX_NAME: usize = 64;

/// Appends what the key of this blob is to sign the message for: a login goes to this host, where that is known.
pub fn push_line(
    text: &mut Vec<u8>,
    blob: &[u8],
    host: Option<&[u8]>,
    message: &[u8],
) -> Result<(), AllocError>
    ensures { IfOk result (λ _. text.new.items ≡ text.old.items ++ purpose_line
        (option_map (λ name. name.now) host.entry) (use_of message.now blob.now) (length message.now)) }
{
    let len = message.len();
    match use_of(message, blob) {
        Use::Authentication(login) => push_login(text, login.user, host),
        Use::FileIn(namespace) => push_namespace(text, namespace),
        Use::Certificate => push_size(text, b"For a certificate of ", len),
        Use::MayLogIn => push_size(text, b"For what may be a login, of ", len),
        Use::OtherData => push_size(text, b"For other data of ", len),
    }
}

// Appends the line of a login of this user, to this host where that is known.
fn push_login(text: &mut Vec<u8>, user: &[u8], host: Option<&[u8]>) -> Result<(), AllocError>
    ensures { IfOk result (λ _. text.new.items ≡ text.old.items ++ (codes "For a login as "
        ++ (shown_text 64 user.now ++ (to_host (option_map (λ name. name.now) host.entry) ++ codes ".")))) }
{
    text.extend_from_slice(b"For a login as ")?;
    push_shown(text, user, MAX_NAME)?;
    push_host(text, host)?;
    text.push(b'.')?;
    Ok(())
}

// Appends to which host a login goes, where that is known.
fn push_host(text: &mut Vec<u8>, host: Option<&[u8]>) -> Result<(), AllocError>
    ensures { IfOk result (λ _. text.new.items
        ≡ text.old.items ++ to_host (option_map (λ name. name.now) host.entry)) }
{
    match host {
        None => Ok(()),
        Some(name) => push_to(text, name),
    }
}

// Appends that a login goes to this host.
fn push_to(text: &mut Vec<u8>, name: &[u8]) -> Result<(), AllocError>
    ensures { IfOk result (λ _. text.new.items ≡ text.old.items ++ (codes " to " ++ shown_text 64 name.now)) }
{
    text.extend_from_slice(b" to ")?;
    push_shown(text, name, MAX_NAME)
}

// Appends the line of a file in this namespace.
fn push_namespace(text: &mut Vec<u8>, namespace: &[u8]) -> Result<(), AllocError>
    ensures { IfOk result (λ _. text.new.items ≡ text.old.items
        ++ (codes "For a signature in namespace " ++ (shown_text 64 namespace.now ++ codes "."))) }
{
    text.extend_from_slice(b"For a signature in namespace ")?;
    push_shown(text, namespace, MAX_NAME)?;
    text.push(b'.')?;
    Ok(())
}

// Appends these words, and then so many bytes.
fn push_size(text: &mut Vec<u8>, words: &[u8], len: usize) -> Result<(), AllocError>
    ensures { IfOk result (λ _. text.new.items ≡ text.old.items ++ (words.now ++ of_bytes len)) }
{
    text.extend_from_slice(words)?;
    push_number(text, len)?;
    text.extend_from_slice(b" bytes.")?;
    Ok(())
}

// Appends a number in decimal.
fn push_number(text: &mut Vec<u8>, number: usize) -> Result<(), AllocError>
    ensures { IfOk result (λ _. text.new.items ≡ text.old.items ++ decimal number) }
{
    let mut digits = Buffer::new();
    text.extend_from_slice(digits.format(number).as_bytes())?;
    Ok(())
}
