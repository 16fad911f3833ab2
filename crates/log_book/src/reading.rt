//! Keys, and what is signed by them, in words.

ghost use Rattle.std.specs.Prelude.{◌≡◌, ◌++◌, OnOk};
ghost use Rattle.std.specs.Option.{option_map};
ghost use Rattle.userauth_blob.specs.UserAuths.{login};
ghost use Rattle.log_book.specs.Lines.{bytes_text, comment_text, host_text, key_text, login_text, message_text, namespace_text};

use crate::shown::put_quoted;
use key_blob::{fingerprint, read_public};
use key_purposes::{Use, use_of};
use plain_lists::Bytes;
use schedule_text::put_number;
use std::alloc::{AllocError, Global};
use userauth_blob::UserAuth;

/// Appends the fingerprint of the key of this blob.
#[tactic(auto, unfolding(crate::specs::Lines::key_text))]
pub fn put_key(alloc: Global, out: &mut Vec<u8>, blob: &[u8]) -> Result<(), AllocError>
    ensures { OnOk result (out.new.items ≡ out.old.items ++ key_text blob.now) }
{
    match read_public(blob) {
        Ok(key) => {
            let text = fingerprint(alloc, &key)?;
            out.extend_from_slice(text.as_bytes())
        }
        Err(_) => out.extend_from_slice(b"(no key)"),
    }
}

/// Appends a key's comment, where it is known.
pub fn put_comment(out: &mut Vec<u8>, comment: &Option<Bytes>) -> Result<(), AllocError>
    ensures { OnOk result (out.new.items ≡ out.old.items ++ comment_text comment.now) }
{
    match comment {
        None => Ok(()),
        Some(comment) => {
            out.push(b' ')?;
            put_quoted(out, comment.as_slice())
        }
    }
}

// Appends the host that a login is bound to.
fn put_host(alloc: Global, out: &mut Vec<u8>, host_key: Option<&[u8]>) -> Result<(), AllocError>
    ensures { OnOk result (out.new.items ≡ out.old.items
        ++ host_text (option_map (λ key. key.now) host_key.entry)) }
{
    match host_key {
        None => Ok(()),
        Some(host_key) => {
            out.extend_from_slice(b" to ")?;
            put_key(alloc, out, host_key)
        }
    }
}

// Appends the namespace of a file's signature.
fn put_namespace(out: &mut Vec<u8>, namespace: &[u8]) -> Result<(), AllocError>
    ensures { OnOk result (out.new.items ≡ out.old.items ++ namespace_text namespace.now) }
{
    out.extend_from_slice(b"file in namespace ")?;
    put_quoted(out, namespace)
}

// Appends a number of bytes.
fn put_bytes(out: &mut Vec<u8>, count: usize) -> Result<(), AllocError>
    ensures { OnOk result (out.new.items ≡ out.old.items ++ bytes_text count) }
{
    put_number(out, count as u64)?;
    out.extend_from_slice(b" bytes")
}

// Appends these words, and then a number of bytes.
fn put_size(out: &mut Vec<u8>, words: &[u8], size: usize) -> Result<(), AllocError>
    ensures { OnOk result (out.new.items ≡ out.old.items ++ (words.now ++ bytes_text size)) }
{
    out.extend_from_slice(words)?;
    put_bytes(out, size)
}

// Appends who logs in, and where.
fn put_login(alloc: Global, out: &mut Vec<u8>, auth: &UserAuth<'_>) -> Result<(), AllocError>
    ensures { OnOk result (out.new.items ≡ out.old.items ++ login_text (login auth.now)) }
{
    out.extend_from_slice(b"login as ")?;
    put_quoted(out, auth.user)?;
    put_host(alloc, out, auth.host_key)
}

/// Appends what a message has the key of this blob sign.
#[tactic(auto, unfolding(crate::specs::Lines::message_text))]
pub fn put_message(
    alloc: Global,
    out: &mut Vec<u8>,
    message: &[u8],
    blob: &[u8],
) -> Result<(), AllocError>
    ensures { OnOk result (out.new.items ≡ out.old.items ++ message_text message.now blob.now) }
{
    let size = message.len();
    match use_of(message, blob) {
        Use::Authentication(login) => put_login(alloc, out, &login),
        Use::FileIn(namespace) => put_namespace(out, namespace),
        Use::Certificate => put_size(out, b"certificate, ", size),
        Use::MayLogIn => put_size(out, b"may be a login, ", size),
        Use::OtherData => put_size(out, b"other data, ", size),
    }
}
