//! Requests of clients.

use agent_msg::{Request, names_bind, read_request, write_request};
use bstr::ByteSlice;
use secret_buf::ScrubBuf;
use std::alloc::Global;

/// The longest field that is written.
const LONGEST: usize = 1000;

/// What a body asks for, or its first fault.
pub(crate) fn read(alloc: Global, body: &[u8]) -> Option<String> {
    match read_request(alloc, body) {
        Ok(request) => said(alloc, &request),
        Err(fault) => format!(in alloc; "{fault:?}").ok(),
    }
}

/// A request has no `Debug`, since it may hold a private key.
fn said(alloc: Global, request: &Request<'_>) -> Option<String> {
    match request {
        Request::List => String::from_str(alloc, "list").ok(),
        Request::RemoveAll => String::from_str(alloc, "remove all").ok(),
        Request::Sign {
            blob,
            message,
            flags,
        } => said_signing(alloc, blob, message, *flags),
        Request::Add {
            key,
            comment,
            terms,
        } => format!(in alloc;
            "add '{}' comment '{}' life {:?} confirm {} rules {}",
            key.blob.as_slice().escape_bytes(),
            comment.escape_bytes(),
            terms.life,
            terms.confirm,
            terms.rules.len()
        )
        .ok(),
        Request::Remove { blob } => said_text(alloc, "remove", blob),
        Request::Lock { passphrase } => said_text(alloc, "lock", passphrase),
        Request::Unlock { passphrase } => said_text(alloc, "unlock", passphrase),
        Request::Bind {
            host_key,
            session,
            signature,
            forwarding,
        } => said_binding(alloc, host_key, session, signature, *forwarding),
        Request::OtherExtension { name } => said_text(alloc, "extension", name),
        Request::Unsupported { number } => format!(in alloc; "unsupported {number}").ok(),
    }
}

fn said_text(alloc: Global, what: &str, text: &[u8]) -> Option<String> {
    format!(in alloc; "{what} '{}'", text.escape_bytes()).ok()
}

fn said_signing(alloc: Global, blob: &[u8], message: &[u8], flags: u32) -> Option<String> {
    format!(in alloc;
        "sign by '{}' '{}' flags {flags}",
        blob.escape_bytes(),
        message.escape_bytes()
    )
    .ok()
}

fn said_binding(
    alloc: Global,
    host_key: &[u8],
    session: &[u8],
    signature: &[u8],
    forwarding: bool,
) -> Option<String> {
    format!(in alloc;
        "bind to '{}' session '{}' signature '{}' forwarding {forwarding}",
        host_key.escape_bytes(),
        session.escape_bytes(),
        signature.escape_bytes()
    )
    .ok()
}

/// `BODY PRIVATE`: whether the private fields of an addition are these.
pub(crate) fn is_private(alloc: Global, words: &[Vec<u8>]) -> Option<String> {
    let [body, private] = words else {
        return None;
    };
    match read_request(alloc, body) {
        Ok(Request::Add { key, .. }) => { format!(in alloc; "{}", key.private.same(private)).ok() }
        _ => None,
    }
}

/// Whether a body's name is that of a binding.
pub(crate) fn binds(alloc: Global, body: &[u8]) -> Option<String> {
    format!(in alloc; "{}", names_bind(body)).ok()
}

/// `list`, `lock PASSPHRASE` or `remove BLOB`: the frame.
pub(crate) fn written(alloc: Global, words: &[Vec<u8>]) -> Option<String> {
    let (verb, rest) = words.split_first()?;
    let text = match rest {
        [] => &[],
        [text] => text.as_slice(),
        _ => return None,
    };
    frame(alloc, verb, text)
}

fn frame(alloc: Global, verb: &[u8], text: &[u8]) -> Option<String> {
    if text.len() > LONGEST {
        return None;
    }
    let request = match verb {
        b"list" => Request::List,
        b"lock" => Request::Lock { passphrase: text },
        b"remove" => Request::Remove { blob: text },
        _ => return None,
    };
    let mut out = ScrubBuf::new(alloc);
    write_request(alloc, &mut out, &request).ok()?;
    format!(in alloc; "{}", out.live().escape_bytes()).ok()
}
