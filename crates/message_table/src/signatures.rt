//! What is signed for a file.

use base64::engine::general_purpose::STANDARD;
use bstr::ByteSlice;
use sshsig_blob::{SignedData, read_sshsig};
use std::alloc::Global;

/// The parts of what is signed, or the first fault.
pub(crate) fn read(alloc: Global, message: &[u8]) -> Option<String> {
    match read_sshsig(message) {
        Ok(signed) => said(alloc, &signed),
        Err(fault) => format!(in alloc; "{fault:?}").ok(),
    }
}

fn said(alloc: Global, signed: &SignedData<'_>) -> Option<String> {
    let digest = STANDARD.encode(alloc, signed.digest).ok()?;
    format!(in alloc;
        "namespace '{}' reserved '{}' {} base64:{digest}",
        signed.namespace.escape_bytes(),
        signed.reserved.escape_bytes(),
        signed.hash_algorithm.escape_bytes()
    )
    .ok()
}
