//! Certificates: their parts, the plain keys that they are of, and the hosts for which they are good.

use crate::input::bytes_of;
use crate::keys::{said_fault, shown_key};
use base64::engine::general_purpose::STANDARD;
use bstr::ByteSlice;
use key_blob::{Certificate, PublicKey, algorithm_fits, read_public, valid_for};
use std::alloc::{AllocError, Global};
use std::io;

/// The parts of a certificate, and what `ssh-keygen -l` tells of it.
pub(crate) fn parts(alloc: Global, word: &str) -> io::Result<Option<String>> {
    let blob = bytes_of(alloc, word)?;
    match read_public(&blob) {
        Ok(key) => said_parts(alloc, &key),
        Err(fault) => said_fault(alloc, fault),
    }
}

fn said_parts(alloc: Global, key: &PublicKey<'_>) -> io::Result<Option<String>> {
    let Some(certificate) = &key.certificate else {
        return Ok(None);
    };
    let shown = shown_key(alloc, key)?;
    Ok(Some(said_certificate(alloc, certificate, shown.as_str())?))
}

fn said_certificate(
    alloc: Global,
    certificate: &Certificate<'_>,
    shown: &str,
) -> Result<String, AllocError> {
    let signer = STANDARD.encode(alloc, certificate.signer)?;
    format!(in alloc;
        "type {} for '{}' from {} to {} critical '{}' by base64:{} {}",
        certificate.cert_type,
        certificate.principals.escape_bytes(),
        certificate.after,
        certificate.before,
        certificate.critical.escape_bytes(),
        signer,
        shown
    )
}

/// What a certificate and a plain key have in common, and whether each fits the algorithm of the other's type.
pub(crate) fn beside_plain(alloc: Global, word: &str, plain: &str) -> io::Result<Option<String>> {
    let blob = bytes_of(alloc, word)?;
    let plain = bytes_of(alloc, plain)?;
    match (read_public(&blob), read_public(&plain)) {
        (Ok(key), Ok(plain)) => Ok(Some(said_pair(alloc, &key, &plain)?)),
        _ => Ok(None),
    }
}

fn said_pair(
    alloc: Global,
    key: &PublicKey<'_>,
    plain: &PublicKey<'_>,
) -> Result<String, AllocError> {
    format!(in alloc;
        "kind: {} fields: {} certified: {} fits: {} {}",
        key.kind == plain.kind,
        key.fields == plain.fields,
        plain.certificate.is_some(),
        algorithm_fits(plain, key.type_name),
        algorithm_fits(key, plain.type_name)
    )
}

/// Whether a key signs by each of these algorithms.
pub(crate) fn fitting(alloc: Global, word: &str, names: &str) -> io::Result<Option<String>> {
    let blob = bytes_of(alloc, word)?;
    match read_public(&blob) {
        Ok(key) => Ok(Some(said_fits(alloc, &key, names)?)),
        Err(fault) => said_fault(alloc, fault),
    }
}

fn said_fits(alloc: Global, key: &PublicKey<'_>, names: &str) -> Result<String, AllocError> {
    let mut said = String::from_str(alloc, "fits:")?;
    for name in names.split_whitespace() {
        said.push_str(word_of(algorithm_fits(key, name.as_bytes())))?;
    }
    Ok(said)
}

fn word_of(holds: bool) -> &'static str {
    if holds { " yes" } else { " no" }
}

/// Whether a certificate is good for each of these hosts, `HOST@TIME`, at that time.
pub(crate) fn good_for(alloc: Global, word: &str, hosts: &str) -> io::Result<Option<String>> {
    let blob = bytes_of(alloc, word)?;
    match read_public(&blob) {
        Ok(key) => match &key.certificate {
            Some(certificate) => Ok(Some(said_hosts(alloc, certificate, hosts)?)),
            None => Ok(None),
        },
        Err(fault) => said_fault(alloc, fault),
    }
}

fn said_hosts(
    alloc: Global,
    certificate: &Certificate<'_>,
    hosts: &str,
) -> Result<String, AllocError> {
    let mut said = String::from_str(alloc, "good:")?;
    for pair in hosts.split_whitespace() {
        said.push_str(good_at(certificate, pair))?;
    }
    Ok(said)
}

fn good_at(certificate: &Certificate<'_>, pair: &str) -> &'static str {
    let (host, time) = pair.split_once('@').unwrap_or((pair, ""));
    match time.parse::<u64>() {
        Ok(wall) => word_of(valid_for(certificate, host.as_bytes(), wall)),
        Err(_) => " ?",
    }
}
