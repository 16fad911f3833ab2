//! The answers over P-384.

use crate::answer::Answer;
use hex::FromHex;
use p384_ecdsa::{BaseTable, public_key, sign_checked, verify};
use std::io;

/// The answer to a line's words: `key` and a private key; `sign`, a private and a public key;
/// `verify`, a public key and a signature.
pub(crate) fn answer_of(
    rt: &impl AllocGlobal,
    table: &BaseTable,
    verb: &str,
    first: &str,
    second: &str,
    message: &[u8],
) -> io::Result<Answer> {
    match verb {
        "key" => key_answer(rt, table, first),
        "sign" => sign_answer(rt, table, first, second, message),
        "verify" => Ok(verify_answer(table, first, second, message)),
        _ => Ok(Answer::NotALine),
    }
}

/// The public key of a private key.
fn key_answer(rt: &impl AllocGlobal, table: &BaseTable, private: &str) -> io::Result<Answer> {
    match private_of(private) {
        Some(private) => match public_key(table, &private) {
            Some(key) => Ok(Answer::Bytes(hex::encode(rt.alloc(), &key)?)),
            None => Ok(Answer::Refused),
        },
        None => Ok(Answer::NotALine),
    }
}

/// The signature of a message under a private key.
fn sign_answer(
    rt: &impl AllocGlobal,
    table: &BaseTable,
    private: &str,
    public: &str,
    message: &[u8],
) -> io::Result<Answer> {
    match (private_of(private), public_of(public)) {
        (Some(private), Some(public)) => match sign_checked(table, &private, &public, message) {
            Some(signature) => Ok(Answer::Bytes(hex::encode(rt.alloc(), &signature)?)),
            None => Ok(Answer::Refused),
        },
        _ => Ok(Answer::NotALine),
    }
}

/// Whether a signature is right.
fn verify_answer(table: &BaseTable, public: &str, signature: &str, message: &[u8]) -> Answer {
    match (public_of(public), signature_of(signature)) {
        (Some(public), Some(signature)) => {
            Answer::Verdict(verify(table, &public, message, &signature))
        }
        _ => Answer::NotALine,
    }
}

/// 48 bytes in hexadecimal.
fn private_of(word: &str) -> Option<[u8; 48]> {
    <[u8; 48] as FromHex>::from_hex(word).ok()
}

/// 97 bytes in hexadecimal.
fn public_of(word: &str) -> Option<[u8; 97]> {
    <[u8; 97] as FromHex>::from_hex(word).ok()
}

/// 96 bytes in hexadecimal.
fn signature_of(word: &str) -> Option<[u8; 96]> {
    <[u8; 96] as FromHex>::from_hex(word).ok()
}
