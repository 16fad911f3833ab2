//! Public keys, signatures and verifications for the lines of a file, for the scripts that test and
//! measure `ed25519` as it is built.
#![tactic(auto)]

use ed25519::{BaseTable, public_key, sign_checked, verify};
use hex::FromHex;
use std::rt::Files;
use std::{env, fs, io};

/// The answer to a line.
#[derive(Drop)]
enum Answer {
    Key([u8; 32]),
    Signature([u8; 64]),
    Verdict(bool),
    Refused,
    NotALine,
}

fn main(rt: HostRuntime) -> io::Result<()> {
    let mut words = env::args(&rt)?.skip(1);
    let Some(file) = words.next() else {
        return Err(io::ErrorKind::InvalidInput.into());
    };
    answer_lines(&rt, file.as_str())
}

/// A line of answer for each line of the file.
fn answer_lines(rt: &(impl Files + AllocGlobal + Print), file: &str) -> io::Result<()> {
    let table = BaseTable::new(rt.alloc())?;
    let text = fs::read_to_string(rt, file)?;
    for line in text.lines() {
        let answer = answer_of(rt, &table, line)?;
        say(rt, &answer)?;
    }
    Ok(())
}

/// Prints an answer, in hexadecimal or in words.
fn say(rt: &(impl AllocGlobal + Print), answer: &Answer) -> io::Result<()> {
    match answer {
        Answer::Key(key) => println!(rt; "{}", hex::encode(rt.alloc(), key)?),
        Answer::Signature(signature) => println!(rt; "{}", hex::encode(rt.alloc(), signature)?),
        Answer::Verdict(holds) => println!(rt; "{holds}"),
        Answer::Refused => println!(rt; "refused"),
        Answer::NotALine => println!(rt; "not a line"),
    }
}

/// The answer to one line: `key SEED`, `sign SEED PUBLIC MESSAGE` or `verify PUBLIC SIGNATURE
/// MESSAGE`, in hexadecimal, where an empty message is left out.
fn answer_of(rt: &impl AllocGlobal, table: &BaseTable, line: &str) -> io::Result<Answer> {
    let mut words = line.split_whitespace();
    let verb = words.next().unwrap_or("");
    let first = words.next().unwrap_or("");
    let second = words.next().unwrap_or("");
    let Some(message) = bytes_of(rt, words.next().unwrap_or(""))? else {
        return Ok(Answer::NotALine);
    };
    Ok(match verb {
        "key" => key_answer(table, first),
        "sign" => sign_answer(table, first, second, &message),
        "verify" => verify_answer(table, first, second, &message),
        _ => Answer::NotALine,
    })
}

/// The public key of a seed.
fn key_answer(table: &BaseTable, seed: &str) -> Answer {
    match key_of(seed) {
        Some(seed) => Answer::Key(public_key(table, &seed)),
        None => Answer::NotALine,
    }
}

/// The signature of a message under a seed.
fn sign_answer(table: &BaseTable, seed: &str, public: &str, message: &[u8]) -> Answer {
    match (key_of(seed), key_of(public)) {
        (Some(seed), Some(public)) => match sign_checked(table, &seed, &public, message) {
            Some(signature) => Answer::Signature(signature),
            None => Answer::Refused,
        },
        _ => Answer::NotALine,
    }
}

/// Whether a signature is right.
fn verify_answer(table: &BaseTable, public: &str, signature: &str, message: &[u8]) -> Answer {
    match (key_of(public), signature_of(signature)) {
        (Some(public), Some(signature)) => {
            Answer::Verdict(verify(table, &public, message, &signature))
        }
        _ => Answer::NotALine,
    }
}

/// 32 bytes in hexadecimal.
fn key_of(word: &str) -> Option<[u8; 32]> {
    <[u8; 32] as FromHex>::from_hex(word).ok()
}

/// 64 bytes in hexadecimal.
fn signature_of(word: &str) -> Option<[u8; 64]> {
    <[u8; 64] as FromHex>::from_hex(word).ok()
}

/// Any bytes in hexadecimal.
fn bytes_of(rt: &impl AllocGlobal, word: &str) -> io::Result<Option<Vec<u8>>> {
    match hex::decode(rt.alloc(), word) {
        Ok(bytes) => Ok(Some(bytes)),
        Err(hex::FromHexError::OutOfMemory) => Err(io::ErrorKind::OutOfMemory.into()),
        Err(_) => Ok(None),
    }
}
