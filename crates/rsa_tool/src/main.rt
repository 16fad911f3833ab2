//! Signatures and verifications for the lines of a file, for the scripts that test and measure
//! `rsa_sign` and `rsa_verify` as they are built.
#![tactic(auto)]

use rsa_sign::{Key, sign};
use rsa_verify::{Hash, verify};
use std::rt::Files;
use std::{env, fs, io};

/// The answer to a line.
#[derive(Drop)]
enum Answer {
    Signature(Vec<u8>),
    Verdict(bool),
    Refused,
    NotALine,
}

fn main(rt: HostRuntime) -> io::Result<()> {
    let mut words = env::args(&rt)?.skip(1);
    let Some(file) = words.next() else {
        return Err(io::ErrorKind::InvalidInput.into());
    };
    answer_lines(&rt, file.as_str())
}

/// A line of answer for each line of the file.
fn answer_lines(rt: &(impl Files + AllocGlobal + Print), file: &str) -> io::Result<()> {
    let text = fs::read_to_string(rt, file)?;
    for line in text.lines() {
        let answer = answer_of(rt, line)?;
        say(rt, &answer)?;
    }
    Ok(())
}

/// Prints an answer, in hexadecimal or in words.
fn say(rt: &(impl AllocGlobal + Print), answer: &Answer) -> io::Result<()> {
    match answer {
        Answer::Signature(signature) => println!(rt; "{}", hex::encode(rt.alloc(), signature)?),
        Answer::Verdict(holds) => println!(rt; "{holds}"),
        Answer::Refused => println!(rt; "refused"),
        Answer::NotALine => println!(rt; "not a line"),
    }
}

/// The answer to one line: `sign HASH N E D P Q IQMP MESSAGE` or `verify HASH N E SIGNATURE MESSAGE`,
/// in hexadecimal but for E, where an empty message is left out.
fn answer_of(rt: &impl AllocGlobal, line: &str) -> io::Result<Answer> {
    let mut words = line.split_whitespace();
    let verb = words.next().unwrap_or("");
    let hash = hash_of(words.next().unwrap_or(""));
    let modulus = bytes_of(rt, words.next().unwrap_or(""))?;
    let e = words.next().unwrap_or("").parse::<u64>().ok();
    let first = bytes_of(rt, words.next().unwrap_or(""))?;
    let second = bytes_of(rt, words.next().unwrap_or(""))?;
    let third = bytes_of(rt, words.next().unwrap_or(""))?;
    let fourth = bytes_of(rt, words.next().unwrap_or(""))?;
    let message = bytes_of(rt, words.next().unwrap_or(""))?;
    let (Some(hash), Some(e)) = (hash, e) else {
        return Ok(Answer::NotALine);
    };
    match verb {
        "sign" => {
            let key = Key {
                modulus: &modulus,
                e,
                d: &first,
                p: &second,
                q: &third,
                iqmp: &fourth,
            };
            sign_answer(rt, &key, hash, &message)
        }
        "verify" => Ok(Answer::Verdict(verify(rt.alloc(), &modulus, e, hash, &second, &first)?)),
        _ => Ok(Answer::NotALine),
    }
}

/// The signature of a message, where the key makes one.
fn sign_answer(
    rt: &impl AllocGlobal,
    key: &Key<'_>,
    hash: Hash,
    message: &[u8],
) -> io::Result<Answer> {
    Ok(match sign(rt.alloc(), key, hash, message)? {
        Some(signature) => Answer::Signature(signature),
        None => Answer::Refused,
    })
}

/// The hash of this name.
fn hash_of(word: &str) -> Option<Hash> {
    match word {
        "sha1" => Some(Hash::Sha1),
        "sha256" => Some(Hash::Sha256),
        "sha512" => Some(Hash::Sha512),
        _ => None,
    }
}

/// Any bytes in hexadecimal, none of other words.
fn bytes_of(rt: &impl AllocGlobal, word: &str) -> io::Result<Vec<u8>> {
    match hex::decode(rt.alloc(), word) {
        Ok(bytes) => Ok(bytes),
        Err(hex::FromHexError::OutOfMemory) => Err(io::ErrorKind::OutOfMemory.into()),
        Err(_) => Ok(Vec::new(rt.alloc())),
    }
}
