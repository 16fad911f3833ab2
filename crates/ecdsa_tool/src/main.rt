//! Public keys, signatures and verifications for the lines of a file, for the scripts that test and
//! measure the crates of ECDSA as they are built.
#![tactic(auto)]

mod answer;
mod p256;
mod p384;
mod p521;

use crate::answer::Answer;
use std::alloc::{AllocError, Global};
use std::rt::Files;
use std::{env, fs, io};

/// What each curve needs.
#[derive(Drop)]
struct Curves {
    p256: p256_ecdsa::BaseTable,
    p384: p384_ecdsa::BaseTable,
    p521: p521_ecdsa::BaseTable,
}

impl Curves {
    fn new(alloc: Global) -> Result<Curves, AllocError> {
        Ok(Curves {
            p256: p256_ecdsa::BaseTable::new(alloc)?,
            p384: p384_ecdsa::BaseTable::new(alloc)?,
            p521: p521_ecdsa::BaseTable::new(alloc)?,
        })
    }
}

fn main(rt: HostRuntime) -> io::Result<()> {
    let mut words = env::args(&rt)?.skip(1);
    let Some(file) = words.next() else {
        return Err(io::ErrorKind::InvalidInput.into());
    };
    answer_lines(&rt, file.as_str())
}

/// A line of answer for each line of the file.
fn answer_lines(rt: &(impl Files + AllocGlobal + Print), file: &str) -> io::Result<()> {
    let curves = Curves::new(rt.alloc())?;
    let text = fs::read_to_string(rt, file)?;
    for line in text.lines() {
        let answer = answer_of(rt, &curves, line)?;
        say(rt, &answer)?;
    }
    Ok(())
}

/// Prints an answer.
fn say(rt: &impl Print, answer: &Answer) -> io::Result<()> {
    match answer {
        Answer::Bytes(text) => println!(rt; "{text}"),
        Answer::Verdict(holds) => println!(rt; "{holds}"),
        Answer::Refused => println!(rt; "refused"),
        Answer::NotALine => println!(rt; "not a line"),
    }
}

/// The answer to one line: `key CURVE PRIVATE`, `sign CURVE PRIVATE PUBLIC MESSAGE` or `verify CURVE
/// PUBLIC SIGNATURE MESSAGE`, in hexadecimal, where an empty message is left out.
fn answer_of(rt: &impl AllocGlobal, curves: &Curves, line: &str) -> io::Result<Answer> {
    let mut words = line.split_whitespace();
    let verb = words.next().unwrap_or("");
    let curve = words.next().unwrap_or("");
    let first = words.next().unwrap_or("");
    let second = words.next().unwrap_or("");
    let Some(message) = bytes_of(rt, words.next().unwrap_or(""))? else {
        return Ok(Answer::NotALine);
    };
    match curve {
        "p256" => p256::answer_of(rt, &curves.p256, verb, first, second, &message),
        "p384" => p384::answer_of(rt, &curves.p384, verb, first, second, &message),
        "p521" => p521::answer_of(rt, &curves.p521, verb, first, second, &message),
        _ => Ok(Answer::NotALine),
    }
}

/// Any bytes in hexadecimal.
fn bytes_of(rt: &impl AllocGlobal, word: &str) -> io::Result<Option<Vec<u8>>> {
    match hex::decode(rt.alloc(), word) {
        Ok(bytes) => Ok(Some(bytes)),
        Err(hex::FromHexError::OutOfMemory) => Err(io::ErrorKind::OutOfMemory.into()),
        Err(_) => Ok(None),
    }
}
