//! Puts a child process's ticket from the environment into its words.

use std::alloc::{AllocError, AllocGlobal};
use std::env;
use std::env::{Env, VarError};

/// The variable that holds the ticket. Nothing that is started from here is given it.
pub const TICKET: &str = "MORTARLEEK_TICKET";

// The word that stands for it, behind the socket and the job's number.
const PLACE: usize = 2;

const IN_THE_ENVIRONMENT: &str = "-";

/// Puts the ticket from the environment where a `-` stands for it in the words behind the program's name. Other words,
/// and those without a ticket in the environment, stay as they are.
pub fn put_ticket<R: Env + AllocGlobal>(rt: &R, words: &mut [String]) -> Result<(), AllocError> {
    if let Some(word) = words.get_mut(PLACE) {
        if word.as_str() == IN_THE_ENVIRONMENT {
            match env::var(rt, TICKET) {
                Ok(ticket) => *word = ticket,
                Err(VarError::OutOfMemory) => return Err(AllocError),
                Err(_) => {}
            }
        }
    }
    Ok(())
}
