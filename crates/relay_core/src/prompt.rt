//! Reads the prompt from the agent's request, if it is for this job and plain.

ghost use Rattle.std.specs.Prelude.{◌≡◌, option_map};
ghost use Rattle.relay_core.specs.Prompts.{is_plain, is_plain_byte, prompt_of, shown_for};

use child_msg::{ToChild, read_to_child};
use std::str;

/// The prompt of a body that asks for this job by a plain prompt.
pub fn read_prompt(job: u64, body: &[u8]) -> Option<&str>
    ensures { option_map (λ prompt. prompt.now) result ≡ prompt_of job body.now }
{
    match read_to_child(body) {
        Ok(
            ToChild::Confirm {
                job: number,
                prompt,
            },
        ) => shown(job, number, prompt),
        Ok(ToChild::Sign { .. }) => None,
        Ok(ToChild::Verify { .. }) => None,
        Err(_) => None,
    }
}

// The prompt of a request of this number, where it is the job's and is plain.
fn shown(job: u64, number: u64, prompt: &[u8]) -> Option<&str>
    ensures { option_map (λ prompt. prompt.now) result ≡ shown_for job number prompt.now }
{
    if number != job {
        return None;
    }
    if !is_plain(prompt) {
        return None;
    }
    str::from_utf8(prompt).ok()
}

fn is_plain(prompt: &[u8]) -> bool
    ensures { result ≡ is_plain prompt.now }
{
    prompt
        .iter()
        .all(|byte| *byte == b'\n' || (b' '..=b'~').contains(byte))
}
