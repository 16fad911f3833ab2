//! What the child process says of the user.

ghost use Rattle.std.specs.Prelude.{◌≡◌};
ghost use Rattle.child_msg.specs.Reading.{from_child_of};
ghost use Rattle.confirm_desk.specs.Confirmations.{consent, consent_in};
ghost use Rattle.confirm_desk.specs.Answers.{consent_told};

use child_msg::{FromChild, read_from_child};
use frame_core::{Front, LONGEST_BODY, first};

/// The user's answer.
#[derive(Clone, Copy, PartialEq, Eq)]
pub enum Answer {
    NotYet,
    Yes,
    No,
}

/// What the bytes say that the child process of this job sent. Takes no memory.
#[tactic(auto, unfolding(crate::specs::Confirmations::consent))]
pub fn consent_of(job: u64, heard: &[u8]) -> Answer
    ensures { consent_told result ≡ consent job heard.now }
{
    match first(heard, LONGEST_BODY) {
        Front::Whole { body, .. } => consent_in_body(job, body),
        Front::Bad { .. } => Answer::No,
        Front::More => Answer::NotYet,
    }
}

// All but GRANTED for the job itself is a no.
fn consent_in_body(job: u64, body: &[u8]) -> Answer
    ensures { consent_told result ≡ consent_in job (from_child_of body.now) }
{
    match read_from_child(body) {
        Ok(FromChild::Granted { job: other }) => {
            if job == other {
                Answer::Yes
            } else {
                Answer::No
            }
        }
        Ok(FromChild::Denied { .. }) => Answer::No,
        Ok(FromChild::Hello { .. }) => Answer::No,
        Ok(FromChild::Signed { .. }) => Answer::No,
        Ok(FromChild::Refused { .. }) => Answer::No,
        Ok(FromChild::True { .. }) => Answer::No,
        Ok(FromChild::False { .. }) => Answer::No,
        Err(_) => Answer::No,
    }
}
