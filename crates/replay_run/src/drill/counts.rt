//! What clients took, and what the helper is asked.

ghost use Rattle.std.specs.Prelude.{◌≡◌, ◌+◌, ◌∷◌, ◌<◌, [], IfOk, IfSome, OnOk, MatchOption, length};
ghost use Rattle.wire_text.specs.Bounds.{longest_to_child};
ghost use Rattle.wire_text.specs.Frames.{split, then_split, unsplit};
ghost use Rattle.child_msg.specs.Reading.{to_child_of};
ghost use Rattle.replay_run.specs.Drill.{ask_of, last_ask};
ghost use Rattle.replay_run.specs.Drilling.{counts_with, no_counts};

use child_msg::{LONGEST_TO_CHILD, ToChild, read_to_child};
use frame_core::{Front, first};
use std::alloc::AllocError;
use std::marker::Model;

/// How many replies of each kind clients took.
#[derive(Drop)]
pub struct Counts {
    pub successes: u64,
    pub failures: u64,
    pub lists: u64,
    pub signatures: u64,
}

impl Model for Counts {
    ghost use Rattle.replay_run.specs.Drill.{Tally};

    ghost Value = { Tally };

    ghost view = { λ c. record {
      successes = c.successes;
      failures = c.failures;
      lists = c.lists;
      signatures = c.signatures;
    } };
}

// The body of the frame in front, and what follows it.
fn first_frame(bytes: &[u8]) -> Option<(&[u8], &[u8])>
    ensures split { MatchOption result
        (split longest_to_child bytes.now ≡ unsplit bytes.now)
        (λ frame. split longest_to_child bytes.now
        ≡ then_split (frame.0.now ∷ []) (split longest_to_child frame.1.now)) }
    ensures smaller { IfSome result (λ frame. length frame.1.now < length bytes.now) }
{
    match first(bytes, LONGEST_TO_CHILD) {
        Front::Whole { body, rest } => Some((body, rest)),
        Front::Bad { .. } => None,
        Front::More => None,
    }
}

// One more. No agent answers so often that the number ends.
fn next(count: u64) -> Result<u64, AllocError>
    ensures { IfOk result (λ next. next ≡ count + 1) }
{
    count.checked_add(1).ok_or(AllocError)
}

impl Counts {
    pub fn new() -> Self
        ensures { result ≡ no_counts }
    {
        Counts {
            successes: 0,
            failures: 0,
            lists: 0,
            signatures: 0,
        }
    }

    // Counts a reply by its number.
    fn count(&mut self, body: &[u8]) -> Result<(), AllocError>
        ensures { OnOk result (self.new ≡ counts_with (body.now ∷ []) self.old) }
    {
        match body {
            [5, ..] => self.failures = next(self.failures)?,
            [6, ..] => self.successes = next(self.successes)?,
            [12, ..] => self.lists = next(self.lists)?,
            [14, ..] => self.signatures = next(self.signatures)?,
            _ => {}
        }
        Ok(())
    }

    /// Counts the whole replies at the front of these bytes.
    pub fn count_replies(&mut self, bytes: &[u8]) -> Result<(), AllocError>
        ensures { OnOk result (self.new ≡ counts_with (split longest_to_child bytes.now).bodies self.old) }
    {
        let mut rest = bytes;
        'frames: while let Some((body, after)) = first_frame(rest) {
            self.count(body)?;
            rest = after;
        }
        Ok(())
    }
}

// The ask of a message to the helper, or the one before it where it is no request to sign.
fn ask_in(body: &[u8], before: Option<u64>) -> Option<u64>
    ensures { result ≡ ask_of (to_child_of body.now) before }
{
    match read_to_child(body) {
        Ok(ToChild::Sign { ask, .. }) => Some(ask),
        Ok(ToChild::Verify { .. }) => before,
        Ok(ToChild::Confirm { .. }) => before,
        Err(_) => before,
    }
}

/// The last ask to sign among the whole messages at the front of these bytes, or the one before them.
pub fn last_ask_in(bytes: &[u8], before: Option<u64>) -> Option<u64>
    ensures { result ≡ last_ask (split longest_to_child bytes.now).bodies before }
{
    let mut rest = bytes;
    let mut ask = before;
    'frames: while let Some((body, after)) = first_frame(rest) {
        ask = ask_in(body, ask);
        rest = after;
    }
    ask
}
