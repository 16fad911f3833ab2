//! Takes whole frames out of what a client sent, and appends them without their secrets.

ghost use Rattle.std.specs.Prelude.{◌≡◌, ◌++◌, Err, IfOk, OnOk, false, true};
ghost use Rattle.wire_text.specs.Bounds.{longest_body};
ghost use Rattle.wire_text.specs.Frames.{Whole, after_front, front, front_body, split};
ghost use Rattle.wire_text.specs.Wire.{string};
ghost use Rattle.redact_core.specs.Redaction.{is_over, redacted, redacted_all};
ghost use Rattle.redact_core.specs.declared.fault.RedactFault.TheVariants.{Full};
ghost use Rattle.record_world.specs.Frames.{ends_badly, rest_bytes};

use frame_core::{LONGEST_BODY, Look, front_body, look};
use redact_core::{Passphrases, RedactFault, redact_body};
use secret_buf::ScrubBuf;

/// The storage of longer bodies isn't kept for the next one, in bytes.
const LONG: usize = 4096;

/// Takes out the whole frames in front, and appends them without their secrets to `leaving`, and the
/// first four bytes of a bad length behind them. Tells whether there is one.
#[tactic(auto, using(crate::proofs::FrameLemmas::goes_first, crate::proofs::FrameLemmas::frame_next, crate::proofs::FrameLemmas::frame_there, crate::proofs::FrameLemmas::fewer_left, crate::proofs::FrameLemmas::bad_within, crate::proofs::FrameLemmas::bad_says, crate::proofs::FrameLemmas::bad_rest, crate::proofs::FrameLemmas::bad_passphrases, crate::proofs::FrameLemmas::bad_text, crate::proofs::FrameLemmas::more_says, crate::proofs::FrameLemmas::more_rest, crate::proofs::FrameLemmas::more_passphrases, crate::proofs::FrameLemmas::more_text))]
pub fn take_frames(
    unrecorded: &mut ScrubBuf,
    passphrases: &mut Passphrases,
    leaving: &mut Vec<u8>,
) -> Result<bool, RedactFault>
    ensures bad { IfOk result (λ is_bad. is_bad
        ≡ ends_badly (front longest_body (split longest_body unrecorded.old.live).rest)) }
    ensures rest { OnOk result (unrecorded.new.live ≡ (split longest_body unrecorded.old.live).rest) }
    ensures passphrases { OnOk result (passphrases.new
        ≡ (redacted_all (split longest_body unrecorded.old.live).bodies passphrases.old).passphrases) }
    ensures leaving { OnOk result (leaving.new.items ≡ leaving.old.items
        ++ (redacted_all (split longest_body unrecorded.old.live).bodies passphrases.old).body
        ++ rest_bytes (front longest_body (split longest_body unrecorded.old.live).rest)
        (split longest_body unrecorded.old.live).rest) }
    ensures full { result ≡ Err Full → is_over (redacted_all (split longest_body unrecorded.old.live).bodies
        passphrases.old).passphrases ≡ true }
    ensures fits { OnOk result (is_over passphrases.old ≡ false → is_over passphrases.new ≡ false) }
{
    'frames: loop {
        match look(unrecorded.live(), LONGEST_BODY) {
            Look::Whole { body } => take_frame(unrecorded, body, passphrases, leaving)?,
            Look::Bad { .. } => {
                leaving.extend_from_slice(&unrecorded.live()[..4])?;
                return Ok(true);
            }
            Look::More => return Ok(false),
        }
    }
}

// Takes out the frame in front, and with the last byte the storage that a long one took.
#[tactic(auto, using(wire_text::proofs::FrontLemmas::whole_within, wire_text::proofs::FrontLemmas::body_within))]
fn take_frame(
    unrecorded: &mut ScrubBuf,
    body_len: u32,
    passphrases: &mut Passphrases,
    leaving: &mut Vec<u8>,
) -> Result<(), RedactFault>
    requires { front longest_body unrecorded.old.live ≡ Whole body_len }
    ensures rest { OnOk result (unrecorded.new.live ≡ after_front body_len unrecorded.old.live) }
    ensures passphrases { OnOk result (passphrases.new
        ≡ (redacted (front_body body_len unrecorded.old.live) passphrases.old).passphrases) }
    ensures leaving { OnOk result (leaving.new.items ≡ leaving.old.items
        ++ string (redacted (front_body body_len unrecorded.old.live) passphrases.old).body) }
    ensures full { result ≡ Err Full → is_over (redacted (front_body body_len unrecorded.old.live)
        passphrases.old).passphrases ≡ true }
    ensures fits { OnOk result (is_over passphrases.old ≡ false → is_over passphrases.new ≡ false) }
{
    let size = 4 + body_len as usize;
    redact_body(
        front_body(unrecorded.live(), body_len),
        passphrases,
        leaving,
    )?;
    unrecorded.consume(size);
    if size > LONG && unrecorded.live().is_empty() {
        unrecorded.wipe();
    }
    Ok(())
}
