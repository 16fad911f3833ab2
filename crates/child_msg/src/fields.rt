//! The head of a body, appended to a buffer in which room was made.

ghost use Rattle.std.specs.Prelude.{◌≡◌, ◌+◌, ◌≤◌, ◌∷◌, ◌++◌};
ghost use Rattle.secret_buf.specs.Buffers.{KeepsRoom};
ghost use Rattle.wire_text.specs.Wire.{uint64};

use secret_buf::ScrubBuf;

/// Appends a kind and a number: the head of every body. Takes no memory.
#[tactic(auto, unfolding(wire_text::specs::Wire::uint64))]
pub fn push_head(out: &mut ScrubBuf, kind: u8, number: u64)
    requires { 9 ≤ out.old.spare }
    ensures live { out.new.live ≡ out.old.live ++ kind ∷ uint64 number }
    ensures spare { out.new.spare + 9 ≡ out.old.spare }
    ensures keeps_room { KeepsRoom out.old out.new }
{
    out.push_reserved([kind].as_slice());
    out.push_reserved(number.to_be_bytes().as_slice());
}
