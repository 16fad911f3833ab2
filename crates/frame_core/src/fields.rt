//! Fields appended to a buffer in which room was made. None takes memory.

ghost use Rattle.std.specs.Prelude.{◌≡◌, ◌+◌, ◌^◌, ◌<◌, ◌≤◌, ◌++◌, length};
ghost use Rattle.secret_buf.specs.Buffers.{KeepsRoom};
ghost use Rattle.wire_text.specs.Wire.{uint32, string};

use secret_buf::ScrubBuf;

/// Appends a uint32 of RFC 4251, section 5.
#[tactic(auto, unfolding(wire_text::specs::Wire::uint32))]
pub fn push_u32(out: &mut ScrubBuf, value: u32)
    requires { 4 ≤ out.old.spare }
    ensures live { out.new.live ≡ out.old.live ++ uint32 value }
    ensures spare { out.new.spare + 4 ≡ out.old.spare }
    ensures keeps_room { KeepsRoom out.old out.new }
{
    out.push_reserved(&value.to_be_bytes());
}

/// Appends a string of RFC 4251, section 5.
#[tactic(auto, unfolding(wire_text::specs::Wire::string))]
pub fn push_string(out: &mut ScrubBuf, text: &[u8])
    requires fits { length text.now < 2 ^ 32 }
    requires room { 4 + length text.now ≤ out.old.spare }
    ensures live { out.new.live ≡ out.old.live ++ string text.now }
    ensures spare { out.new.spare + (4 + length text.now) ≡ out.old.spare }
    ensures keeps_room { KeepsRoom out.old out.new }
{
    push_u32(out, text.len() as u32);
    out.push_reserved(text);
}
