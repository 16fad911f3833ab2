//! Zeros over what a signature was made of, before its memory is given back.

ghost use Rattle.std.specs.Prelude.{◌≡◌, length, replicate};

/// Sets words to 0.
#[inline(never)]
pub(crate) fn wipe(words: &mut [u64])
    ensures { words.new ≡ replicate (length words.old) 0 }
{
    words.fill(0);
}

/// Sets octets to 0.
#[inline(never)]
pub(crate) fn wipe_octets(octets: &mut [u8])
    ensures { octets.new ≡ replicate (length octets.old) 0 }
{
    octets.fill(0);
}
