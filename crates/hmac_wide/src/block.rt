//! The key as a block, fed to a hasher byte by byte.

ghost use Rattle.std.specs.Prelude.{◌≡◌, ◌<◌, ◌≤◌, ℕ, List, [], ◌∷◌, ◌++◌, length, slice_index};
ghost use Rattle.hmac_core.specs.Hmac.{padded};
ghost use Rattle.hmac_wide.specs.Hmac.{filled};
ghost use Rattle.sha2.specs.Hashers.{Holds384, Holds512};

use sha2::{Digest, Sha384, Sha512};

/// The length of a block of SHA-384 and SHA-512 in bytes, B of RFC 2104.
pub const BLOCK: usize = 128;

/// A hasher that takes its message byte by byte.
pub trait ByteHasher {
    // The hasher holds this message.
    ghost holds: { Self → List ℕ → Type 0 };

    /// Adds a byte to the message.
    fn add(&mut self, byte: u8)
        ensures { (message : List ℕ) → holds self.old message
            → holds self.new (message ++ byte ∷ []) };
}

impl ByteHasher for Sha384 {
    ghost holds = { λ hasher message. Holds384 hasher message };

    fn add(&mut self, byte: u8) {
        self.update([byte].as_slice());
    }
}

impl ByteHasher for Sha512 {
    ghost holds = { λ hasher message. Holds512 hasher message };

    fn add(&mut self, byte: u8) {
        self.update([byte].as_slice());
    }
}

/// Adds the key, filled with zeros to a block and each byte XORed with `pad`.
///
/// No block is made in between: the bytes go to the hasher one by one.
pub fn add_block<H: ByteHasher>(hasher: &mut H, key: &[u8], pad: u8)
    requires { length key.now ≤ BLOCK }
    ensures { (message : List ℕ) → H.holds hasher.old message
        → H.holds hasher.new (message ++ padded pad (filled key.now)) }
{
    for place in 0..BLOCK {
        hasher.add(padded_byte(key, place, pad));
    }
}

// The byte at a place of the padded block.
fn padded_byte(key: &[u8], place: usize, pad: u8) -> u8
    requires fits { length key.now ≤ BLOCK }
    requires within { place < BLOCK }
    ensures { result ≡ slice_index (padded pad (filled key.now)) place }
{
    if place < key.len() {
        key[place] ^ pad
    } else {
        pad
    }
}
