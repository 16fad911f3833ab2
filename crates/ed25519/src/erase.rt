//! Signs, then puts zeros over the stack and public numbers into the registers that it used.

ghost use Rattle.std.specs.Prelude.{◌≡◌, ◌≢◌, length, MatchOption};
ghost use Rattle.ed25519.specs.Keys.{public_key};
ghost use Rattle.ed25519.specs.Signatures.{signature};

use crate::sign::sign_checked;
use curve25519::{Addend, Point};
use curve25519_multiples::BaseTable;

// Several times what the calls below `sign_checked` take of the stack, in bytes.
const DEPTH: usize = 16384;

// A descriptor that no file has, so that the system refuses to write and does nothing else.
const NO_FILE: i32 = -1;

/// `sign_checked` for a seed of 32 bytes that lies on the heap. Then it puts zeros over the stack
/// below its caller, where signing had the seed, its hash, the secret scalar and the nonce, and
/// public numbers into the registers. It takes no memory. That nothing stays isn't proved.
#[inline(never)]
pub fn sign_erased(
    table: &BaseTable,
    seed: &[u8],
    public: &[u8; 32],
    message: &[u8],
) -> Option<[u8; 64]>
    requires { length seed.now ≡ 32 }
    ensures { MatchOption result (public.now ≢ public_key seed.now)
        (λ s. (public.now ≡ public_key seed.now) × (s ≡ signature seed.now message.now)) }
{
    // It is called at two places: Rattle's own compiler inlines a function that is called at one, and
    // what this one leaves would lie in a frame that is in use while the stack is cleared.
    let signature = if message.is_empty() {
        sign_with_copy(table, seed, public, &[])
    } else {
        sign_with_copy(table, seed, public, message)
    };
    use_registers();
    clear_stack();
    signature
}

// Signs with a copy of the seed, in a frame of its own. Once it is zero the copy is handed to the
// system, which reads it for all that the compiler knows, so that the zeros are written.
#[inline(never)]
fn sign_with_copy(
    table: &BaseTable,
    seed: &[u8],
    public: &[u8; 32],
    message: &[u8],
) -> Option<[u8; 64]>
    requires { length seed.now ≡ 32 }
    ensures { MatchOption result (public.now ≢ public_key seed.now)
        (λ s. (public.now ≡ public_key seed.now) × (s ≡ signature seed.now message.now)) }
{
    let mut key = [0u8; 32];
    key.copy_from_slice(seed);
    let signature = sign_checked(table, &key, public, message);
    key.fill(0);
    libc::write(NO_FILE, &key);
    signature
}

// Puts numbers that are public into the registers that multiplications use: a sum of points.
#[inline(never)]
fn use_registers() -> isize {
    let base = Point::base();
    let point = base.add(&Addend::of(&base));
    libc::write(NO_FILE, &point.encode().to_bytes())
}

// Puts zeros where the calls before this one had their variables.
#[inline(never)]
fn clear_stack() -> isize {
    let room = [0u8; DEPTH];
    libc::write(NO_FILE, &room)
}
