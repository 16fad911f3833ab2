//! SHA-512 of one text, or of two or three that are taken as one.

ghost use Rattle.std.specs.Prelude.{◌≡◌, ◌++◌};
ghost use Rattle.sha2.specs.Sha512.{sha512};

use sha2::{Digest, Sha512};

pub(crate) fn hash_of(text: &[u8]) -> [u8; 64]
    ensures { result ≡ sha512 text.now }
{
    Sha512::digest(text)
}

pub(crate) fn hash_of_two(first: &[u8], second: &[u8]) -> [u8; 64]
    ensures { result ≡ sha512 (first.now ++ second.now) }
{
    let mut hasher = Sha512::new();
    hasher.update(first);
    hasher.update(second);
    hasher.finalize()
}

pub(crate) fn hash_of_three(first: &[u8], second: &[u8], third: &[u8]) -> [u8; 64]
    ensures { result ≡ sha512 (first.now ++ second.now ++ third.now) }
{
    let mut hasher = Sha512::new();
    hasher.update(first);
    hasher.update(second);
    hasher.update(third);
    hasher.finalize()
}
