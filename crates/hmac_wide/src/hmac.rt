//! HMAC of a key and a message.

ghost use Rattle.std.specs.Prelude.{◌≡◌, ◌≤◌, length};
ghost use Rattle.hmac_core.specs.Hmac.{keyed};
ghost use Rattle.hmac_wide.specs.Hmac.{filled, hmac};
ghost use Rattle.sha2.specs.Sha512.{sha384, sha512};

use crate::block::{BLOCK, add_block};
use sha2::{Digest, Sha384, Sha512};

const INNER_PAD: u8 = 0x36;

const OUTER_PAD: u8 = 0x5c;

/// HMAC-SHA-384, for a key and a message of any length.
pub fn hmac_sha384(key: &[u8], message: &[u8]) -> [u8; 48]
    ensures { result ≡ hmac sha384 key.now message.now }
{
    if key.len() > BLOCK {
        let hashed = Sha384::digest(key);
        keyed_sha384(&hashed, message)
    } else {
        keyed_sha384(key, message)
    }
}

/// HMAC-SHA-512, for a key and a message of any length.
pub fn hmac_sha512(key: &[u8], message: &[u8]) -> [u8; 64]
    ensures { result ≡ hmac sha512 key.now message.now }
{
    if key.len() > BLOCK {
        let hashed = Sha512::digest(key);
        keyed_sha512(&hashed, message)
    } else {
        keyed_sha512(key, message)
    }
}

// HMAC-SHA-384 under a key of at most a block.
fn keyed_sha384(key: &[u8], message: &[u8]) -> [u8; 48]
    requires { length key.now ≤ BLOCK }
    ensures { result ≡ keyed sha384 (filled key.now) message.now }
{
    let mut inner = Sha384::new();
    add_block(&mut inner, key, INNER_PAD);
    inner.update(message);
    let inner_digest = inner.finalize();
    let mut outer = Sha384::new();
    add_block(&mut outer, key, OUTER_PAD);
    outer.update(inner_digest.as_slice());
    outer.finalize()
}

// HMAC-SHA-512 under a key of at most a block.
fn keyed_sha512(key: &[u8], message: &[u8]) -> [u8; 64]
    requires { length key.now ≤ BLOCK }
    ensures { result ≡ keyed sha512 (filled key.now) message.now }
{
    let mut inner = Sha512::new();
    add_block(&mut inner, key, INNER_PAD);
    inner.update(message);
    let inner_digest = inner.finalize();
    let mut outer = Sha512::new();
    add_block(&mut outer, key, OUTER_PAD);
    outer.update(inner_digest.as_slice());
    outer.finalize()
}
