//! HMAC of a key and a message.

ghost use Rattle.std.specs.Prelude.{◌≡◌, ◌≤◌, length};
ghost use Rattle.hmac_core.specs.Hmac.{filled, hmac, keyed};
ghost use Rattle.sha1.specs.Sha1.{sha1};
ghost use Rattle.sha2.specs.Sha256.{sha256};

use crate::block::{BLOCK, add_block};
use sha1::Sha1;
use sha2::{Digest, Sha256};

const INNER_PAD: u8 = 0x36;

const OUTER_PAD: u8 = 0x5c;

/// HMAC-SHA-256, for a key and a message of any length.
pub fn hmac_sha256(key: &[u8], message: &[u8]) -> [u8; 32]
    ensures { result ≡ hmac sha256 key.now message.now }
{
    if key.len() > BLOCK {
        let hashed = Sha256::digest(key);
        keyed_sha256(&hashed, message)
    } else {
        keyed_sha256(key, message)
    }
}

/// HMAC-SHA-1, for a key and a message of any length.
pub fn hmac_sha1(key: &[u8], message: &[u8]) -> [u8; 20]
    ensures { result ≡ hmac sha1 key.now message.now }
{
    if key.len() > BLOCK {
        let hashed = Sha1::digest(key);
        keyed_sha1(&hashed, message)
    } else {
        keyed_sha1(key, message)
    }
}

// HMAC-SHA-256 under a key of at most a block.
fn keyed_sha256(key: &[u8], message: &[u8]) -> [u8; 32]
    requires { length key.now ≤ BLOCK }
    ensures { result ≡ keyed sha256 (filled key.now) message.now }
{
    let mut inner = Sha256::new();
    add_block(&mut inner, key, INNER_PAD);
    inner.update(message);
    let inner_digest = inner.finalize();
    let mut outer = Sha256::new();
    add_block(&mut outer, key, OUTER_PAD);
    outer.update(inner_digest.as_slice());
    outer.finalize()
}

// HMAC-SHA-1 under a key of at most a block.
fn keyed_sha1(key: &[u8], message: &[u8]) -> [u8; 20]
    requires { length key.now ≤ BLOCK }
    ensures { result ≡ keyed sha1 (filled key.now) message.now }
{
    let mut inner = Sha1::new();
    add_block(&mut inner, key, INNER_PAD);
    inner.update(message);
    let inner_digest = inner.finalize();
    let mut outer = Sha1::new();
    add_block(&mut outer, key, OUTER_PAD);
    outer.update(&inner_digest);
    outer.finalize()
}
