//! Asks whether a key may sign at the end of a way over 16 hosts, under constraints that name 961
//! host keys, for `bench/rules.sh`, which takes the time. Proves nothing beyond safety.

use constraint_rec::{Constraint, Hop, KeySpec};
use dest_rule::{Chain, Next, may_sign};
use key_blob::read_public;
use plain_lists::{Bytes, PlainList};
use std::alloc::{AllocError, Global};

/// The hosts on the way.
const HOSTS: u8 = 16;

/// The keys of a hop.
const KEYS: u8 = 31;

/// The blob of an Ed25519 key that two bytes tell from others.
fn blob(alloc: Global, host: u8, key: u8) -> Result<Vec<u8>, AllocError> {
    let mut blob = Vec::new(alloc);
    blob.extend_from_slice(b"\0\0\0\x0bssh-ed25519\0\0\0\x20")?;
    blob.extend_from_slice(&[7; 30])?;
    blob.extend_from_slice(&[host, key])?;
    Ok(blob)
}

/// A hop to the host, whose own key is the last.
fn hop(alloc: Global, host: u8) -> Result<Hop, AllocError> {
    let mut keys = Vec::new(alloc);
    for key in 0..KEYS {
        let blob = Bytes::from_vec(blob(alloc, host, key)?);
        keys.push(KeySpec {
            blob,
            authority: false,
        })?;
    }
    Ok(Hop {
        user: Bytes::new(alloc),
        host: Bytes::from_vec(Vec::from_slice(alloc, b"host.example.org")?),
        keys: PlainList::from_vec(keys),
    })
}

/// The agent's own host.
fn origin(alloc: Global) -> Hop {
    Hop {
        user: Bytes::new(alloc),
        host: Bytes::new(alloc),
        keys: PlainList::new(alloc),
    }
}

/// A constraint for each step of the way.
fn rules(alloc: Global) -> Result<Vec<Constraint>, AllocError> {
    let mut rules = Vec::new(alloc);
    rules.push(Constraint {
        from: origin(alloc),
        to: hop(alloc, 1)?,
    })?;
    for host in 1..HOSTS {
        rules.push(Constraint {
            from: hop(alloc, host)?,
            to: hop(alloc, host + 1)?,
        })?;
    }
    Ok(rules)
}

/// A connection that is bound to each host of the way.
fn chain(alloc: Global) -> Result<Chain, AllocError> {
    let mut chain = Chain::new(alloc);
    for before in 0..HOSTS {
        let host = before + 1;
        let key = blob(alloc, host, KEYS - 1)?;
        if let Next::New = chain.judge(&key, &[host]) {
            if read_public(&key).is_ok() {
                chain.bind(&key, &[host], host < HOSTS)?;
            }
        }
    }
    Ok(chain)
}

/// A login to the last host.
fn message(alloc: Global) -> Result<Vec<u8>, AllocError> {
    let mut message = Vec::new(alloc);
    message.extend_from_slice(&[0, 0, 0, 1, HOSTS])?;
    message.extend_from_slice(b"\x32\0\0\0\x04root\0\0\0\x0essh-connection")?;
    message.extend_from_slice(b"\0\0\0\x23publickey-hostbound-v00@openssh.com\x01")?;
    message.extend_from_slice(b"\0\0\0\x0bssh-ed25519\0\0\0\x33")?;
    message.extend_from_slice(&blob(alloc, 0, 0)?)?;
    message.extend_from_slice(b"\0\0\0\x33")?;
    message.extend_from_slice(&blob(alloc, HOSTS, KEYS - 1)?)?;
    Ok(message)
}

/// How often of so many times the key may sign.
pub fn permitted(alloc: Global, times: u64) -> Result<u64, AllocError> {
    let rules = rules(alloc)?;
    let chain = chain(alloc)?;
    let message = message(alloc)?;
    let key = blob(alloc, 0, 0)?;
    let mut permitted: u64 = 0;
    for _ in 0..times {
        if may_sign(&rules, &key, &chain, &message, 0).is_ok() {
            permitted = permitted.saturating_add(1);
        }
    }
    Ok(permitted)
}
