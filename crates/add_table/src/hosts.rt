//! The keys that a file of known hosts has for a host.

use crate::given::unescaped;
use base64::engine::general_purpose::STANDARD;
use constraint_rec::KeySpec;
use known_hosts::host_keys;
use std::alloc::{AllocError, Global};
use std::io;

/// Each key of a host, and whether it is an authority's.
pub(crate) fn say_found(rt: &HostRuntime, hosts: &[u8], host: &str) -> io::Result<()> {
    let said = said_found(rt.alloc(), hosts, host)?;
    println!(rt; "{said}")
}

fn said_found(alloc: Global, hosts: &[u8], host: &str) -> Result<String, AllocError> {
    let keys = host_keys(alloc, hosts, host.as_bytes())?;
    let mut said = String::from_str(alloc, "keys:")?;
    for key in &keys {
        push_key(alloc, &mut said, key)?;
    }
    Ok(said)
}

fn push_key(alloc: Global, said: &mut String, key: &KeySpec) -> Result<(), AllocError> {
    said.push_str(if key.authority { " authority " } else { " " })?;
    STANDARD.encode_string(key.blob.as_slice(), said)
}
