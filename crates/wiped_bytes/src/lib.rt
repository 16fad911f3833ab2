//! Bytes of a fixed length on the heap that are set to zero before they are given back.
#![tactic(auto)]

ghost use Rattle.std.specs.Prelude.{◌≡◌, ◌≤◌, IfOk, length, replicate, take};
ghost use Rattle.std.specs.Borrow.{sem};
ghost use Rattle.secret_buf.specs.Buffers.{IsWiped};
ghost use Rattle.wiped_bytes.specs.Lending.{LendsBytes};

use std::alloc::{AllocError, Global};
use std::marker::Model;

/// Bytes on the heap that are set to zero before they are given back.
///
/// The `Vec` is never grown: a growing one is moved by the C library's `realloc`, which leaves the
/// old block's bytes as they are.
pub struct WipedBytes {
    bytes: Vec<u8>,
}

impl Model for WipedBytes {
    ghost use Rattle.std.specs.Prelude.{List, ℕ};

    ghost Value = { List ℕ };

    ghost view = { λ wiped. wiped.bytes.items };
}

impl WipedBytes {
    /// So many zeros.
    pub fn zeros(alloc: Global, len: usize) -> Result<WipedBytes, AllocError>
        ensures value { IfOk result (λ zeros. zeros ≡ replicate len 0) }
        ensures wiped { IfOk result (λ zeros. IsWiped zeros) }
    {
        let bytes = vec![in alloc; 0u8; len]?;
        Ok(WipedBytes { bytes })
    }

    /// The bytes of `bytes`, which the caller did not grow in place of a secret.
    pub fn from_vec(bytes: Vec<u8>) -> WipedBytes
        ensures { result ≡ bytes.items }
    {
        WipedBytes { bytes }
    }

    pub fn len(&self) -> usize
        ensures { result ≡ length self.now }
    {
        self.bytes.len()
    }

    pub fn as_slice(&self) -> &[u8]
        ensures { result.now ≡ self.now }
    {
        self.bytes.as_slice()
    }

    pub fn as_mut_slice(&mut self) -> &mut [u8]
        ensures* writes_back { sem 𝓛 (LendsBytes self.entry result) }
        ensures value { result.now ≡ self.old }
    {
        self.bytes.as_mut_slice()
    }

    /// Hands on the first `len` bytes, in memory that is zero behind them.
    pub fn into_front(self, len: usize) -> Vec<u8>
        requires { len ≤ length self }
        ensures { result.items ≡ take len self }
    {
        let WipedBytes { mut bytes } = self;
        bytes[len..].fill(0);
        bytes.truncate(len);
        bytes
    }
}

impl Drop for WipedBytes {
    // What asks something before it is dropped can't be given to `forget`, or to any other call
    // that drops or leaks what it is given.
    fn drop(self)
        requires { self ≡ self }
    {
        let WipedBytes { mut bytes } = self;
        bytes.as_mut_slice().fill(0);
        give_back(bytes);
    }
}

// Gives back memory that holds nothing any more.
fn give_back(bytes: Vec<u8>)
    requires { IsWiped bytes.items }
{
    drop(bytes);
}
