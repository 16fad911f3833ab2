//! Bytes on the heap that never grow, and are zero when they are given up.

ghost use Rattle.std.specs.Prelude.{◌≡◌, ◌+◌, ◌≤◌, [], ◌++◌, IfOk, drop, length, replicate, slice_range};
ghost use Rattle.secret_buf.specs.Buffers.{cleared, overwritten, IsWiped};

use std::alloc::{AllocError, Global};
use std::marker::Model;

/// Bytes on the heap, which only `give_up` frees.
///
/// It has no `Drop`, so each value has to be moved or given up. The `Vec` is never grown: a growing
/// `Vec` is moved by the C library's `realloc`, which leaves the old block's bytes as they are.
pub struct Storage {
    bytes: Vec<u8>,
}

impl Model for Storage {
    ghost use Rattle.std.specs.Prelude.{List, ℕ};

    ghost Value = { List ℕ };

    ghost view = { λ storage. storage.bytes.items };
}

impl Storage {
    pub fn empty(alloc: Global) -> Storage
        ensures { result ≡ [] }
    {
        Storage {
            bytes: Vec::new(alloc),
        }
    }

    pub fn zeros(alloc: Global, size: usize) -> Result<Storage, AllocError>
        ensures { IfOk result (λ storage. storage ≡ replicate size 0) }
    {
        let mut bytes = Vec::with_capacity(alloc, size)?;
        bytes.resize(size, 0)?;
        Ok(Storage { bytes })
    }

    pub fn from_slice(alloc: Global, bytes: &[u8]) -> Result<Storage, AllocError>
        ensures { IfOk result (λ storage. storage ≡ bytes.now) }
    {
        let bytes = Vec::from_slice(alloc, bytes)?;
        Ok(Storage { bytes })
    }

    pub fn allocator(&self) -> Global {
        *self.bytes.allocator()
    }

    pub fn len(&self) -> usize
        ensures { result ≡ length self.now }
    {
        self.bytes.len()
    }

    pub fn as_slice(&self) -> &[u8]
        ensures { result.now ≡ self.now }
    {
        self.bytes.as_slice()
    }

    /// Writes `bytes` over those from `at` on.
    pub fn write(&mut self, at: usize, bytes: &[u8])
        requires { at + length bytes.now ≤ length self.old }
        ensures { self.new ≡ overwritten self.old at bytes.now }
    {
        self.bytes[at..at + bytes.len()].copy_from_slice(bytes);
    }

    /// Sets the bytes from `start` to `end` to zero.
    pub fn clear(&mut self, start: usize, end: usize)
        requires ordered { start ≤ end }
        requires within { end ≤ length self.old }
        ensures { self.new ≡ cleared self.old start end }
    {
        self.bytes[start..end].fill(0);
    }

    /// Moves the bytes from `start` to `end` to the front, and sets those from there to `end` to
    /// zero.
    pub fn move_to_front(&mut self, start: usize, end: usize)
        requires ordered { start ≤ end }
        requires within { end ≤ length self.old }
        ensures { self.new
            ≡ slice_range self.old start end ++ replicate start 0 ++ drop end self.old }
    {
        self.bytes.copy_within(start..end, 0);
        self.bytes[end - start..end].fill(0);
    }

    /// Frees the bytes, each of which is zero.
    pub fn give_up(self)
        requires { IsWiped self }
    {
        let Storage { bytes: _ } = self;
    }
}
