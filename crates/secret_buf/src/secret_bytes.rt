//! Secret bytes, which no derive copies or prints, and which are wiped when dropped.

ghost use Rattle.std.specs.Prelude.{◌≡◌, ◌↔◌, ◌≤◌, ◌++◌, IfOk, IsOk, IsTrue, OnErr, OnOk, length};
ghost use Rattle.secret_buf.specs.Buffers.{KeepsRoom};

use crate::scrub_buf::ScrubBuf;
use crate::storage::Storage;
use std::alloc::{AllocError, Global};
use std::marker::Model;

/// Bytes that are moved and never copied, printed or compared by derives. Dropping them wipes them.
pub struct SecretBytes {
    storage: Storage,
}

impl Model for SecretBytes {
    ghost use Rattle.std.specs.Prelude.{List, ℕ};

    ghost Value = { List ℕ };

    ghost view = { λ secret. secret.storage };
}

impl SecretBytes {
    /// A copy of `bytes`, which stay as they are.
    pub fn from_slice(alloc: Global, bytes: &[u8]) -> Result<SecretBytes, AllocError>
        ensures { IfOk result (λ secret. secret ≡ bytes.now) }
    {
        let storage = Storage::from_slice(alloc, bytes)?;
        Ok(SecretBytes { storage })
    }

    pub fn len(&self) -> usize
        ensures { result ≡ length self.now }
    {
        self.storage.len()
    }

    /// Whether `bytes` are these bytes. Where they are as many, the code looks at all of them,
    /// whichever differ; that the built program does so is not proved.
    pub fn same(&self, bytes: &[u8]) -> bool
        ensures { IsTrue result ↔ (self.now ≡ bytes.now) }
    {
        is_same(self.storage.as_slice(), bytes)
    }

    /// Appends the bytes to `out`.
    pub fn append_to(&self, out: &mut ScrubBuf) -> Result<(), AllocError>
        ensures ok { OnOk result (out.new.live ≡ out.old.live ++ self.now) }
        ensures err { OnErr result (out.new ≡ out.old) }
        ensures enough { length self.now ≤ out.old.spare → IsOk result }
        ensures keeps_room { KeepsRoom out.old out.new }
    {
        out.push_slice(self.storage.as_slice())
    }

    /// Sets the bytes to zero and frees them.
    pub fn wipe(self) {
        let SecretBytes { mut storage } = self;
        let len = storage.len();
        storage.clear(0, len);
        storage.give_up();
    }
}

impl Drop for SecretBytes {
    // What asks something before it is dropped can't be given to `forget`, or to any other call that
    // drops or leaks what it is given.
    fn drop(self)
        requires { self ≡ self }
    {
        self.wipe();
    }
}

// Whether two slices are equal. Where they are as long, the loop has no early exit, so that the
// time tells nothing of where they differ. No clause says so, and nothing holds a compiler to it.
fn is_same(a: &[u8], b: &[u8]) -> bool
    ensures { IsTrue result ↔ (a.now ≡ b.now) }
{
    if a.len() != b.len() {
        return false;
    }
    let mut same = true;
    for i in 0..a.len() {
        same &= a[i] == b[i];
    }
    same
}
