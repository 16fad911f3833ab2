//! The lock: a passphrase that is held until it is told again.

ghost use Rattle.std.specs.Prelude.{◌≡◌, ◌≤◌, Some, None, is_some, length};
ghost use Rattle.std.specs.Bool.{OnTrue, OnFalse};
ghost use Rattle.identity_table.specs.Lock.{HasShort, can_lock, can_unlock, longest_passphrase};

use secret_buf::SecretBytes;
use std::marker::Model;

/// The lock of an agent, seen as the passphrase that opens it.
///
/// A passphrase that it gives up is wiped.
#[derive(Drop)]
pub struct Lock {
    passphrase: Option<SecretBytes>,
}

impl Model for Lock {
    ghost use Rattle.std.specs.Prelude.{List, ℕ, Option};
    ghost use Rattle.identity_table.specs.Lock.{HasShort};

    ghost Value = { Option (List ℕ) };

    ghost view = { λ lock. lock.passphrase };

    ghost invariant = { λ lock. HasShort lock.passphrase };
}

impl Lock {
    /// An open lock.
    pub fn new() -> Lock
        ensures { result ≡ None }
    {
        Lock { passphrase: None }
    }

    /// Whether it is locked.
    pub fn is_locked(&self) -> bool
        ensures value { result ≡ is_some self.now }
        ensures short { HasShort self.now }
    {
        self.passphrase.is_some()
    }

    /// Locks it, unless it is locked or the passphrase is empty.
    pub fn lock(&mut self, passphrase: SecretBytes) -> bool
        requires { length passphrase ≤ longest_passphrase }
        ensures value { result ≡ can_lock self.old passphrase }
        ensures locked { OnTrue result (self.new ≡ Some passphrase) }
        ensures unchanged { OnFalse result (self.new ≡ self.old) }
    {
        if self.is_locked() || passphrase.len() == 0 {
            return false;
        }
        self.passphrase = Some(passphrase);
        true
    }

    /// Opens it, where it is locked with this passphrase.
    pub fn unlock(&mut self, passphrase: &[u8]) -> bool
        ensures value { result ≡ can_unlock self.old passphrase.now }
        ensures unlocked { OnTrue result (self.new ≡ None) }
        ensures unchanged { OnFalse result (self.new ≡ self.old) }
    {
        let Some(held) = &self.passphrase else {
            return false;
        };
        if !held.same(passphrase) {
            return false;
        }
        self.passphrase = None;
        true
    }
}
