//! What signs and verifies.

use std::alloc::{AllocError, Global};
use std::cell::OnceCell;

/// What signs and verifies. It holds no key: each request has its own.
#[derive(Drop)]
pub struct SignerKeys {
    pub(crate) alloc: Global,
    // Each is made for the first request of its curve.
    ed25519: OnceCell<ed25519::BaseTable>,
    p256: OnceCell<p256_ecdsa::BaseTable>,
    p384: OnceCell<p384_ecdsa::BaseTable>,
    p521: OnceCell<p521_ecdsa::BaseTable>,
}

impl SignerKeys {
    /// It takes no memory yet.
    pub fn new(alloc: Global) -> SignerKeys {
        SignerKeys {
            alloc,
            ed25519: OnceCell::new(),
            p256: OnceCell::new(),
            p384: OnceCell::new(),
            p521: OnceCell::new(),
        }
    }

    /// The table of Ed25519. Fails for want of memory alone.
    pub(crate) fn ed25519(&self) -> Result<&ed25519::BaseTable, AllocError> {
        self.ed25519
            .get_or_try_init(|| ed25519::BaseTable::new(self.alloc))
    }

    /// The table of P-256. Fails for want of memory alone.
    pub(crate) fn p256(&self) -> Result<&p256_ecdsa::BaseTable, AllocError> {
        self.p256
            .get_or_try_init(|| p256_ecdsa::BaseTable::new(self.alloc))
    }

    /// The table of P-384. Fails for want of memory alone.
    pub(crate) fn p384(&self) -> Result<&p384_ecdsa::BaseTable, AllocError> {
        self.p384
            .get_or_try_init(|| p384_ecdsa::BaseTable::new(self.alloc))
    }

    /// The table of P-521. Fails for want of memory alone.
    pub(crate) fn p521(&self) -> Result<&p521_ecdsa::BaseTable, AllocError> {
        self.p521
            .get_or_try_init(|| p521_ecdsa::BaseTable::new(self.alloc))
    }
}
