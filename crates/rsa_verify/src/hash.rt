//! The hashes of signatures.

/// A hash of RFC 8332, and SHA-1, by which `ssh-rsa` signs (RFC 4253, section 6.6).
#[derive(Drop, Copy, Clone)]
pub enum Hash {
    Sha1,
    Sha256,
    Sha512,
}
