//! Requests to sign.

/// A request to sign with the key that it brings.
#[derive(Clone, Copy)]
pub struct Request<'a> {
    pub ask: u64,
    pub private: &'a [u8],
    pub blob: &'a [u8],
    pub message: &'a [u8],
    pub flags: u32,
}
