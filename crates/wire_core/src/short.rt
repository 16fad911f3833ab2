//! The fault of a field that passes the end of the bytes, with how many it needs and has.

/// Fewer bytes are left than a field needs.
#[derive(Clone, Copy, Debug, PartialEq, Eq)]
pub struct Short {
    /// How many bytes the field needs, as far as the bytes that are there tell.
    pub wanted: u64,
    /// How many bytes are left.
    pub had: u64,
}
