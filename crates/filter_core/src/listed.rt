//! What a filter lets be used.

use crate::blobs::Blobs;
use key_purposes::Purpose;

/// What a filter lets be used.
#[derive(Drop)]
pub struct Listed {
    /// The keys that may be used, by their blobs.
    pub blobs: Blobs,
    /// What each of them may sign for, and `None` for any message.
    pub purposes: Option<Vec<Purpose>>,
}
