//! A helper behind in memory, which replies from a list and keeps what it was asked.

ghost use Rattle.std.specs.Prelude.{◌≡◌, [], Some};

use crate::behind::{Exchange, HelperBehind};
use frame_core::LONGEST_BODY;
use plain_lists::Bytes;
use secret_buf::ScrubBuf;
use std::alloc::{AllocError, Global};

/// What replies from a list, in order, whatever it is asked, and keeps what it was asked.
#[derive(Drop)]
pub struct ListBehind {
    // The last one comes next.
    replies: Vec<Option<Bytes>>,
    made: Vec<Exchange>,
    given_up: u64,
}

impl ListBehind {
    /// There is no reply where the list has none, or one of more bytes than a reply may have, and where it
    /// has ended.
    pub fn new(alloc: Global, mut replies: Vec<Option<Bytes>>) -> ListBehind
        ensures { result.made.items ≡ [] }
    {
        replies.reverse();
        ListBehind {
            replies,
            made: Vec::new(alloc),
            given_up: 0,
        }
    }

    /// What it was asked so far.
    pub fn made(&self) -> &[Exchange]
        ensures { result.now ≡ self.now.made.items }
    {
        &self.made
    }
}

impl HelperBehind for ListBehind {
    ghost seen = { λ s. Some s.made.items };

    ghost given_up = { λ s. s.given_up };

    fn ask(&mut self, alloc: Global, request: &[u8]) -> Result<Option<ScrubBuf>, AllocError> {
        let request = Bytes::from_vec(Vec::from_slice(alloc, request)?);
        if let Some(Some(reply)) = self.replies.pop() {
            if reply.as_slice().len() <= LONGEST_BODY as usize {
                let mut body = ScrubBuf::new(alloc);
                body.push_slice(reply.as_slice())?;
                self.made.push(Exchange {
                    request,
                    reply: Some(reply),
                })?;
                return Ok(Some(body));
            }
        }
        self.made.push(Exchange {
            request,
            reply: None,
        })?;
        Ok(None)
    }

    fn give_up(&mut self) {
        self.given_up = self.given_up.saturating_add(1);
    }
}
