//! The helper behind this one, to which requests are handed on one at a time.

use plain_lists::Bytes;
use secret_buf::ScrubBuf;
use std::alloc::{AllocError, Global};

/// A request that was handed on, and the body of the reply, where there was one.
#[derive(PartialEq, Eq, Drop)]
pub struct Exchange {
    pub request: Bytes,
    pub reply: Option<Bytes>,
}

/// The helper to which requests are handed on, of which one is under way at a time.
pub trait HelperBehind {
    ghost use Rattle.std.specs.Prelude.{◌≡◌, ◌≤◌, List, ℕ, Option, length, IfOk, IfSome};
    ghost use Rattle.helper_core.specs.declared.behind.Exchange.{Exchange};
    ghost use Rattle.helper_core.specs.Routes.{IsAsked};
    ghost use Rattle.wire_text.specs.Bounds.{longest_body};
    ghost use Rattle.world_ports.specs.Causes.{next_count};

    ghost seen: { Self → Option (List Exchange) };

    // How many helpers were given up, which stays at 2^64 - 1.
    ghost given_up: { Self → ℕ };

    /// Hands a request's body on, and gives the body of what is replied: none where no helper is there,
    /// or where it ends or says nothing for too long. Where memory runs out, the request may have been
    /// handed on.
    fn ask(&mut self, alloc: Global, request: &[u8]) -> Result<Option<ScrubBuf>, AllocError>
        ensures told { IsAsked result request.now (Self.seen self.old) (Self.seen self.new) }
        ensures small { IfOk result (λ reply. IfSome reply (λ body. length body.live ≤ longest_body)) }
        ensures kept { Self.given_up self.new ≡ Self.given_up self.old };

    /// Parts with the helper that is there: its last reply was none to what it was asked.
    fn give_up(&mut self)
        ensures same { Self.seen self.new ≡ Self.seen self.old }
        ensures counted { Self.given_up self.new ≡ next_count (Self.given_up self.old) };
}
