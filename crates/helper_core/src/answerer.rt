//! What answers requests, or leaves them to the helper behind.

use crate::asked::Asked;
use secret_buf::ScrubBuf;
use std::alloc::AllocError;

/// What became of a body.
#[derive(Clone, Copy, Debug, PartialEq, Eq)]
pub enum Routed {
    /// It is answered: the frame of the answer was appended.
    Answered,
    /// The helper behind is to answer it.
    HandedOn(Asked),
    /// It is no request to a helper.
    NoRequest,
}

/// What answers requests, or says that the helper behind is to.
pub trait Answerer {
    ghost use Rattle.std.specs.Prelude.{List, ℕ, IfOk};
    ghost use Rattle.helper_core.specs.Routes.{Route, IsRouted};

    ghost route: { Self → List ℕ → Route };

    /// Appends the frame of the answer to a body, where the body is answered here.
    fn answer(&self, body: &[u8], out: &mut ScrubBuf) -> Result<Routed, AllocError>
        ensures { IfOk result (λ routed. IsRouted routed (Self.route self.now body.now)
            out.old.live out.new.live) };
}
