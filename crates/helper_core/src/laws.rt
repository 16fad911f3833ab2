//! Laws of specs/Transcript.antt.

ghost use Rattle.std.specs.Prelude.{ℕ, List};
ghost use Rattle.helper_core.specs.Laws.{AreFirst, SendsAnswers, for_behind, requests_of};
ghost use Rattle.helper_core.specs.Routes.{Route};
ghost use Rattle.helper_core.specs.Transcript.{Replies, served};
ghost use Rattle.wire_text.specs.Bounds.{longest_to_child};
ghost use Rattle.wire_text.specs.Frames.{split};

/// What is sent is answers to the first bodies of the stream, one to each, in their order.
pub fn answers_are_in_order()
    ensures { (route : List ℕ → Route) (replies : Replies) (stream : List ℕ)
        → SendsAnswers route (split longest_to_child stream).bodies (served route replies stream).sent }
{}

/// What is handed on is the first of the bodies whose route says so, each once, unchanged, in their order.
pub fn what_is_handed_on()
    ensures { (route : List ℕ → Route) (replies : Replies) (stream : List ℕ)
        → AreFirst (requests_of (served route replies stream).handed)
        (for_behind route (split longest_to_child stream).bodies) }
{}
