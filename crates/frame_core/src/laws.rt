//! What looks find along a stream.

ghost use Rattle.std.specs.Prelude.{◌≡◌, ℕ, ◌^◌, ◌<◌, ◌≤◌, List, ◌++◌, length};
ghost use Rattle.wire_text.specs.Wire.{string};
ghost use Rattle.wire_text.specs.Frames.{front, split, IsBody};
ghost use Rattle.frame_core.specs.declared.outcome.Look.{Look};
ghost use Rattle.frame_core.specs.Looks.{front_of, FindsBody, TellsOfFronts, taken_in_turn};

/// Looks in turn, each at what the one before it left, take the bodies of the stream's split and
/// leave its rest.
///
/// `look_at` stands for calls of `look` under one bound: its clause `exact` says that each tells of
/// the front. As many looks as bytes are enough.
pub fn looks_in_turn_split_the_stream()
    ensures { (max : ℕ) (look_at : List ℕ → Look) (stream : List ℕ) (count : ℕ)
        → TellsOfFronts max look_at stream → length stream ≤ count
        → taken_in_turn count look_at stream ≡ split max stream }
{}

/// A look at a frame that was put gives its body whole, whatever follows, for a body of 1 to `max`
/// bytes.
///
/// `answer` stands for what `look` answers: its clause `exact` says that it tells of the front.
pub fn a_put_frame_is_found_whole()
    ensures { (max : ℕ) (body rest : List ℕ) (answer : Look)
        → max < 2 ^ 32 → IsBody max body
        → front_of answer ≡ front max (string body ++ rest)
        → FindsBody (string body ++ rest) answer body rest }
{}
