//! A comma list of patterns.

ghost use Rattle.std.specs.Prelude.{◌≡◌, ◌↔◌, IsTrue};
ghost use Rattle.pattern_core.specs.PatternLists.{MatchesList, lowered, is_negated, accepts_host, rejects_host, some_element};

use crate::case::Case;
use crate::pattern::matches_in;

/// Whether the comma list takes in the host: some pattern does, and none that `!` stands before.
///
/// The letters A to Z are read as a to z on both sides. An empty pattern takes in the empty host alone,
/// and an empty list is one empty pattern.
pub fn list_matches(host: &[u8], patterns: &[u8]) -> bool
    ensures { IsTrue result ↔ MatchesList host.now patterns.now }
{
    some_accepts(host, patterns) && !some_rejects(host, patterns)
}

// Whether some element isn't negated and takes in the host.
fn some_accepts(host: &[u8], patterns: &[u8]) -> bool
    ensures { result ≡ some_element (accepts_host (lowered host.now)) patterns.now }
{
    patterns
        .split(|byte| *byte == b',')
        .any(|element| accepts(host, element))
}

// Whether some element is negated and its pattern takes in the host.
fn some_rejects(host: &[u8], patterns: &[u8]) -> bool
    ensures { result ≡ some_element (rejects_host (lowered host.now)) patterns.now }
{
    patterns
        .split(|byte| *byte == b',')
        .any(|element| rejects(host, element))
}

// Whether the element isn't negated and takes in the host.
fn accepts(host: &[u8], element: &[u8]) -> bool
    ensures { result ≡ accepts_host (lowered host.now) (lowered element.now) }
{
    !begins_with_bang(element) && matches_in(Case::Lowered, host, element)
}

// Whether the element is negated and its pattern takes in the host.
fn rejects(host: &[u8], element: &[u8]) -> bool
    ensures { result ≡ rejects_host (lowered host.now) (lowered element.now) }
{
    begins_with_bang(element) && matches_in(Case::Lowered, host, &element[1..])
}

// Whether the element is negated.
fn begins_with_bang(element: &[u8]) -> bool
    ensures { result ≡ is_negated (lowered element.now) }
{
    !element.is_empty() && element[0] == b'!'
}
