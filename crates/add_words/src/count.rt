//! Reads how often a key may be used: a decimal number from 1 to 2^32 - 1 (ours).

ghost use Rattle.std.specs.Prelude.{◌≡◌};
ghost use Rattle.add_words.specs.Counts.{count_of};

/// Reads a count: decimal digits without leading zeros, from 1 to 2^32 - 1.
pub fn read_count(word: &str) -> Option<u32>
    ensures { result ≡ count_of word.now }
{
    match word.as_bytes() {
        [b'1'..=b'9', ..] => word.parse().ok(),
        _ => None,
    }
}
