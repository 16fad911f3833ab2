//! Takes the filter's words apart: the list, the agent behind, its own path, and purposes.

ghost use Rattle.std.specs.Prelude.{◌≡◌, option_map};
ghost use Rattle.filter_top.specs.Program.{asked_in, asked_of, texts_of};

/// What the words say.
#[derive(Clone, Copy)]
pub struct Words<'a> {
    /// The file of the public keys.
    pub list: &'a str,
    /// The path of the agent behind the filter.
    pub upstream: &'a str,
    /// Where the filter is to listen.
    pub path: &'a str,
    /// A word for each purpose that signatures may be for, and none where they may be for any.
    pub purposes: &'a [String],
}

// Reads `LIST UPSTREAM PATH [PURPOSE ...]`.
pub fn read_words(words: &[String]) -> Option<Words<'_>>
    ensures { option_map asked_of result ≡ asked_in (texts_of words.now) }
{
    match words {
        [list, upstream, path, purposes @ ..] => Some(Words {
            list: list.as_str(),
            upstream: upstream.as_str(),
            path: path.as_str(),
            purposes,
        }),
        _ => None,
    }
}
