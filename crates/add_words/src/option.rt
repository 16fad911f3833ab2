//! The options of ssh-add(1): what a word is that is no value of the word before it.

ghost use Rattle.std.specs.Prelude.{◌≡◌};
ghost use Rattle.add_words.specs.Options.{option_of};

use crate::command::Command;

/// What follows a word that wants a value.
#[derive(Clone, Copy, Debug, PartialEq, Eq)]
pub enum Wanted {
    Life,
    Uses,
    Destination,
    Hosts,
    Purpose,
}

/// What a word is that is no value of the word before it.
#[derive(Clone, Copy, Debug, PartialEq, Eq)]
pub enum Word {
    /// An option that says what is to be done.
    Does(Command),
    /// `-c`
    Confirm,
    /// An option with a value, the next word.
    Wants(Wanted),
    /// `--`, behind which all words are files.
    Ends,
    /// A word that begins with `-` and is no option.
    Unknown,
    File,
}

/// What the word is.
#[tactic(auto, unfolding(crate::specs::Options::option_of))]
pub fn option_of(word: &str) -> Word
    ensures { result ≡ option_of word.now }
{
    match word {
        "-l" => Word::Does(Command::List),
        "-L" => Word::Does(Command::ListKeys),
        "-d" => Word::Does(Command::Remove),
        "-D" => Word::Does(Command::RemoveAll),
        "-x" => Word::Does(Command::Lock),
        "-X" => Word::Does(Command::Unlock),
        "-c" => Word::Confirm,
        "-t" => Word::Wants(Wanted::Life),
        "-u" => Word::Wants(Wanted::Uses),
        "-h" => Word::Wants(Wanted::Destination),
        "-H" => Word::Wants(Wanted::Hosts),
        "-p" => Word::Wants(Wanted::Purpose),
        "--" => Word::Ends,
        _ if word.as_bytes().starts_with(b"-") => Word::Unknown,
        _ => Word::File,
    }
}
