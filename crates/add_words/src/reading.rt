//! Reads all words of ssh-add(1) into a command, its constraints and its files.

ghost use Rattle.std.specs.Prelude.{◌≡◌, ◌⊎◌, IfOk, MatchResult, None, Some, map, string_bytes};
ghost use Rattle.add_words.specs.declared.command.WordsFault.TheVariants.{Memory};
ghost use Rattle.add_words.specs.Counts.{IsCount};
ghost use Rattle.add_words.specs.Given.{given_of, nothing_given};
ghost use Rattle.add_words.specs.Words.{after_words, command_of, goes_with, has_some, is_unconstrained, plain_words, some_life, words_of, words_of_given};

use crate::command::{AddWords, Command, WordsFault};
use crate::given::Given;
use std::alloc::Global;

/// Reads the words behind the program's name, from the left.
///
/// Each option is a word of its own. A word behind `-t`, `-u`, `-h`, `-H` or `-p` is its value, whatever it is;
/// behind `--` all words are files.
pub fn read_words<'a>(alloc: Global, words: &'a [String]) -> Result<AddWords<'a>, WordsFault>
    ensures value { MatchResult result
        (λ read. words_of (map string_bytes words.entry.now) ≡ Some (plain_words read))
        (λ fault. (fault ≡ Memory) ⊎ (words_of (map string_bytes words.entry.now) ≡ None)) }

    // A number of uses is one that a constraint may have.
    ensures uses { IfOk result (λ read. IsCount read.uses) }
{
    let given = read_given(alloc, words)?;
    whole(given)
}

fn read_given<'a>(alloc: Global, words: &'a [String]) -> Result<Given<'a>, WordsFault>
    ensures value { MatchResult result
        (λ given. after_words nothing_given (map string_bytes words.entry.now)
        ≡ Some (given_of given))
        (λ fault. (fault ≡ Memory)
        ⊎ (after_words nothing_given (map string_bytes words.entry.now) ≡ None)) }
    ensures uses { IfOk result (λ given. IsCount given.uses) }
{
    let mut given = Given::new(alloc);
    'words: for word in words {
        given.take(word.as_str())?;
    }
    Ok(given)
}

// What is given, where nothing is missing and all goes together.
fn whole(given: Given<'_>) -> Result<AddWords<'_>, WordsFault>
    requires { IsCount given.uses }
    ensures value { MatchResult result
        (λ read. words_of_given (given_of given.entry) ≡ Some (plain_words read))
        (λ _. words_of_given (given_of given.entry) ≡ None) }
    ensures uses { IfOk result (λ read. IsCount read.uses) }
{
    let command = given.command.unwrap_or(Command::Add);
    if given.wanted.is_some() || !goes_with(command, &given) {
        return Err(WordsFault::Usage);
    }
    let Given {
        confirm,
        life,
        uses,
        destinations,
        hosts,
        purposes,
        files,
        ..
    } = given;
    Ok(AddWords {
        command,
        confirm,
        life: some_life(life),
        uses,
        destinations,
        hosts,
        purposes,
        files,
    })
}

fn some_life(life: Option<u32>) -> Option<u32>
    ensures { result ≡ some_life life }
{
    match life {
        Some(0) => None,
        other => other,
    }
}

fn is_unconstrained(given: &Given<'_>) -> bool
    ensures { result ≡ is_unconstrained (given_of given.now) }
{
    !given.confirm
        && given.life.is_none()
        && given.uses.is_none()
        && given.destinations.is_empty()
        && given.hosts.is_empty()
        && given.purposes.is_empty()
}

fn goes_with(command: Command, given: &Given<'_>) -> bool
    ensures { result ≡ goes_with command (given_of given.now) }
{
    match command {
        Command::Add => {
            !given.files.is_empty() && (given.destinations.is_empty() || !given.hosts.is_empty())
        }
        Command::Remove => !given.files.is_empty() && is_unconstrained(given),
        _ => given.files.is_empty() && is_unconstrained(given),
    }
}
