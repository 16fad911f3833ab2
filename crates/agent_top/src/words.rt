//! The words of the command line.

ghost use Rattle.std.specs.Prelude.{◌≡◌, ◌≤◌, IfSome, codes, option_map};
ghost use Rattle.std.specs.Str.{bytes_eq};
ghost use Rattle.agent_core.specs.Parts.{settings_of};
ghost use Rattle.agent_top.specs.Words.{choices, drill_words, replay_settings, rounds_in, texts_of};

use agent_core::Settings;
use replay_run::{read_lived, read_with};
use schedule_text::read_number;

/// Reads `replay` with `-t LIFE`, `--confirm-limit SECONDS`, both in this order or neither: the settings that they
/// choose. `None` for all other words.
pub fn read_replay(words: &[String]) -> Option<Settings>
    ensures { option_map settings_of result ≡ replay_settings (texts_of words.now) }
{
    match words {
        [command, chosen @ ..] => {
            if command.as_str() != "replay" {
                return None;
            }
            read_choices(chosen)
        }
        _ => None,
    }
}

// Whether the next word says a lifetime.
fn names_life(word: &str) -> bool
    ensures { result ≡ bytes_eq word.now (codes "-t") }
{
    word == "-t"
}

// Reads what stands behind the command.
fn read_choices(words: &[String]) -> Option<Settings>
    ensures { option_map settings_of result ≡ choices (texts_of words.now) }
{
    match words {
        [] => read_with(None, words),
        [_] => read_with(None, words),
        [option, life, further @ ..] => {
            if names_life(option.as_str()) {
                return read_lived(life.as_str(), further);
            }
            read_with(None, words)
        }
    }
}

/// The most rounds of a drill (ours).
const MOST_ROUNDS: u64 = 100_000;

/// What the words of the command `drill` say.
#[derive(Clone, Copy, Debug, PartialEq, Eq)]
pub struct DrillWords {
    /// How many requests are made.
    pub rounds: u32,
    /// What they are drawn from.
    pub seed: u64,
}

/// Reads `drill N SEED`: numbers as those of a schedule, and N at most 100000. `None` for all other words.
pub fn read_drill(words: &[String]) -> Option<DrillWords>
    ensures value { option_map (λ w. record { rounds = w.rounds; seed = w.seed }) result
        ≡ drill_words (texts_of words.now) }
    ensures few { IfSome result (λ w. w.rounds ≤ 100000) }
{
    let [command, rounds, seed] = words else {
        return None;
    };
    if command.as_str() != "drill" {
        return None;
    }
    let rounds = rounds_of(rounds.as_bytes())?;
    let seed = read_number(seed.as_bytes())?;
    Some(DrillWords { rounds, seed })
}

// A number of rounds, where it is no more than the most.
fn rounds_of(text: &[u8]) -> Option<u32>
    ensures value { result ≡ rounds_in text.now }
    ensures few { IfSome result (λ rounds. rounds ≤ 100000) }
{
    let rounds = read_number(text)?;
    if rounds > MOST_ROUNDS {
        return None;
    }
    Some(rounds as u32)
}
