//! The words that choose an agent's settings: a lifetime, and how long a question to the user may stay open.

ghost use Rattle.std.specs.Prelude.{◌≡◌, codes, map, option_map, string_bytes};
ghost use Rattle.std.specs.Str.{bytes_eq};
ghost use Rattle.agent_core.specs.Parts.{settings_of};
ghost use Rattle.replay_run.specs.Choices.{limit_chosen, limit_of, lived_with, served_with, settings_in, settings_with, some_seconds};

use crate::limits::{ASK_LIMIT, CONFIRM_LIMIT};
use agent_core::Settings;
use world_ports::read_life;

/// The settings of an agent that is served: where no limit of a question is chosen, the usual one.
pub fn served_settings(life: Option<u32>, confirm_limit: Option<u32>) -> Settings
    ensures { settings_of result ≡ served_with life confirm_limit }
{
    Settings {
        default_life: life,
        ask_limit: Some(ASK_LIMIT),
        confirm_limit: Some(confirm_limit.unwrap_or(CONFIRM_LIMIT)),
    }
}

// A number of seconds is not 0.
fn some(seconds: u32) -> Option<u32>
    ensures { result ≡ some_seconds seconds }
{
    match seconds {
        0 => None,
        _ => Some(seconds),
    }
}

// The limit that a word says.
fn read_limit(word: &str) -> Option<u32>
    ensures { result ≡ limit_of word.now }
{
    some(read_life(word.as_bytes())?)
}

// Whether the next word says a limit.
fn names_limit(word: &str) -> bool
    ensures { result ≡ bytes_eq word.now (codes "--confirm-limit") }
{
    word == "--confirm-limit"
}

// Reads `--confirm-limit SECONDS`, or no words.
fn read_chosen(words: &[String]) -> Option<Option<u32>>
    ensures { result ≡ limit_chosen (map string_bytes words.now) }
{
    match words {
        [] => Some(None),
        [name, seconds] => {
            if !names_limit(name.as_str()) {
                return None;
            }
            Some(Some(read_limit(seconds.as_str())?))
        }
        _ => None,
    }
}

/// Reads `--confirm-limit SECONDS` or no words, beside a lifetime.
pub fn read_with(life: Option<u32>, words: &[String]) -> Option<Settings>
    ensures { option_map settings_of result ≡ settings_with life (map string_bytes words.now) }
{
    let limit = read_chosen(words)?;
    Some(served_settings(life, limit))
}

/// The same beside a word that says the lifetime, of which 0 stands for none.
pub fn read_lived(life: &str, words: &[String]) -> Option<Settings>
    ensures { option_map settings_of result ≡ lived_with life.now (map string_bytes words.now) }
{
    let seconds = read_life(life.as_bytes())?;
    read_with(some(seconds), words)
}

/// Reads `LIFE`, `--confirm-limit SECONDS`, both in this order, or no words.
pub fn read_settings(words: &[String]) -> Option<Settings>
    ensures { option_map settings_of result ≡ settings_in (map string_bytes words.now) }
{
    match words {
        [] => read_with(None, words),
        [_, _] => read_with(None, words),
        [life, further @ ..] => read_lived(life.as_str(), further),
    }
}
