//! The words of the audit's command line: the record, its deeds, and what is chosen for its run.

ghost use Rattle.std.specs.Prelude.{◌≡◌, option_map};
ghost use Rattle.audit_core.specs.Words.{asked_in, asked_of, texts_of};

use agent_core::Settings;
use replay_run::read_settings;

/// What the words say.
#[derive(Clone, Copy)]
pub struct Words<'a> {
    /// The file of the record.
    pub recording: &'a str,
    /// The file of its deeds.
    pub deeds: &'a str,
    /// The settings of the record's agent.
    pub settings: Settings,
}

// Reads RECORD and DEEDS, and behind them the words of `read_settings`.
pub fn read_words(words: &[String]) -> Option<Words<'_>>
    ensures { option_map asked_of result ≡ asked_in (texts_of words.now) }
{
    match words {
        [recording, deeds, chosen @ ..] => Some(Words {
            recording: recording.as_str(),
            deeds: deeds.as_str(),
            settings: read_settings(chosen)?,
        }),
        _ => None,
    }
}
