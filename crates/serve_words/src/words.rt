//! What the words of `serve` say, or why they are no such command.

ghost use Rattle.std.specs.Prelude.{◌≡◌, ◌&&◌, IfOk, MatchResult, Some, codes, map, not, option_and_then, option_map, string_bytes, true, false};
ghost use Rattle.serve_words.specs.Serve.{begins, ends_with_record, is_one_alone, is_recorded, is_set, is_unread, is_usage, life_in, limit_in, seconds_of, value_of};
ghost use Rattle.world_ports.specs.Life.{life_of};
ghost use Rattle.serve_words.specs.declared.words.ServeFault.TheVariants.{Memory};

use crate::command::serve_matches;
use std::alloc::{AllocError, Global};
use world_ports::read_life;

/// What the agent is to serve, and with which programs.
#[derive(Debug, Drop)]
pub struct ServeWords {
    /// Where clients connect.
    pub path: String,
    /// The program that holds the private keys.
    pub helper: String,
    /// The file that the helper is told to read.
    pub helper_data: Option<String>,
    /// The program that asks for confirmations, by the one named next.
    pub relay: Option<String>,
    pub askpass: Option<String>,
    /// The lifetime, in seconds, of identities that are added without one.
    pub life: Option<u32>,
    /// How many seconds a question to the user may stay open, where that is chosen: 1 at least.
    pub confirm_limit: Option<u32>,
    /// Whether to end once a client has come and none is left.
    pub until_idle: bool,
    /// Whether the output is to hold a record of what happens.
    pub recorded: bool,
    /// Whether to end with the record, where no more of it can be written.
    pub or_stop: bool,
}

/// Why words are no command `serve`.
#[derive(Clone, Copy, Debug, PartialEq, Eq)]
pub enum ServeFault {
    /// They aren't of its form.
    Usage,
    /// Memory ran out. Says nothing of the words.
    Memory,
}

impl From<AllocError> for ServeFault {
    ghost from_gives = { λ _ fault. fault ≡ Memory };

    fn from(_: AllocError) -> ServeFault {
        ServeFault::Memory
    }
}

/// Reads the words, of which the first is `serve`.
pub fn read_serve(alloc: Global, words: &[String]) -> Result<ServeWords, ServeFault>
    ensures usage { result ≡ Err ServeFault.Usage
        → is_usage (map string_bytes words.now) ≡ true }
    ensures served { IfOk result (λ _. is_usage (map string_bytes words.now) ≡ false) }
    ensures path { IfOk result (λ w. Some (string_bytes w.path)
        ≡ value_of (codes "path") (map string_bytes words.now)) }
    ensures helper { IfOk result (λ w. Some (string_bytes w.helper)
        ≡ value_of (codes "helper") (map string_bytes words.now)) }
    ensures helper_data { IfOk result (λ w. option_map string_bytes w.helper_data
        ≡ value_of (codes "helper-data") (map string_bytes words.now)) }
    ensures relay { IfOk result (λ w. option_map string_bytes w.relay
        ≡ value_of (codes "relay") (map string_bytes words.now)) }
    ensures askpass { IfOk result (λ w. option_map string_bytes w.askpass
        ≡ value_of (codes "askpass") (map string_bytes words.now)) }
    ensures life { IfOk result (λ w. w.life ≡ life_in (map string_bytes words.now)) }
    ensures confirm_limit { IfOk result (λ w. w.confirm_limit ≡ limit_in (map string_bytes words.now)) }
    ensures until_idle { IfOk result (λ w. w.until_idle
        ≡ is_set (value_of (codes "until-idle") (map string_bytes words.now))) }
    ensures recorded { IfOk result (λ w. w.recorded ≡ is_recorded (map string_bytes words.now)) }
    ensures or_stop { IfOk result (λ w. w.or_stop ≡ ends_with_record (map string_bytes words.now)) }
{
    if !begins_with_serve(words) {
        return Err(ServeFault::Usage);
    }
    let matches = serve_matches(alloc, words)?;
    let path = matches.get_str("path");
    let helper = matches.get_str("helper");
    let helper_data = matches.get_str("helper-data");
    let relay = matches.get_str("relay");
    let askpass = matches.get_str("askpass");
    let lifetime = matches.get_str("lifetime");
    let confirm_limit = matches.get_str("confirm-limit");
    let until_idle = matches.get_str("until-idle");
    let recorded = matches.get_str("record");
    let or_stop = matches.get_str("record-or-stop");
    let (Some(path), Some(helper)) = (path, helper) else {
        return Err(ServeFault::Usage);
    };
    if stands_alone(relay, askpass) {
        return Err(ServeFault::Usage);
    }
    if lacks_record(or_stop, recorded) {
        return Err(ServeFault::Usage);
    }
    let life = read_default(lifetime)?;
    let confirm_limit = read_limit(confirm_limit)?;
    Ok(ServeWords {
        path: String::from_str(alloc, path)?,
        helper: String::from_str(alloc, helper)?,
        helper_data: owned(alloc, helper_data)?,
        relay: owned(alloc, relay)?,
        askpass: owned(alloc, askpass)?,
        life,
        confirm_limit,
        until_idle: says_true(until_idle),
        recorded: says_true(recorded),
        or_stop: says_true(or_stop),
    })
}

/// Whether the first word is the command's.
pub fn begins_with_serve(words: &[String]) -> bool
    ensures { result ≡ begins (map string_bytes words.now) }
{
    match words.first() {
        Some(word) => word.as_str() == "serve",
        None => false,
    }
}

// Whether one of the two is there, and not the other.
fn stands_alone(one: Option<&str>, other: Option<&str>) -> bool
    ensures { result ≡ is_one_alone (option_map (λ w. w.now) one.entry) (option_map (λ w. w.now) other.entry) }
{
    one.is_some() != other.is_some()
}

// The lifetime that a word says, where there is one; 0 stands for none.
fn read_default(word: Option<&str>) -> Result<Option<u32>, ServeFault>
    ensures { MatchResult result
        (λ life. (is_unread life_of (option_map (λ w. w.now) word.entry) ≡ false)
        × (life ≡ option_and_then seconds_of (option_map (λ w. w.now) word.entry)))
        (λ _. is_unread life_of (option_map (λ w. w.now) word.entry) ≡ true) }
{
    let Some(text) = word else {
        return Ok(None);
    };
    match read_life(text.as_bytes()) {
        None => Err(ServeFault::Usage),
        Some(0) => Ok(None),
        Some(life) => Ok(Some(life)),
    }
}

// The limit that a word says, where there is one: a second at least.
fn read_limit(word: Option<&str>) -> Result<Option<u32>, ServeFault>
    ensures { MatchResult result
        (λ limit. (is_unread seconds_of (option_map (λ w. w.now) word.entry) ≡ false)
        × (limit ≡ option_and_then seconds_of (option_map (λ w. w.now) word.entry)))
        (λ _. is_unread seconds_of (option_map (λ w. w.now) word.entry) ≡ true) }
{
    let Some(text) = word else {
        return Ok(None);
    };
    match read_life(text.as_bytes()) {
        None | Some(0) => Err(ServeFault::Usage),
        Some(limit) => Ok(Some(limit)),
    }
}

// Whether a flag was given.
fn says_true(word: Option<&str>) -> bool
    ensures { result ≡ is_set (option_map (λ w. w.now) word.entry) }
{
    match word {
        Some(text) => text == "true",
        None => false,
    }
}

// Whether the agent is to end with a record that isn't to be made.
fn lacks_record(or_stop: Option<&str>, recorded: Option<&str>) -> bool
    ensures { result ≡ (is_set (option_map (λ w. w.now) or_stop.entry)
        && not (is_set (option_map (λ w. w.now) recorded.entry))) }
{
    says_true(or_stop) && !says_true(recorded)
}

fn owned(alloc: Global, word: Option<&str>) -> Result<Option<String>, AllocError>
    ensures { IfOk result (λ w. option_map string_bytes w ≡ option_map (λ t. t.now) word.entry) }
{
    match word {
        Some(text) => Ok(Some(String::from_str(alloc, text)?)),
        None => Ok(None),
    }
}
