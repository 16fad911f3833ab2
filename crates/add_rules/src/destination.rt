//! A destination as ssh-add's `-h` takes it, read from a word into its hosts and its user.

ghost use Rattle.std.specs.Prelude.{◌≡◌, position, ◌==◌};
ghost use Rattle.std.specs.Option.{option_map};
ghost use Rattle.add_rules.specs.Destinations.{destination, destination_of, entered, first_fault, has_user, is_empty_text, split_at};

use crate::fault::DestFault;

/// A destination: `[user@]host`, or `source>[user@]host`.
#[derive(Clone, Copy)]
pub struct Destination<'a> {
    /// The host that is left, where one is named.
    pub source: Option<&'a [u8]>,
    /// Who logs in, where that is said.
    pub user: Option<&'a [u8]>,
    /// The host that is entered.
    pub host: &'a [u8],
}

/// The place of the first such byte.
fn place(text: &[u8], mark: u8) -> Option<usize>
    ensures { result ≡ position (λ byte. byte == mark) text.now }
{
    text.iter().position(|byte| *byte == mark)
}

/// What stands in front of the first such byte and behind it.
fn split_at(text: &[u8], mark: u8) -> Option<(&[u8], &[u8])>
    ensures { option_map (λ parts. (parts.0.now, parts.1.now)) result ≡ split_at mark text.now }
{
    let at = place(text, mark)?;
    Some((&text[..at], &text[at + 1..]))
}

/// The destination behind a source, where there is one.
fn entered<'a>(source: Option<&'a [u8]>, text: &'a [u8]) -> Destination<'a>
    ensures { destination result
        ≡ entered (option_map (λ text. text.now) source.entry) text.now (split_at 64 text.now) }
{
    match split_at(text, b'@') {
        Some((user, host)) => Destination {
            source,
            user: Some(user),
            host,
        },
        None => Destination {
            source,
            user: None,
            host: text,
        },
    }
}

/// The destination that a word is.
pub fn read_destination(word: &[u8]) -> Destination<'_>
    ensures { destination result ≡ destination_of word.now }
{
    match split_at(word, b'>') {
        Some((source, rest)) => entered(Some(source), rest),
        None => entered(None, word),
    }
}

fn is_empty_text(text: Option<&[u8]>) -> bool
    ensures { result ≡ is_empty_text (option_map (λ text. text.now) text.entry) }
{
    match text {
        Some(text) => text.is_empty(),
        None => false,
    }
}

fn has_user(source: Option<&[u8]>) -> bool
    ensures { result ≡ has_user (option_map (λ text. text.now) source.entry) }
{
    match source {
        Some(source) => split_at(source, b'@').is_some(),
        None => false,
    }
}

/// Why the destination is none, before any key is looked for.
pub fn first_fault(typed: &Destination<'_>) -> Option<DestFault>
    ensures { result ≡ first_fault (destination typed.now) }
{
    if has_user(typed.source) {
        Some(DestFault::SourceUser)
    } else if is_empty_text(typed.user) {
        Some(DestFault::EmptyUser)
    } else if is_empty_text(typed.source) || typed.host.is_empty() {
        Some(DestFault::EmptyHost)
    } else {
        None
    }
}
