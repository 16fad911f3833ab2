//! What stands between bytes of a kind, one part after another.

ghost use Rattle.std.specs.Prelude.{◌≡◌, ◌∷◌, [], MatchOption, position};
ghost use Rattle.known_hosts.specs.Parts.{ends, parts, fields_of};

use std::marker::Model;

/// A kind of bytes that end a part.
#[derive(Clone, Copy)]
pub enum Mark {
    /// LF, which ends a line.
    Line,
    /// A space or a TAB, which ends a field.
    Blank,
    /// `|`, which ends a part of a hashed host.
    Bar,
}

impl Mark {
    /// Whether the byte is of this kind.
    pub fn ends(self, byte: u8) -> bool
        ensures { result ≡ ends self byte }
    {
        match self {
            Mark::Line => byte == b'\n',
            Mark::Blank => byte == b' ' || byte == b'\t',
            Mark::Bar => byte == b'|',
        }
    }
}

/// The place of the first byte of the kind.
fn place(mark: Mark, text: &[u8]) -> Option<usize>
    ensures { result ≡ position (ends mark) text.now }
{
    text.iter().position(|byte| mark.ends(*byte))
}

/// The parts of a text that are left.
#[derive(Drop)]
pub struct Parts<'a> {
    mark: Mark,
    /// What stands behind the byte that ended the last part, and `None` where none did.
    rest: Option<&'a [u8]>,
}

impl<'a> Model for Parts<'a> {
    ghost use Rattle.std.specs.Prelude.{List, ℕ};
    ghost use Rattle.known_hosts.specs.Parts.{parts_left};

    ghost Value = { List (List ℕ) };

    ghost view = { λ parts. parts_left parts.mark parts.rest };
}

impl<'a> Parts<'a> {
    /// All parts of `text`.
    pub fn of(mark: Mark, text: &'a [u8]) -> Parts<'a>
        ensures { result ≡ parts mark text.now }
    {
        Parts {
            mark,
            rest: Some(text),
        }
    }

    /// Takes the next part.
    pub fn next_part(&mut self) -> Option<&'a [u8]>
        ensures { MatchOption result
            ((self.old ≡ []) × (self.new ≡ []))
            (λ part. self.old ≡ part.now ∷ self.new) }
    {
        let rest = self.rest?;
        match place(self.mark, rest) {
            Some(end) => {
                self.rest = Some(&rest[end + 1..]);
                Some(&rest[..end])
            }
            None => {
                self.rest = None;
                Some(rest)
            }
        }
    }
}

/// The fields of a line that are left: its parts between blanks that aren't empty.
#[derive(Drop)]
pub struct Fields<'a> {
    parts: Parts<'a>,
}

impl<'a> Model for Fields<'a> {
    ghost use Rattle.std.specs.Prelude.{List, ℕ};
    ghost use Rattle.known_hosts.specs.Parts.{some_parts};

    ghost Value = { List (List ℕ) };

    ghost view = { λ fields. some_parts fields.parts };
}

impl<'a> Fields<'a> {
    /// All fields of `line`.
    pub fn of(line: &'a [u8]) -> Fields<'a>
        ensures { result ≡ fields_of line.now }
    {
        Fields {
            parts: Parts::of(Mark::Blank, line),
        }
    }

    /// Takes the next field.
    pub fn next_field(&mut self) -> Option<&'a [u8]>
        ensures { MatchOption result
            ((self.old ≡ []) × (self.new ≡ []))
            (λ field. self.old ≡ field.now ∷ self.new) }
    {
        'parts: while let Some(part) = self.parts.next_part() {
            if !part.is_empty() {
                return Some(part);
            }
        }
        None
    }
}
