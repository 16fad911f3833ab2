//! The fields of a line, one after another.

ghost use Rattle.std.specs.Prelude.{◌≡◌, ◌∷◌, [], MatchOption, position};
ghost use Rattle.schedule_text.specs.Fields.{fields_of, is_space};

use std::marker::Model;

/// The place of the first space.
fn space(text: &[u8]) -> Option<usize>
    ensures { result ≡ position is_space text.now }
{
    text.iter().position(|&byte| byte == b' ')
}

/// The fields of a line that are left.
#[derive(Drop)]
pub struct Fields<'a> {
    /// What stands behind the space that ended the last field, and `None` where none did.
    rest: Option<&'a [u8]>,
}

impl<'a> Model for Fields<'a> {
    ghost use Rattle.std.specs.Prelude.{List, ℕ};
    ghost use Rattle.schedule_text.specs.Fields.{fields_left};

    ghost Value = { List (List ℕ) };

    ghost view = { λ fields. fields_left fields.rest };
}

impl<'a> Fields<'a> {
    /// All fields of `line`.
    pub fn of(line: &'a [u8]) -> Fields<'a>
        ensures { result ≡ fields_of line.now }
    {
        Fields { rest: Some(line) }
    }

    /// Takes the next field.
    pub fn next_field(&mut self) -> Option<&'a [u8]>
        ensures { MatchOption result
            ((self.old ≡ []) × (self.new ≡ []))
            (λ field. self.old ≡ field.now ∷ self.new) }
    {
        let rest = self.rest?;
        match space(rest) {
            Some(end) => {
                self.rest = Some(&rest[end + 1..]);
                Some(&rest[..end])
            }
            None => {
                self.rest = None;
                Some(rest)
            }
        }
    }
}
