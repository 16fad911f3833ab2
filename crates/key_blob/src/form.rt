//! A type of keys with its certificates told apart: the kind alone, or a certificate of it.

ghost use Rattle.std.specs.Prelude.{◌≡◌};
ghost use Rattle.key_blob.specs.KeyTypes.{kind_of};

use crate::kind::KeyKind;

/// A type of keys: a kind's own, or that of the certificates that carry keys of the kind.
#[derive(Clone, Copy)]
pub enum Form {
    Plain(KeyKind),
    Certified(KeyKind),
}

impl Form {
    /// The kind of the type's keys.
    pub fn kind(self) -> KeyKind
        ensures { result ≡ kind_of self }
    {
        match self {
            Form::Plain(kind) | Form::Certified(kind) => kind,
        }
    }
}
