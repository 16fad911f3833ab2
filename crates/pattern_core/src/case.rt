//! How letters are read.

ghost use Rattle.std.specs.Prelude.{◌≡◌};
ghost use Rattle.pattern_core.specs.Letters.{read_byte};

/// How the letters A to Z are read.
#[derive(Clone, Copy)]
pub enum Case {
    /// As they stand.
    Kept,
    /// As a to z.
    Lowered,
}

impl Case {
    /// The byte as it is read.
    pub fn byte(self, byte: u8) -> u8
        ensures { result ≡ read_byte self byte }
    {
        match self {
            Case::Kept => byte,
            Case::Lowered => byte.to_ascii_lowercase(),
        }
    }
}
