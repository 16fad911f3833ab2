//! What stands at the front of a stream.

/// What a look at the front of a stream finds.
#[derive(Clone, Copy, Debug, PartialEq, Eq)]
pub enum Look {
    /// A whole frame: four bytes of length, and then a body of `body` bytes.
    Whole { body: u32 },
    /// A length that no body may have: 0, or more than the bound. No byte that follows mends it.
    Bad { announced: u32 },
    /// Neither yet: more bytes decide.
    More,
}

/// What stands at the front of a stream, with the bytes themselves.
#[derive(Clone, Copy, Debug, PartialEq, Eq)]
pub enum Front<'a> {
    /// A whole frame: its body, and the bytes that follow the frame.
    Whole { body: &'a [u8], rest: &'a [u8] },
    /// A length that no body may have: 0, or more than the bound. No byte that follows mends it.
    Bad { announced: u32 },
    /// Neither yet: more bytes decide.
    More,
}
