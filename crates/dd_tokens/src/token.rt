ghost use Rattle.std.specs.Prelude.{◌≡◌, ◌+◌};

/// What kind of piece of a line a token is.
#[derive(Clone, Copy, Debug, PartialEq, Eq)]
pub enum TokenKind {
    /// A letter or `_`, then letters, digits or `_`: at most 64 bytes.
    Word,
    /// An optional `-` directly before one or more digits.
    Number,
    /// One of `( ) [ ] , :`.
    Mark,
}

/// A token, by where it stands in its line.
#[derive(Clone, Copy, Debug, PartialEq, Eq)]
pub struct Token {
    pub kind: TokenKind,
    /// The place of its first byte, from 0.
    pub first: u32,
    /// How many bytes it takes, at least 1.
    pub count: u32,
}

impl Token {
    /// The place behind its last byte.
    pub fn end(&self) -> usize
        ensures { result ≡ self.now.first + self.now.count }
    {
        self.first as usize + self.count as usize
    }
}
