//! Positions in a text.

ghost use Rattle.std.specs.Prelude.{◌≡◌, ◌+◌, ◌<◌, ◌≤◌, ◌^◌, length};
ghost use Rattle.lotos_lexer.specs.Tokens.{start, behind, behind_all, place_at, IsOfText};

use lotos_base::Place;

/// A position between the bytes of a text.
#[derive(Clone, Copy, Debug)]
pub struct Position {
    /// How many bytes stand before it.
    pub offset: usize,
    /// Its line, from 1.
    pub line: usize,
    /// Its column, from 1, in bytes.
    pub column: usize,
}

impl Position {
    /// The start of a text.
    pub fn at_start() -> Position
        ensures exact { result ≡ start }
        ensures of_text { IsOfText result }
    {
        Position {
            offset: 0,
            line: 1,
            column: 1,
        }
    }

    /// The position behind these bytes, which stand at this one.
    pub fn after(self, bytes: &[u8]) -> Position
        requires of_text { IsOfText self }
        requires short { self.offset + length bytes.now < 2 ^ 32 }
        ensures exact { result ≡ behind_all bytes.now self }
        ensures moved { result.offset ≡ self.offset + length bytes.now }
        ensures of_text { IsOfText result }
    {
        let mut position = self;
        for byte in bytes {
            position = position.next(*byte);
        }
        position
    }

    /// The position behind one more byte.
    fn next(self, byte: u8) -> Position
        requires of_text { IsOfText self }
        requires short { self.offset + 1 < 2 ^ 32 }
        ensures exact { result ≡ behind byte self }
        ensures moved { result.offset ≡ self.offset + 1 }
        ensures of_text { IsOfText result }
    {
        let offset = self.offset + 1;
        if byte == b'\n' {
            Position {
                offset,
                line: self.line + 1,
                column: 1,
            }
        } else {
            Position {
                offset,
                line: self.line,
                column: self.column + 1,
            }
        }
    }

    /// The place of this position in the text with this number.
    pub fn place(self, number: u32) -> Place
        requires of_text { IsOfText self }
        requires short { self.offset + 1 < 2 ^ 32 }
        ensures { result ≡ place_at number self }
    {
        Place {
            text: number,
            line: self.line as u32,
            col: self.column as u32,
        }
    }
}
