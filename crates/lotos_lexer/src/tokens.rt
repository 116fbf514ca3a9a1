//! Tokens, and why a text has none.

use lotos_base::Place;

/// A token of a text.
#[derive(Clone, Copy, Debug, PartialEq, Eq)]
pub struct Token {
    /// Its kind, one of those in `kinds`.
    pub kind: u16,
    /// The place of its first byte.
    pub place: Place,
    /// How many bytes of the text stand before it.
    pub first: u32,
    /// How many bytes of the text stand before its end.
    pub past: u32,
}

/// Why a text cannot be cut into tokens.
#[derive(Clone, Copy, Debug, PartialEq, Eq)]
pub enum LexFault {
    /// At the place stands a byte, outside comments, with which no token and no blank begins.
    BadByte {
        /// The place of the byte.
        place: Place,
    },
    /// The comment that begins at the place is not closed.
    OpenComment {
        /// The place of its `(*`.
        place: Place,
    },
    /// Memory was wanted and not there.
    NoMemory,
}
