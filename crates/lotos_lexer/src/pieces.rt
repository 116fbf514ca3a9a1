//! What begins at a place of a text.

ghost use Rattle.std.specs.Prelude.{◌≡◌, ◌≤◌, drop, length, IfSome};
ghost use Rattle.lotos_lexer.specs.Pieces.{close_at, comment, piece_at, Spans};

use crate::lexemes::{Lexeme, find_lexeme};

/// What begins at a place.
#[derive(Clone, Copy, Debug)]
pub enum Piece {
    /// One blank.
    Blank,
    /// A comment of so many bytes.
    Comment(usize),
    /// A comment that is not closed.
    Unclosed,
    /// A token.
    Token(Lexeme),
    /// A byte with which nothing begins.
    Nothing,
}

/// How many bytes there are up to the next `*)` and with it.
fn find_close(bytes: &[u8]) -> Option<usize>
    ensures exact { result ≡ close_at bytes.now }
    ensures within { IfSome result (λ closed. closed ≤ length bytes.now) }
{
    for index in 0..bytes.len() {
        if bytes[index..].starts_with(b"*)") {
            return Some(index + 2);
        }
    }
    None
}

/// The comment that begins here with `(*`.
fn find_comment(bytes: &[u8]) -> Piece
    requires { 2 ≤ length bytes.now }
    ensures exact { result ≡ comment (close_at (drop 2 bytes.now)) }
    ensures spans { Spans result bytes.now }
{
    match find_close(&bytes[2..]) {
        Some(closed) => Piece::Comment(2 + closed),
        None => Piece::Unclosed,
    }
}

/// What begins here: a blank, a comment or a token. `open_list` tells whether a gate list is open.
pub fn find_piece(open_list: bool, bytes: &[u8]) -> Piece
    ensures exact { result ≡ piece_at open_list bytes.now }
    ensures spans { Spans result bytes.now }
{
    if let Some(first) = bytes.first()
        && b" \t\n\r".contains(first)
    {
        return Piece::Blank;
    }
    if bytes.starts_with(b"(*") {
        return find_comment(bytes);
    }
    match find_lexeme(open_list, bytes) {
        Some(lexeme) => Piece::Token(lexeme),
        None => Piece::Nothing,
    }
}
