//! The place where a text ends.

ghost use Rattle.std.specs.Prelude.{◌≡◌, ◌+◌, ◌<◌, ◌^◌, length};
ghost use Rattle.tree_building.specs.Blame.{blamed_place, end_place};

use lotos_base::Place;
use lotos_lexer::Token;

/// The place just past the last byte of a text.
fn end_place(text: &[u8], number: u32) -> Place
    requires { length text.now + 1 < 2 ^ 32 }
    ensures { result ≡ end_place number text.now }
{
    let mut line: u32 = 1;
    let mut col: u32 = 1;
    for byte in text {
        if *byte == b'\n' {
            line += 1;
            col = 1;
        } else {
            col += 1;
        }
    }
    Place {
        text: number,
        line,
        col,
    }
}

/// The place of the token with the index, or the place just past the last byte.
pub fn blamed_place(text: &[u8], number: u32, tokens: &[Token], at: usize) -> Place
    requires { length text.now + 1 < 2 ^ 32 }
    ensures { result ≡ blamed_place number text.now tokens.now at }
{
    match tokens.get(at) {
        Some(token) => token.place,
        None => end_place(text, number),
    }
}
