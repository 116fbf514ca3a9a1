//! The cutting of a text into its tokens.

ghost use Rattle.std.specs.Prelude.{◌≡◌, ◌+◌, ◌<◌, ◌≤◌, ◌^◌, length, drop, MatchResult, OnOk, IfOk, IfErr, All};
ghost use Rattle.lotos_lexer.specs.Tokens.{Tokens, tokens_of, IsLexFaultOf, IsTokenOf, IsOfText, list_open_behind, token_at};
ghost use Rattle.lotos_lexer.specs.Cutting.{cut_by, IsInside};

use crate::kinds;
use crate::lexemes::Lexeme;
use crate::pieces::{Piece, find_piece};
use crate::positions::Position;
use crate::tokens::{LexFault, Token};
use std::alloc::Global;

/// How far a text is cut.
#[derive(Debug, Drop)]
struct Cutting {
    /// The tokens so far.
    tokens: Vec<Token>,
    /// The position behind the last piece.
    position: Position,
    /// Whether a gate list is open there.
    open_list: bool,
}

/// Cuts a text into its tokens. `number` is the number of the text in their places.
///
/// Answers `BadByte` at the first byte outside comments with which no token and no blank begins,
/// and `OpenComment` at the `(*` of a comment that is not closed, whichever comes first in the
/// text. The lexical rules are those of ISO 8807:1989 with this project's form of names.
pub fn lex(alloc: Global, text: &[u8], number: u32) -> Result<Vec<Token>, LexFault>
    requires { length text.now < 2 ^ 32 }
    ensures exact { MatchResult result (λ tokens. tokens_of number text.now ≡ Tokens tokens.items)
        (IsLexFaultOf (tokens_of number text.now)) }
    ensures inside { IfOk result (λ tokens. All (IsTokenOf text.now) tokens.items) }
{
    let mut cutting = Cutting {
        tokens: Vec::new(alloc),
        position: Position::at_start(),
        open_list: false,
    };
    while cutting.position.offset < text.len() {
        cut_piece(text, number, &mut cutting)?;
    }
    Ok(cutting.tokens)
}

/// Takes the next piece of the text.
fn cut_piece(text: &[u8], number: u32, cutting: &mut Cutting) -> Result<(), LexFault>
    requires short { length text.now < 2 ^ 32 }
    requires more { cutting.old.position.offset < length text.now }
    requires of_text { IsOfText cutting.old.position }
    ensures exact { OnOk result (cut_by number text.now cutting.new
        ≡ cut_by number text.now cutting.old) }
    ensures moved { OnOk result (cutting.old.position.offset < cutting.new.position.offset) }
    ensures inside { OnOk result (IsInside text.now cutting.new) }
    ensures tokens { OnOk result (All (IsTokenOf text.now) cutting.old.tokens.items
        → All (IsTokenOf text.now) cutting.new.tokens.items) }
    ensures fault { IfErr result (IsLexFaultOf (cut_by number text.now cutting.old)) }
{
    let position = cutting.position;
    let rest = &text[position.offset..];
    let count = match find_piece(cutting.open_list, rest) {
        Piece::Blank => 1,
        Piece::Comment(count) => count,
        Piece::Token(lexeme) => {
            let token = make_token(number, position, lexeme);
            if cutting.tokens.push(token).is_err() {
                return Err(LexFault::NoMemory);
            }
            cutting.open_list = is_open_behind(lexeme.kind, cutting.open_list);
            lexeme.length
        }
        Piece::Unclosed => return Err(LexFault::OpenComment {
            place: position.place(number),
        }),
        Piece::Nothing => return Err(LexFault::BadByte {
            place: position.place(number),
        }),
    };
    cutting.position = position.after(&rest[..count]);
    Ok(())
}

/// The token that a lexeme is at a position.
fn make_token(number: u32, position: Position, lexeme: Lexeme) -> Token
    requires of_text { IsOfText position }
    requires short { position.offset + 1 < 2 ^ 32 }
    requires whole { position.offset + lexeme.length < 2 ^ 32 }
    ensures { result ≡ token_at number position lexeme }
{
    Token {
        kind: lexeme.kind,
        place: position.place(number),
        first: position.offset as u32,
        past: (position.offset + lexeme.length) as u32,
    }
}

/// Whether a gate list is open behind a token of this kind.
fn is_open_behind(kind: u16, open_list: bool) -> bool
    ensures { result ≡ list_open_behind kind open_list }
{
    match kind {
        kinds::GATES_OPEN => true,
        kinds::GATES_CLOSE | kinds::RIGHT_BRACKET | kinds::CHOICE_SIGN => false,
        _ => open_list,
    }
}
