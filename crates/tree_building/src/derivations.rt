//! The derivation of a text: its tokens, and the rows of the grammar that derive them.

ghost use Rattle.std.specs.Prelude.{◌≡◌, ◌+◌, ◌<◌, ◌^◌, IfErr, IfOk, MatchResult, length, map};
ghost use Rattle.tree_building.specs.Sentences.{kind_of};
ghost use Rattle.tree_building.specs.Derived.{IsDerived, IsUnderived, start_part_of};
ghost use Rattle.tree_building.specs.Reading.{IsFaultAs};

use crate::end::blamed_place;
use crate::fault::ReadFault;
use crate::kind::TextKind;
use ll_engine::{ParseFault, parse};
use lotos_lexer::laws::tokens_have_kinds;
use lotos_lexer::{Token, lex};
use std::alloc::{AllocError, Global};

/// The tokens of a text, and the rows of their leftmost derivation, by their numbers.
#[derive(Debug, Drop)]
pub struct Derived {
    /// The tokens.
    pub tokens: Vec<Token>,
    /// The rows.
    pub rows: Vec<u32>,
}

/// The kinds of the tokens.
fn kinds_of(alloc: Global, tokens: &[Token]) -> Result<Vec<u16>, AllocError>
    ensures { IfOk result (λ kinds. kinds.items ≡ map kind_of tokens.now) }
{
    tokens.iter().map(|token| token.kind).collect(alloc)
}

/// The tokens of a text with their derivation by the rows of the grammar, or the fault in its
/// place.
fn derivation(alloc: Global, text: &[u8], number: u32, kind: TextKind) -> Result<Derived, ReadFault>
    requires { length text.now + 1 < 2 ^ 32 }
    ensures { MatchResult result (IsDerived (start_part_of kind) number text.now)
        (IsUnderived (start_part_of kind) number text.now) }
{
    let tokens = lex(alloc, text, number)?;
    let kinds = kinds_of(alloc, &tokens)?;
    tokens_have_kinds();
    match parse(alloc, &kind.grammar(), &kinds) {
        Ok(tree) => Ok(Derived {
            tokens,
            rows: tree.rows,
        }),
        Err(ParseFault::Unexpected { at }) => Err(ReadFault::Syntax {
            place: blamed_place(text, number, &tokens, at),
        }),
        Err(ParseFault::NoMemory) => Err(ReadFault::NoMemory),
    }
}

/// Cuts a text into its tokens and derives them as a text of the kind.
///
/// Answers the lexical fault of the text, or `Syntax` at the first token with which the tokens
/// before it stop being the beginning of such a text, or just past the last byte where all of them
/// are a beginning and no text.
pub fn derive(alloc: Global, text: &[u8], number: u32, kind: TextKind) -> Result<Derived, ReadFault>
    requires { length text.now + 1 < 2 ^ 32 }
    ensures derived { IfOk result (IsDerived (start_part_of kind) number text.now) }
    ensures fault { IfErr result (IsFaultAs kind number text.now) }
{
    derivation(alloc, text, number, kind)
}
