//! The predictive parser: a loop over a stack of symbols, without a look back.

ghost use Rattle.std.specs.Prelude.{◌≡◌, ℕ, ◌<◌, ◌⊎◌, All, IfOk, IsOk, Err};
ghost use Rattle.ll_engine.specs.Language.{IsSentence, IsLeftmostDerivation, IsUnexpectedAt};
ghost use Rattle.ll_engine.specs.Checked.{ExactlyWhere};
ghost use Rattle.ll_engine.specs.Walk.{IsAnswer};

use crate::fault::ParseFault;
use crate::grammar::{Grammar, Tree};
use crate::symbol::Symbol;
use std::alloc::Global;

/// The leftmost derivation of the tokens, or the fault.
fn derivation(alloc: Global, grammar: &Grammar, tokens: &[u16]) -> Result<Tree, ParseFault>
    requires { All (λ token. token < grammar.now.tokens) tokens.now }
    ensures { IsAnswer grammar.now tokens.now result }
{
    let mut stack = Vec::new(alloc);
    stack.push(Symbol::Part(grammar.start()))?;
    let mut rows = Vec::new(alloc);
    let mut at = 0;
    while let Some(symbol) = stack.pop() {
        let next = grammar.token_at(tokens, at);
        match symbol {
            Symbol::Token(token) => {
                if token != next {
                    return Err(ParseFault::Unexpected { at });
                }
                at += 1;
            }
            Symbol::Part(part) => {
                let Some(row) = grammar.predicted(part, next) else {
                    return Err(ParseFault::Unexpected { at });
                };
                rows.push(row)?;
                grammar.push_right(row, &mut stack)?;
            }
        }
    }
    if at < tokens.len() {
        return Err(ParseFault::Unexpected { at });
    }
    Ok(Tree { rows })
}

/// Parses the tokens as a sentence of the grammar: the numbers of the rows of their leftmost
/// derivation, or the first token with which no sentence can go on. The parser's work is that of
/// the derivation: each turn of its loop takes a token or adds a row.
///
/// Source: Aho, Lam, Sethi and Ullman, "Compilers", on table-driven predictive parsing and viable prefixes.
pub fn parse(alloc: Global, grammar: &Grammar, tokens: &[u16]) -> Result<Tree, ParseFault>
    requires { All (λ token. token < grammar.now.tokens) tokens.now }
    ensures ok { IfOk result (λ tree. IsLeftmostDerivation grammar.now tree.rows.items tokens.now) }
    ensures sentence { IsSentence grammar.now tokens.now
        → IsOk result ⊎ (result ≡ Err ParseFault.NoMemory) }
    ensures unexpected { (at : ℕ) → ExactlyWhere (IsUnexpectedAt grammar.now tokens.now at) result
        (Err (ParseFault.Unexpected at)) (Err ParseFault.NoMemory) }
{
    derivation(alloc, grammar, tokens)
}
