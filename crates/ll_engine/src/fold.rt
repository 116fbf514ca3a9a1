//! The fold over a leftmost derivation, from its last row to its first.

ghost use Rattle.std.specs.Prelude.{◌≡◌, true, map, IfOk, OnOk, Some, None, List, [], ◌∷◌, take, drop, option_map, option_and_then, slice_get, reverse};
ghost use Rattle.std.specs.List.{list_all};
ghost use Rattle.ll_engine.specs.declared.symbol.Symbol.TheVariants.{Part};
ghost use Rattle.ll_engine.specs.Derivation.{Forest, DerivesSymbols, leaves, leftmost};
ghost use Rattle.ll_engine.specs.Fold.{kept_in_front, begins_kept, value_of_tree, first_if, first_value};
ghost use Rattle.ll_engine.specs.Run.{from_last, count_parts, rest_if, kept_tokens, work, step, run};

use crate::actions::Actions;
use crate::{Grammar, Symbol};
use std::alloc::{AllocError, Global};

/// How many parts there are among the symbols.
fn count_parts(symbols: &[Symbol]) -> usize
    ensures { result ≡ count_parts symbols.now }
{
    let mut count = 0;
    for symbol in symbols {
        if let Symbol::Part(_) = symbol {
            count += 1;
        }
    }
    count
}

/// Whether the first symbol is a token that is kept.
fn begins_kept<A: Actions>(actions: &A, right: &[Symbol]) -> bool
    ensures { result ≡ begins_kept A.keeps right.now }
{
    match right.first() {
        Some(Symbol::Token(number)) => actions.keeps(*number),
        Some(Symbol::Part(_)) => false,
        None => false,
    }
}

/// The tokens that are kept.
fn kept_tokens<A: Actions>(
    alloc: Global,
    actions: &A,
    tokens: &[A::Token],
) -> Result<Vec<A::Token>, AllocError>
    ensures { IfOk result (λ kept. kept.items ≡ kept_tokens A.kind A.keeps tokens.now) }
{
    let mut kept = Vec::new(alloc);
    for token in tokens {
        if actions.keeps(actions.kind(*token)) {
            kept.push(*token)?;
        }
    }
    Ok(kept)
}

/// Takes the last token off the list, where the test holds.
fn take_token<T: Copy>(takes: bool, ahead: &mut Vec<T>) -> Option<T>
    ensures token { result ≡ first_if takes (reverse ahead.old.items) }
    ensures rest { reverse ahead.new.items ≡ rest_if takes (reverse ahead.old.items) }
{
    if takes { ahead.pop() } else { None }
}

/// Takes the last values off the list, as many as are asked for, or all.
fn take_values<V: Drop>(values: &mut Vec<V>, count: usize) -> Result<Vec<V>, AllocError>
    ensures taken { IfOk result (λ parts. reverse parts.items
        ≡ take count (reverse values.old.items)) }
    ensures left { OnOk result (reverse values.new.items ≡ drop count (reverse values.old.items)) }
{
    let at = values.len().saturating_sub(count);
    values.split_off(at)
}

/// Builds the value of a row, and takes its token and the values of its parts off their lists.
fn build_row<A: Actions>(
    alloc: Global,
    actions: &A,
    right: &[Symbol],
    row: u32,
    ahead: &mut Vec<A::Token>,
    values: &mut Vec<A::Value>,
) -> Result<Option<A::Value>, AllocError>
    ensures { IfOk result (λ built. option_map
        (λ value. work (A.meaning value ∷ from_last A.meaning values.new.items)
        (reverse ahead.new.items)) built
        ≡ step (A.value_of actions.now) A.keeps row right.now
        (work (from_last A.meaning values.old.items) (reverse ahead.old.items))) }
{
    let token = take_token(begins_kept(actions, right), ahead);
    let parts = take_values(values, count_parts(right))?;
    actions.build(alloc, row, token, parts)
}

/// Builds the values of the rows, from the last to the first: the value of the first, which is that
/// of the whole.
fn build_rows<A: Actions>(
    alloc: Global,
    actions: &A,
    grammar: &Grammar,
    ahead: Vec<A::Token>,
    rows: Vec<u32>,
) -> Result<Option<A::Value>, AllocError>
    ensures { IfOk result (λ built. option_map A.meaning built
        ≡ option_and_then (λ after. first_value after.values)
        (run (A.value_of actions.now) A.keeps grammar.now.rows (reverse rows.items)
        (work [] (reverse ahead.items)))) }
{
    let mut rows = rows;
    let mut ahead = ahead;
    let mut values = Vec::new(alloc);
    while let Some(row) = rows.pop() {
        let Some(right) = grammar.right_of(row) else {
            return Ok(None);
        };
        let Some(value) = build_row(alloc, actions, right, row, &mut ahead, &mut values)? else {
            return Ok(None);
        };
        values.push(value)?;
    }
    Ok(values.pop())
}

/// Builds the value of a text from the leftmost derivation of its tokens: `rows` are the numbers of
/// its rows. Each row is visited once; nothing recurses.
pub fn fold_derivation<A: Actions>(
    alloc: Global,
    actions: &A,
    grammar: &Grammar,
    tokens: &[A::Token],
    rows: Vec<u32>,
) -> Result<Option<A::Value>, AllocError>
    requires { list_all (λ row. kept_in_front A.keeps row.right) grammar.now.rows ≡ true }
    ensures { IfOk result (λ built. (tree : Forest)
        → DerivesSymbols grammar.now.rows tree (Part grammar.now.start ∷ [])
        → leaves tree ≡ map A.kind tokens.now
        → leftmost tree ≡ rows.items → option_map A.meaning built
        ≡ value_of_tree (A.value_of actions.now) A.keeps tree tokens.now) }
{
    let ahead = kept_tokens(alloc, actions, tokens)?;
    build_rows(alloc, actions, grammar, ahead, rows)
}
