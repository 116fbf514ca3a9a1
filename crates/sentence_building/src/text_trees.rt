//! The trees of specifications, items, order files and lists of terms, each built from the
//! derivation of its tokens.

ghost use Rattle.std.specs.Prelude.{◌≡◌, ℕ, List, IfOk, Some, map, option_map};
ghost use Rattle.ll_engine.specs.Language.{IsLeftmostDerivation};
ghost use Rattle.lotos_base.specs.WrittenView.{listed_operation_of, written_term_of};
ghost use Rattle.lotos_rows.specs.Rows.{grammar_from};
ghost use Rattle.lotos_rows.specs.declared.starts.TheConstants as starts;
ghost use Rattle.lotos_rows.specs.Starts.{AreItems, AreOptionalTerms, AreOrderItems, IsWrittenSpecification};
ghost use Rattle.tree_building.specs.Sentences.{Derived, kind_of};
ghost use Rattle.syntax_trees.specs.TreeViews.{item_of, written_specification_of};
ghost use Rattle.tree_building.specs.Meaning.{Meaning};
ghost use Rattle.tree_building.specs.MeaningView.{meaning};
ghost use Rattle.tree_building.specs.LotosGrammar.{IsLotosGrammar};

use crate::{Builder, built_items, built_order, built_specification, built_terms};
use ll_engine::{Grammar, fold_derivation};
use lotos_base::{OrderItem, Written};
use lotos_lexer::Token;
use lotos_rows::{order_grammar, specification_grammar, terms_grammar, types_grammar};
use std::alloc::{AllocError, Global};
use syntax_trees::{ItemText, SpecText};
use tree_building::Value;

/// The value that the tokens of a text have by their leftmost derivation.
fn derived_value(
    alloc: Global,
    text: &[u8],
    grammar: &Grammar,
    tokens: &[Token],
    rows: Vec<u32>,
) -> Result<Option<Value>, AllocError>
    requires lotos { IsLotosGrammar grammar.now }
    requires derivation { IsLeftmostDerivation grammar.now rows.items (map kind_of tokens.now) }
    ensures { IfOk result (λ built. (found : Meaning)
        → Derived text.now grammar.now.start tokens.now found
        → option_map meaning built ≡ Some found) }
{
    fold_derivation(alloc, &Builder { text }, grammar, tokens, rows)
}

/// The specification that the tokens of a text are, from the rows of their leftmost derivation.
/// Only want of memory may come instead.
pub fn specification_tree(
    alloc: Global,
    text: &[u8],
    tokens: &[Token],
    rows: Vec<u32>,
) -> Result<SpecText, AllocError>
    requires { IsLeftmostDerivation (grammar_from starts.SPEC) rows.items (map kind_of tokens.now) }
    ensures { IfOk result (λ spec. IsWrittenSpecification text.now tokens.now
        (written_specification_of spec)) }
{
    let grammar = specification_grammar();
    let Some(value) = derived_value(alloc, text, &grammar, tokens, rows)? else {
        unreachable!()
    };
    let Some(spec) = built_specification(value) else {
        unreachable!()
    };
    Ok(spec)
}

/// The items that the tokens of a text are, in text order, from the rows of their leftmost
/// derivation. Only want of memory may come instead.
pub fn items_trees(
    alloc: Global,
    text: &[u8],
    tokens: &[Token],
    rows: Vec<u32>,
) -> Result<Vec<ItemText>, AllocError>
    requires { IsLeftmostDerivation (grammar_from starts.TYPETEXT) rows.items
        (map kind_of tokens.now) }
    ensures { IfOk result (λ items. AreItems text.now tokens.now (map item_of items.items)) }
{
    let grammar = types_grammar();
    let Some(value) = derived_value(alloc, text, &grammar, tokens, rows)? else {
        unreachable!()
    };
    let Some(items) = built_items(value) else {
        unreachable!()
    };
    Ok(items)
}

/// The operations that the tokens of an order file list, in text order, from the rows of their
/// leftmost derivation. Only want of memory may come instead.
pub fn order_items(
    alloc: Global,
    text: &[u8],
    tokens: &[Token],
    rows: Vec<u32>,
) -> Result<Vec<OrderItem>, AllocError>
    requires { IsLeftmostDerivation (grammar_from starts.ORDER) rows.items (map kind_of tokens.now) }
    ensures { IfOk result (λ items. AreOrderItems text.now tokens.now
        (map listed_operation_of items.items)) }
{
    let grammar = order_grammar();
    let Some(value) = derived_value(alloc, text, &grammar, tokens, rows)? else {
        unreachable!()
    };
    let Some(items) = built_order(value) else {
        unreachable!()
    };
    Ok(items)
}

/// The terms that the tokens of a text are, in text order, from the rows of their leftmost
/// derivation. Only want of memory may come instead.
pub fn terms_trees(
    alloc: Global,
    text: &[u8],
    tokens: &[Token],
    rows: Vec<u32>,
) -> Result<Vec<Written>, AllocError>
    requires { IsLeftmostDerivation (grammar_from starts.TERMS) rows.items (map kind_of tokens.now) }
    ensures { IfOk result (λ terms. AreOptionalTerms text.now tokens.now
        (map written_term_of terms.items)) }
{
    let grammar = terms_grammar();
    let Some(value) = derived_value(alloc, text, &grammar, tokens, rows)? else {
        unreachable!()
    };
    let Some(terms) = built_terms(value) else {
        unreachable!()
    };
    Ok(terms)
}
