//! The test that a grammar's numbers are in range.

ghost use Rattle.std.specs.Prelude.{◌≡◌};
ghost use Rattle.std.specs.List.{list_all};
ghost use Rattle.ll_engine.specs.View.{production_of, grammar_of, is_in_range, is_row_in_range, is_well_formed};

use crate::symbol::{Row, Symbol};

/// Whether the symbol's number is below the count of its kind.
fn is_in_range(parts: u16, tokens: u16, symbol: Symbol) -> bool
    ensures { result ≡ is_in_range parts tokens symbol }
{
    match symbol {
        Symbol::Token(token) => token < tokens,
        Symbol::Part(part) => part < parts,
    }
}

/// Whether the row's numbers are below their counts.
fn is_row_in_range(parts: u16, tokens: u16, row: &Row) -> bool
    ensures { result ≡ is_row_in_range parts tokens (production_of row.now) }
{
    if row.left >= parts {
        return false;
    }
    for symbol in &row.right {
        if !is_in_range(parts, tokens, *symbol) {
            return false;
        }
    }
    true
}

/// Whether [`crate::Grammar::checked`] may be called: each part number of the rows is below
/// `parts`, each token number below `tokens`, `start` below `parts`, and `tokens` below 65,535.
pub fn is_well_formed(rows: &[Row], parts: u16, tokens: u16, start: u16) -> bool
    ensures { result ≡ is_well_formed (grammar_of rows.now parts tokens start) }
{
    for row in rows {
        if !is_row_in_range(parts, tokens, row) {
            return false;
        }
    }
    start < parts && tokens < u16::MAX
}
