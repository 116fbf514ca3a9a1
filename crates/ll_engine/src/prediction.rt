//! Which tokens predict a row: the tests that fill the first and follow relations and the table.

ghost use Rattle.std.specs.Prelude.{◌≡◌, ◌+◌, ◌≤◌, ◌==◌, ◌||◌, IfOk};
ghost use Rattle.ll_engine.specs.Computed.{is_marked, part_column, begins, has_corner, continues, is_part, follows_in, has_follower, predicts, is_candidate};
ghost use Rattle.ll_engine.specs.Related.{related, HasCells};

use crate::marks::{all_marked, is_marked};
use crate::relation::{Relation, cell_count, part_column};
use crate::symbol::{Row, Symbol};
use std::alloc::{AllocError, Global};

/// Whether the column is that of the symbol, or of a symbol with which a list from the part begins.
fn starts(first: &Relation, part: u16, column: usize) -> bool
    ensures { result ≡ ((part_column first.now.tokens part == column)
        || related first.now part column) }
{
    part_column(first.tokens, part) == column || first.has(part, column)
}

/// Whether a list from the symbols may begin with the column's symbol.
pub fn begins(nullable: &[bool], first: &Relation, column: usize, symbols: &[Symbol]) -> bool
    ensures { result
        ≡ begins (is_marked nullable.now) (related first.now) first.now.tokens column symbols.now }
{
    for symbol in symbols {
        match symbol {
            Symbol::Token(token) => return usize::from(*token) == column,
            Symbol::Part(part) => {
                if starts(first, *part, column) {
                    return true;
                }
                if !is_marked(nullable, *part) {
                    return false;
                }
            }
        }
    }
    false
}

/// Whether some row of the part begins with the column's symbol.
fn has_corner(nullable: &[bool], first: &Relation, rows: &[Row], part: u16, column: usize) -> bool
    ensures { result
        ≡ has_corner rows.now (is_marked nullable.now) (related first.now) first.now.tokens part
        column }
{
    for row in rows {
        if row.left == part && begins(nullable, first, column, &row.right) {
            return true;
        }
    }
    false
}

/// The relation of the parts to the symbols with which their rows begin.
pub fn corners(
    alloc: Global,
    nullable: &[bool],
    first: &Relation,
    rows: &[Row],
    parts: u16,
) -> Result<Relation, AllocError>
    ensures { IfOk result (λ corners. HasCells corners
        (has_corner rows.now (is_marked nullable.now) (related first.now) first.now.tokens) parts
        first.now.tokens) }
{
    let tokens = first.tokens;
    let width = part_column(tokens, parts);
    let mut bits = Vec::new(alloc);
    for cell in 0..cell_count(parts, tokens) {
        bits.push(has_corner(nullable, first, rows, (cell / width) as u16, cell % width))?;
    }
    Ok(Relation {
        bits,
        parts,
        tokens,
    })
}

/// Whether what stands behind a part in a row of `left` may begin with the column's token, or may
/// be empty where the column is that of `left`.
fn continues(
    nullable: &[bool],
    first: &Relation,
    left: u16,
    column: usize,
    symbols: &[Symbol],
) -> bool
    ensures { result
        ≡ continues (is_marked nullable.now) (related first.now) first.now.tokens left column
        symbols.now }
{
    (column < usize::from(first.tokens) && begins(nullable, first, column, symbols))
        || (part_column(first.tokens, left) == column && all_marked(nullable, false, symbols))
}

/// Whether the symbol is the part.
fn is_part(part: u16, symbol: Symbol) -> bool
    ensures { result ≡ is_part part symbol }
{
    match symbol {
        Symbol::Token(_) => false,
        Symbol::Part(other) => other == part,
    }
}

/// Whether what stands behind some place of the part in the row has the column.
fn follows_in(nullable: &[bool], first: &Relation, row: &Row, part: u16, column: usize) -> bool
    ensures { result
        ≡ follows_in (is_marked nullable.now) (related first.now) first.now.tokens row.now.left part
        column row.now.right.items }
{
    let symbols = row.right.as_slice();
    for (place, symbol) in symbols.iter().enumerate() {
        if is_part(part, *symbol)
            && continues(nullable, first, row.left, column, &symbols[place + 1..])
        {
            return true;
        }
    }
    false
}

/// Whether the column follows the part: the end behind the start part, or what stands behind the
/// part in some row.
fn has_follower(
    nullable: &[bool],
    first: &Relation,
    rows: &[Row],
    start: u16,
    part: u16,
    column: usize,
) -> bool
    ensures { result
        ≡ has_follower rows.now (is_marked nullable.now) (related first.now) first.now.tokens start
        part column }
{
    if part == start && column == usize::from(first.tokens) {
        return true;
    }
    for row in rows {
        if follows_in(nullable, first, row, part, column) {
            return true;
        }
    }
    false
}

/// The relation of the parts to the tokens that stand behind them, and to the parts whose followers
/// are theirs too.
pub fn followers(
    alloc: Global,
    nullable: &[bool],
    first: &Relation,
    rows: &[Row],
    start: u16,
    parts: u16,
) -> Result<Relation, AllocError>
    ensures { IfOk result (λ followers. HasCells followers
        (has_follower rows.now (is_marked nullable.now) (related first.now) first.now.tokens start)
        parts first.now.tokens) }
{
    let tokens = first.tokens;
    let width = part_column(tokens, parts);
    let mut bits = Vec::new(alloc);
    for cell in 0..cell_count(parts, tokens) {
        let part = (cell / width) as u16;
        bits.push(has_follower(nullable, first, rows, start, part, cell % width))?;
    }
    Ok(Relation {
        bits,
        parts,
        tokens,
    })
}

/// Whether the token, or the end, predicts the row.
fn predicts(nullable: &[bool], first: &Relation, follow: &Relation, token: usize, row: &Row) -> bool
    ensures { result
        ≡ predicts (is_marked nullable.now) (related first.now) (related follow.now)
        first.now.tokens token row.now }
{
    begins(nullable, first, token, &row.right)
        || (all_marked(nullable, false, &row.right) && follow.has(row.left, token))
}

/// Whether the row is one of the part and the token, or the end, predicts it.
pub fn is_candidate(
    nullable: &[bool],
    first: &Relation,
    follow: &Relation,
    part: u16,
    token: usize,
    row: &Row,
) -> bool
    ensures { result
        ≡ is_candidate (is_marked nullable.now) (related first.now) (related follow.now)
        first.now.tokens part token row.now }
{
    row.left == part && predicts(nullable, first, follow, token, row)
}
