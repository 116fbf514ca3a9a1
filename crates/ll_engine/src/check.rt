//! The check of a grammar: what its parts derive, begin with and are followed by, and what is wrong
//! with it.

ghost use Rattle.std.specs.Prelude.{◌≡◌, ◌+◌, not, true, IfOk, MatchResult};
ghost use Rattle.ll_engine.specs.Computed.{is_marked, part_column, IsLeastBelow};
ghost use Rattle.ll_engine.specs.Related.{related, IsFirstSets, IsFollowSets};
ghost use Rattle.ll_engine.specs.View.{grammar_of, is_well_formed};
ghost use Rattle.ll_engine.specs.Checked.{IsChecked, IsTableFaultOf};

use crate::fault::TableFault;
use crate::marks::{deriving_parts, is_marked};
use crate::prediction::{corners, followers};
use crate::relation::{Relation, part_column};
use crate::symbol::Row;
use crate::table::{NO_ROW, table};
use std::alloc::{AllocError, Global};

/// The least part without a mark.
fn least_unmarked(marks: &[bool], parts: u16) -> Option<u16>
    ensures { IsLeastBelow (λ part. not (is_marked marks.now part)) parts result }
{
    for part in 0..parts {
        if !is_marked(marks, part) {
            return Some(part);
        }
    }
    None
}

/// The least part that begins with itself.
fn least_left_cycle(first: &Relation, parts: u16) -> Option<u16>
    ensures { IsLeastBelow (λ part. related first.now part (part_column first.now.tokens part))
        parts result }
{
    for part in 0..parts {
        if first.has(part, part_column(first.tokens, part)) {
            return Some(part);
        }
    }
    None
}

/// What the lists begin with that each part derives.
fn first_sets(
    alloc: Global,
    nullable: &[bool],
    rows: &[Row],
    parts: u16,
    tokens: u16,
) -> Result<Relation, AllocError>
    ensures { IfOk result (IsFirstSets rows.now parts tokens (is_marked nullable.now)) }
{
    let none = Relation::empty(alloc, tokens);
    let corners = corners(alloc, nullable, &none, rows, parts)?;
    corners.closed(alloc)
}

/// What may follow each part.
fn follow_sets(
    alloc: Global,
    nullable: &[bool],
    first: &Relation,
    rows: &[Row],
    start: u16,
    parts: u16,
) -> Result<Relation, AllocError>
    ensures { IfOk result (IsFollowSets rows.now parts first.now.tokens start
        (is_marked nullable.now) first.now) }
{
    let followers = followers(alloc, nullable, first, rows, start, parts)?;
    followers.closed(alloc)
}

/// The table of the grammar, or the first fault.
pub fn checked_table(
    alloc: Global,
    rows: &[Row],
    parts: u16,
    tokens: u16,
    start: u16,
) -> Result<Vec<u32>, TableFault>
    requires { is_well_formed (grammar_of rows.now parts tokens start) ≡ true }
    ensures { MatchResult result
        (λ table. IsChecked (grammar_of rows.now parts tokens start) table.items)
        (IsTableFaultOf (grammar_of rows.now parts tokens start)) }
{
    if rows.len() >= NO_ROW as usize {
        return Err(TableFault::NoMemory);
    }
    let productive = deriving_parts(alloc, rows, parts, true)?;
    if let Some(part) = least_unmarked(&productive, parts) {
        return Err(TableFault::Barren { part });
    }
    let nullable = deriving_parts(alloc, rows, parts, false)?;
    let first = first_sets(alloc, &nullable, rows, parts, tokens)?;
    if let Some(part) = least_left_cycle(&first, parts) {
        return Err(TableFault::LeftCycle { part });
    }
    let follow = follow_sets(alloc, &nullable, &first, rows, start, parts)?;
    table(alloc, &nullable, &first, &follow, rows, parts)
}
