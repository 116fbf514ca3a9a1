//! The table: which row of a part each token predicts.

ghost use Rattle.std.specs.Prelude.{◌≡◌, ℕ, ◌+◌, ◌*◌, ◌/◌, ◌%◌, ◌<◌, ◌≤◌, length, IfOk, IfErr, MatchResult};
ghost use Rattle.ll_engine.specs.Computed.{is_marked, is_candidate, IsChoice, IsTableEntry};
ghost use Rattle.ll_engine.specs.Related.{related};
ghost use Rattle.ll_engine.specs.Table.{IsConflictEntry, IsTable, IsTableFault};

use crate::choice::Choice;
use crate::fault::TableFault;
use crate::prediction::is_candidate;
use crate::relation::Relation;
use crate::symbol::Row;
use std::alloc::Global;

/// The entry where no row is predicted.
pub const NO_ROW: u32 = u32::MAX;

/// Which rows of the part the token, or the end, predicts.
fn choice(
    nullable: &[bool],
    first: &Relation,
    follow: &Relation,
    rows: &[Row],
    part: u16,
    token: usize,
) -> Choice
    requires { length rows.now < NO_ROW }
    ensures { IsChoice (is_candidate (is_marked nullable.now) (related first.now)
        (related follow.now) first.now.tokens part token) rows.now result }
{
    let mut found = None;
    for (number, row) in rows.iter().enumerate() {
        if is_candidate(nullable, first, follow, part, token, row) {
            if found.is_some() {
                return Choice::Several;
            }
            found = Some(number as u32);
        }
    }
    match found {
        None => Choice::Nothing,
        Some(row) => Choice::One(row),
    }
}

/// The entry of the part and the token, or of the end.
fn entry(
    nullable: &[bool],
    first: &Relation,
    follow: &Relation,
    rows: &[Row],
    part: u16,
    token: u16,
) -> Result<u32, TableFault>
    requires { length rows.now < NO_ROW }
    ensures { MatchResult result
        (IsTableEntry (is_candidate (is_marked nullable.now) (related first.now)
        (related follow.now) first.now.tokens part token) rows.now)
        (IsConflictEntry (is_candidate (is_marked nullable.now) (related first.now)
        (related follow.now) first.now.tokens part token) rows.now part token) }
{
    match choice(nullable, first, follow, rows, part, usize::from(token)) {
        Choice::Nothing => Ok(NO_ROW),
        Choice::One(row) => Ok(row),
        Choice::Several => Err(TableFault::Conflict { part, token }),
    }
}

/// The entries, part by part and in each token by token, the end last.
pub fn table(
    alloc: Global,
    nullable: &[bool],
    first: &Relation,
    follow: &Relation,
    rows: &[Row],
    parts: u16,
) -> Result<Vec<u32>, TableFault>
    requires few_rows { length rows.now < NO_ROW }
    requires room_for_end { first.now.tokens < 65535 }
    ensures { MatchResult result
        (λ table. IsTable (is_candidate (is_marked nullable.now) (related first.now)
        (related follow.now) first.now.tokens) rows.now parts first.now.tokens table.items)
        (IsTableFault (is_candidate (is_marked nullable.now) (related first.now)
        (related follow.now) first.now.tokens) rows.now parts first.now.tokens) }
{
    let width = usize::from(first.tokens) + 1;
    let mut table = Vec::new(alloc);
    for cell in 0..usize::from(parts) * width {
        let part = (cell / width) as u16;
        let token = (cell % width) as u16;
        match entry(nullable, first, follow, rows, part, token) {
            Ok(row) => table.push(row)?,
            Err(fault) => return Err(fault),
        }
    }
    Ok(table)
}
