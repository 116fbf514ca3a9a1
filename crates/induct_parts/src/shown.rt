//! Statements as they are shown.

ghost use Rattle.induct_parts.specs.Shown.{shown_statement};
ghost use Rattle.induct_parts.specs.StatementView.{statement_of};
ghost use Rattle.std.specs.Prelude.{◌≡◌, IfOk};
ghost use Rattle.term_match.specs.Appearance.{counted};

use crate::statements::Statement;
use lotos_base::NoMemory;
use std::alloc::Global;
use term_match::noting::note;
use term_match::renumbered;

/// The statement with its variables numbered from 0 by first appearance, left side first.
pub fn shown(alloc: Global, statement: &Statement) -> Result<Statement, NoMemory>
    ensures { IfOk result (λ made. statement_of made
        ≡ shown_statement (statement_of statement.now)) }
{
    let first = note(statement.left.term(), Vec::new(alloc))?;
    let seen = note(statement.right.term(), first)?;
    let numbers = positions(alloc, seen.as_slice())?;
    Ok(Statement {
        left: renumbered(&statement.left, numbers.as_slice())?,
        right: renumbered(&statement.right, numbers.as_slice())?,
    })
}

// Each number with its position.
fn positions(alloc: Global, seen: &[u64]) -> Result<Vec<(u64, u64)>, NoMemory>
    ensures { IfOk result (λ pairs. pairs.items ≡ counted 0 seen.now) }
{
    let mut made = Vec::with_capacity(alloc, seen.len())?;
    for i in 0..seen.len() {
        made.push((seen[i], i as u64))?;
    }
    Ok(made)
}
