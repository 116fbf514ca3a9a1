//! Parts that are marked by their rows: those that derive some list of tokens, and those that
//! derive the empty list.

ghost use Rattle.std.specs.Prelude.{◌≡◌, ℕ, ◌<◌, ◌↔◌, IfOk, map, true, count_by, length, vec_len};
ghost use Rattle.std.specs.List.{range_with_len};
ghost use Rattle.ll_engine.specs.Computed.{is_marked, all_marked, has_marked_row, next_mark};
ghost use Rattle.ll_engine.specs.Answers.{AreDeriving, HasPartsBelow};

use crate::symbol::{Row, Symbol};
use std::alloc::{AllocError, Global};

/// The part's mark; no part past the end of the marks has one.
pub fn is_marked(marks: &[bool], part: u16) -> bool
    ensures { result ≡ is_marked marks.now part }
{
    marks.get(usize::from(part)).copied().unwrap_or(false)
}

/// Whether each symbol passes: a part by its mark, a token where `tokens_pass`.
pub fn all_marked(marks: &[bool], tokens_pass: bool, symbols: &[Symbol]) -> bool
    ensures { result ≡ all_marked (is_marked marks.now) tokens_pass symbols.now }
{
    for symbol in symbols {
        let passes = match symbol {
            Symbol::Token(_) => tokens_pass,
            Symbol::Part(part) => is_marked(marks, *part),
        };
        if !passes {
            return false;
        }
    }
    true
}

/// Whether some row of the part has a right side that passes.
fn has_marked_row(rows: &[Row], marks: &[bool], tokens_pass: bool, part: u16) -> bool
    ensures { result ≡ has_marked_row rows.now (is_marked marks.now) tokens_pass part }
{
    for row in rows {
        if row.left == part && all_marked(marks, tokens_pass, &row.right) {
            return true;
        }
    }
    false
}

/// The part's mark one round later.
fn next_mark(rows: &[Row], marks: &[bool], tokens_pass: bool, part: u16) -> bool
    ensures { result ≡ next_mark rows.now marks.now tokens_pass part }
{
    is_marked(marks, part) || has_marked_row(rows, marks, tokens_pass, part)
}

/// The marks one round later.
fn next_marks(
    alloc: Global,
    rows: &[Row],
    marks: &[bool],
    tokens_pass: bool,
    parts: u16,
) -> Result<Vec<bool>, AllocError>
    ensures { IfOk result
        (λ next. next.items ≡ map (next_mark rows.now marks.now tokens_pass)
        (range_with_len 0 parts)) }
{
    let mut next = Vec::new(alloc);
    for part in 0..parts {
        next.push(next_mark(rows, marks, tokens_pass, part))?;
    }
    Ok(next)
}

/// How many marks are set.
pub fn count_set(marks: &[bool]) -> usize
    ensures { result ≡ count_by (λ mark. mark) marks.now }
{
    marks.iter().filter(|mark| **mark).count()
}

/// The parts that derive a list of tokens; where no token passes, those that derive the empty list.
pub fn deriving_parts(
    alloc: Global,
    rows: &[Row],
    parts: u16,
    tokens_pass: bool,
) -> Result<Vec<bool>, AllocError>
    requires { HasPartsBelow rows.now parts }
    ensures { IfOk result (λ marks. AreDeriving rows.now parts tokens_pass marks.items) }
{
    let mut marks = vec![in alloc; false; usize::from(parts)]?;
    let mut count = 0;
    loop {
        let next = next_marks(alloc, rows, &marks, tokens_pass, parts)?;
        let next_count = count_set(&next);
        if next_count == count {
            return Ok(marks);
        }
        marks = next;
        count = next_count;
    }
}
