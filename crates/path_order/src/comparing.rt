//! The path order, told by tables over pairs of subterms.

ghost use Rattle.path_order.specs.ComparedView.{all_tables, compared_table_of, tables_behind};
ghost use Rattle.path_order.specs.Comparison.{
  IsToldOf,
  all_compared,
  compared,
  each_compared,
  equals_in,
  exceeds_all_in,
  exceeds_from,
  some_reaches_in,
};
ghost use Rattle.path_order.specs.PrecedenceView.{precedence_of, status_of};
ghost use Rattle.sort_terms.specs.SortedView.{term_in};
ghost use Rattle.sort_terms.specs.TermView.{term_of, bare_terms_of};
ghost use Rattle.std.specs.Prelude.{◌≡◌, ◌↔◌, ◌&&◌, ◌||◌, IfOk, IsTrue, map, nat_eq, nat_lt};
ghost use Rattle.lotos_base.specs.Term.{node, variable};
ghost use Rattle.lotos_base.specs.Tests.{term_eq};
ghost use Rattle.rewriting_theory.specs.OrderTest.{same_length};
ghost use Rattle.rewriting_theory.specs.PathOrder.{IsGreater};

use crate::compared::{Compared, equals, exceeds, exceeds_all, parts, some_reaches};
use crate::heads::exceeds_by_heads;
use crate::precedence::Precedence;
use crate::status::Status;
use lotos_base::NoMemory;
use sort_terms::{Sorted, Term};
use std::alloc::Global;

/// Whether the left term is greater than the right one. Where the operation at the head of one of
/// them is above all that the other one has, it takes no memory and about the sum of the sizes,
/// else the product of the sizes.
pub fn greater(
    alloc: Global,
    precedence: &Precedence,
    left: &Sorted,
    right: &Sorted,
) -> Result<bool, NoMemory>
    ensures { IfOk result
        (λ is. IsTrue is
        ↔ IsGreater (precedence_of precedence.now) (term_in left.now) (term_in right.now)) }
{
    if exceeds_by_heads(precedence, left.term(), right.term()) {
        return Ok(true);
    }
    if exceeds_by_heads(precedence, right.term(), left.term()) {
        return Ok(false);
    }
    greater_by_tables(alloc, precedence, left, right)
}

// The same, told by tables.
fn greater_by_tables(
    alloc: Global,
    precedence: &Precedence,
    left: &Sorted,
    right: &Sorted,
) -> Result<bool, NoMemory>
    ensures { IfOk result
        (λ is. IsTrue is
        ↔ IsGreater (precedence_of precedence.now) (term_in left.now) (term_in right.now)) }
{
    Ok(compare(alloc, precedence, left.term(), right.term())?.greater())
}

// The table of the first term over the second one.
#[cycle(tables)]
fn compare(
    alloc: Global,
    precedence: &Precedence,
    term: &Term,
    other: &Term,
) -> Result<Compared, NoMemory>
    ensures { IfOk result
        (λ c. compared_table_of c
        ≡ compared (precedence_of precedence.now) (term_of term.now) (term_of other.now)) }
{
    match term {
        Term::Var { number, sort } => over_variable(alloc, precedence, *number, *sort, other),
        Term::Node { op, arguments, .. } => {
            let tables = compare_each(alloc, precedence, arguments.items(), other)?;
            let rows = references(alloc, &tables)?;
            over(
                alloc,
                precedence,
                *op,
                arguments.items(),
                rows.as_slice(),
                other,
            )
        }
    }
}

// The tables of the terms of a list over the other term.
#[cycle(tables)]
fn compare_each(
    alloc: Global,
    precedence: &Precedence,
    terms: &Vec<Term>,
    other: &Term,
) -> Result<Vec<Compared>, NoMemory>
    ensures { IfOk result (λ made. map compared_table_of made.items
        ≡ each_compared (precedence_of precedence.now) (bare_terms_of terms.now.items)
        (term_of other.now)) }
{
    let mut made = Vec::with_capacity(alloc, terms.len())?;
    for term in terms {
        made.push(compare(alloc, precedence, term, other)?)?;
    }
    Ok(made)
}

// References to the tables.
fn references(alloc: Global, tables: &Vec<Compared>) -> Result<Vec<&Compared>, NoMemory>
    ensures { IfOk result (λ rows. tables_behind rows.items
        ≡ map compared_table_of tables.now.items) }
{
    let mut rows = Vec::with_capacity(alloc, tables.len())?;
    for table in tables {
        rows.push(table)?;
    }
    Ok(rows)
}

// The table of an operation on arguments over a term, where the rows are those of the arguments
// over that term.
fn over(
    alloc: Global,
    precedence: &Precedence,
    op: u32,
    arguments: &Vec<Term>,
    rows: &[&Compared],
    other: &Term,
) -> Result<Compared, NoMemory>
    ensures { IfOk result (λ c. IsToldOf (precedence_of precedence.now)
        (bare_terms_of arguments.now.items) (term_of other.now) (tables_behind rows.now)
        → compared_table_of c ≡ compared (precedence_of precedence.now)
        (node op (bare_terms_of arguments.now.items)) (term_of other.now)) }
{
    let Term::Node {
        op: g,
        arguments: others,
        ..
    } = other
    else {
        return Ok(Compared::Leaf {
            equal: false,
            greater: some_reaches(rows),
        });
    };
    let others = others.items();
    let mut below = Vec::with_capacity(alloc, others.len())?;
    for position in 0..others.len() {
        let row = parts(alloc, rows, position)?;
        below.push(over(
            alloc,
            precedence,
            op,
            arguments,
            row.as_slice(),
            &others[position],
        )?)?;
    }
    let alike = are_alike(op, *g, arguments, others);
    let equal = are_equal(alike, rows);
    let above = is_over(precedence, op, *g);
    let greater = is_greater(rows, &below, above, alike, precedence.status(op));
    Ok(Compared::Node {
        equal,
        greater,
        arguments: below,
    })
}

// The table of a variable over a term.
fn over_variable(
    alloc: Global,
    precedence: &Precedence,
    number: u64,
    sort: u32,
    other: &Term,
) -> Result<Compared, NoMemory>
    ensures { IfOk result (λ c. compared_table_of c
        ≡ compared (precedence_of precedence.now) (variable number sort) (term_of other.now)) }
{
    let Term::Node { arguments, .. } = other else {
        return Ok(Compared::Leaf {
            equal: is_variable(other, number, sort),
            greater: false,
        });
    };
    let arguments = arguments.items();
    let mut below = Vec::with_capacity(alloc, arguments.len())?;
    for argument in arguments {
        below.push(over_variable(alloc, precedence, number, sort, argument)?)?;
    }
    Ok(Compared::Node {
        equal: false,
        greater: false,
        arguments: below,
    })
}

// Whether the term is the variable.
fn is_variable(term: &Term, number: u64, sort: u32) -> bool
    ensures { result ≡ term_eq (variable number sort) (term_of term.now) }
{
    match term {
        Term::Var { number: n, sort: s } => {
            if number != *n {
                return false;
            }
            sort == *s
        }
        Term::Node { .. } => false,
    }
}

// Whether the operations are one and the lists have one length.
fn are_alike(op: u32, other: u32, arguments: &Vec<Term>, others: &Vec<Term>) -> bool
    ensures { result ≡ (nat_eq op other
        && same_length (bare_terms_of arguments.now.items) (bare_terms_of others.now.items)) }
{
    if op != other {
        return false;
    }
    arguments.len() == others.len()
}

/// Whether the first operation is above the second one.
pub fn is_over(precedence: &Precedence, op: u32, other: u32) -> bool
    ensures { result ≡ nat_lt ((precedence_of precedence.now).rank other)
        ((precedence_of precedence.now).rank op) }
{
    precedence.rank(other) < precedence.rank(op)
}

// Whether two operations on arguments are one term, by the tables of the arguments of the first
// over the second one.
fn are_equal(alike: bool, rows: &[&Compared]) -> bool
    ensures { result ≡ (alike && equals_in 0 (tables_behind rows.now)) }
{
    if alike { equals(rows) } else { false }
}

// Whether the first is greater, by those tables and the tables of the whole over the arguments of
// the second one, where the arguments are compared from the side of the status.
fn is_greater(
    rows: &[&Compared],
    below: &Vec<Compared>,
    above: bool,
    alike: bool,
    status: Status,
) -> bool
    ensures { result ≡ (some_reaches_in (tables_behind rows.now)
        || (exceeds_all_in (all_tables below.now.items)
        && (above
        || (alike && exceeds_from (status_of status) (tables_behind rows.now))))) }
{
    if some_reaches(rows) {
        return true;
    }
    if !exceeds_all(below) {
        return false;
    }
    if above {
        return true;
    }
    if alike { exceeds(status, rows) } else { false }
}
