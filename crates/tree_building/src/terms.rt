//! What the rows of terms build.

ghost use Rattle.std.specs.Prelude.{◌≡◌, ◌++◌, IfOk, OnOk, Some, map, option_map, reverse};
ghost use Rattle.lotos_base.specs.WrittenView.{placed_name_of, written_term_of};
ghost use Rattle.lotos_rows.specs.Terms.{applied, infix_term};
ghost use Rattle.syntax_trees.specs.LeftGrouping.{grouped_left};
ghost use Rattle.lotos_rows.specs.HandedOn.{from_last};
ghost use Rattle.tree_building.specs.MeaningView.{meaning};
ghost use Rattle.tree_building.specs.RowMeaning.{terms_row_means};
ghost use Rattle.tree_building.specs.TermsMeaning.{applied_factor, bracketed_factor, factor_before_factors, term_before_terms, term_of_factors, with_written_sorts};
ghost use Rattle.tree_building.specs.TermsViews.{factor_of};

use crate::names::{Built, one_name, turned};
use crate::terms_values::StartedTerm;
use crate::value::{Value, take};
use lotos_base::{Form, Written};
use lotos_rows::Token;
use lotos_rows::terms::TermsRow;
use std::alloc::{AllocError, Global};
use syntax_trees::Named;

/// An operation between its arguments.
fn infix(
    alloc: Global,
    operation: Named,
    left: Written,
    right: Written,
) -> Result<Written, AllocError>
    ensures { IfOk result (λ term. written_term_of term
        ≡ infix_term (placed_name_of operation) (written_term_of left) (written_term_of right)) }
{
    let mut args = Vec::with_capacity(alloc, 2)?;
    args.push(left)?;
    args.push(right)?;
    Ok(Written {
        place: operation.0,
        name: operation.1,
        form: Form::Infix,
        args,
        sorts: Vec::new(alloc),
    })
}

/// A first factor and those behind it, which are held from the last to the first, grouped to the
/// left.
#[tactic(auto, using(crate::proofs::FromLast::from_last_more, crate::proofs::FromLast::from_last_none))]
fn grouped(
    alloc: Global,
    first: Written,
    mut behind: Vec<(Named, Written)>,
) -> Result<Written, AllocError>
    ensures { IfOk result (λ term. written_term_of term
        ≡ grouped_left infix_term (written_term_of first) (from_last factor_of behind.items)) }
{
    let mut left = first;
    while let Some(next) = behind.pop() {
        left = infix(alloc, next.0, left, next.1)?;
    }
    Ok(left)
}

/// An operation or a variable before its arguments, which are held from the last to the first.
#[tactic(auto, using(crate::proofs::FromLast::map_reverse))]
fn application(alloc: Global, name: Named, args: Vec<Written>) -> Written
    ensures { written_term_of result ≡ applied (placed_name_of name)
        (from_last written_term_of args.items) }
{
    Written {
        place: name.0,
        name: name.1,
        form: Form::Prefix,
        args: turned(args),
        sorts: Vec::new(alloc),
    }
}

/// The term with the sorts of further `of`s put on it.
fn marked(term: Written, mark: Vec<Named>) -> Result<Written, AllocError>
    ensures { IfOk result (λ it. written_term_of it
        ≡ with_written_sorts (from_last placed_name_of mark.items) (written_term_of term)) }
{
    let Written {
        place,
        name,
        form,
        args,
        mut sorts,
    } = term;
    sorts.append(&mut turned(mark))?;
    Ok(Written {
        place,
        name,
        form,
        args,
        sorts,
    })
}

fn whole_term(alloc: Global, parts: &mut Vec<Value>) -> Built
    ensures { IfOk result (λ built. option_map meaning built
        ≡ term_of_factors (from_last meaning parts.old.items)) }
{
    let Some(first) = take::<StartedTerm>(parts) else {
        return Ok(None);
    };
    let Some(behind) = take::<Vec<(Named, Written)>>(parts) else {
        return Ok(None);
    };
    Ok(Some(Value::Term(StartedTerm {
        start: first.start,
        term: grouped(alloc, first.term, behind)?,
    })))
}

#[tactic(auto, using(crate::proofs::FromLast::from_last_more))]
fn joined_factors(parts: &mut Vec<Value>) -> Built
    ensures { IfOk result (λ built. option_map meaning built
        ≡ factor_before_factors (from_last meaning parts.old.items)) }
{
    let Some(operation) = take::<Named>(parts) else {
        return Ok(None);
    };
    let Some(factor) = take::<StartedTerm>(parts) else {
        return Ok(None);
    };
    let Some(mut factors) = take::<Vec<(Named, Written)>>(parts) else {
        return Ok(None);
    };
    factors.push((operation, factor.term))?;
    Ok(Some(Value::Factors(factors)))
}

fn factor_of_operation(alloc: Global, parts: &mut Vec<Value>) -> Built
    ensures { IfOk result (λ built. option_map meaning built
        ≡ applied_factor (from_last meaning parts.old.items)) }
{
    let Some(name) = take::<Named>(parts) else {
        return Ok(None);
    };
    let Some(arguments) = take::<Vec<Written>>(parts) else {
        return Ok(None);
    };
    let Some(mark) = take::<Vec<Named>>(parts) else {
        return Ok(None);
    };
    let start = name.0;
    let term = marked(application(alloc, name, arguments), mark)?;
    Ok(Some(Value::Term(StartedTerm { start, term })))
}

fn factor_in_brackets(token: Option<Token>, parts: &mut Vec<Value>) -> Built
    ensures { IfOk result (λ built. option_map meaning built
        ≡ bracketed_factor token (from_last meaning parts.old.items)) }
{
    let Some(left) = token else {
        return Ok(None);
    };
    let Some(inside) = take::<StartedTerm>(parts) else {
        return Ok(None);
    };
    let Some(mark) = take::<Vec<Named>>(parts) else {
        return Ok(None);
    };
    Ok(Some(Value::Term(StartedTerm {
        start: left.place,
        term: marked(inside.term, mark)?,
    })))
}

#[tactic(auto, using(crate::proofs::FromLast::from_last_more))]
fn joined_terms(parts: &mut Vec<Value>) -> Built
    ensures { IfOk result (λ built. option_map meaning built
        ≡ term_before_terms (from_last meaning parts.old.items)) }
{
    let Some(first) = take::<StartedTerm>(parts) else {
        return Ok(None);
    };
    let Some(mut terms) = take::<Vec<Written>>(parts) else {
        return Ok(None);
    };
    terms.push(first.term)?;
    Ok(Some(Value::Terms(terms)))
}

/// What a row of terms builds from its token and its parts.
#[tactic(auto, using(crate::proofs::FromLast::from_last_none))]
pub fn build(alloc: Global, row: TermsRow, token: Option<Token>, parts: &mut Vec<Value>) -> Built
    ensures { IfOk result (λ built. option_map meaning built
        ≡ terms_row_means row token (from_last meaning parts.old.items)) }
{
    match row {
        TermsRow::Term => whole_term(alloc, parts),
        TermsRow::NoMoreFactors => Ok(Some(Value::Factors(Vec::new(alloc)))),
        TermsRow::MoreFactors => joined_factors(parts),
        TermsRow::AppliedFactor => factor_of_operation(alloc, parts),
        TermsRow::BracketedFactor => factor_in_brackets(token, parts),
        TermsRow::NoArguments | TermsRow::NoMoreTerms => Ok(Some(Value::Terms(Vec::new(alloc)))),
        TermsRow::Arguments | TermsRow::MoreTerms => Ok(take::<Vec<Written>>(parts).map(
            Value::Terms,
        )),
        TermsRow::NoSortMark => Ok(Some(Value::Names(Vec::new(alloc)))),
        TermsRow::SortMark => one_name(alloc, parts),
        TermsRow::TermList => joined_terms(parts),
    }
}
