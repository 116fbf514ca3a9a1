//! The parts of a term that the variables of a pattern stand for, taken out of it.

ghost use Rattle.sort_terms.specs.TermView.{all_profiled, profiled_of};
ghost use Rattle.std.specs.Prelude.{IfOk};
ghost use Rattle.term_rewriter.specs.Taken.{AreAllTaken, AreTaken, IsTakenAtVariable, owned_pairs};

use crate::wanting::place_of;
use lotos_base::NoMemory;
use sort_terms::{Parts, Term};

/// The pairs found before and those of the pattern's other variables, with the parts of the term
/// themselves, where the pattern matches the term. What stands beside them is dropped.
#[cycle(taking)]
pub fn taken(
    pattern: &Term,
    term: Term,
    values: Vec<(u64, Term)>,
) -> Result<Vec<(u64, Term)>, NoMemory>
    ensures { IfOk result (λ more. AreTaken (profiled_of pattern.now) (profiled_of term)
        (owned_pairs values.items) (owned_pairs more.items)) }
{
    match pattern {
        Term::Var { number, .. } => bound(*number, term, values),
        Term::Node {
            arguments: patterns,
            ..
        } => match term.into_parts() {
            Parts::Variable { .. } => Ok(values),
            Parts::Operation { arguments, .. } => {
                all_taken(patterns.items(), arguments.into_items()?, values)
            }
        },
    }
}

// The same for the patterns and terms of two lists.
#[cycle(taking)]
fn all_taken(
    patterns: &Vec<Term>,
    terms: Vec<Term>,
    mut values: Vec<(u64, Term)>,
) -> Result<Vec<(u64, Term)>, NoMemory>
    ensures { IfOk result (λ more. AreAllTaken (all_profiled patterns.now.items)
        (all_profiled terms.items) (owned_pairs values.items) (owned_pairs more.items)) }
{
    let mut rest = terms.into_iter();
    for pattern in patterns {
        let Some(term) = rest.next() else {
            return Ok(values);
        };
        values = taken(pattern, term, values)?;
    }
    Ok(values)
}

// The pairs with the term for the variable, unless the variable has something already.
fn bound(
    number: u64,
    term: Term,
    mut values: Vec<(u64, Term)>,
) -> Result<Vec<(u64, Term)>, NoMemory>
    ensures { IfOk result (λ more. IsTakenAtVariable number (profiled_of term)
        (owned_pairs values.items)
        (owned_pairs more.items)) }
{
    match place_of(values.as_slice(), number) {
        Some(_) => Ok(values),
        None => {
            values.push((number, term))?;
            Ok(values)
        }
    }
}
