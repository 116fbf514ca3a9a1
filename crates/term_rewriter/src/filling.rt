//! Instances of right sides, made of the parts of the term that the left side matches.

ghost use Rattle.sort_terms.specs.TermView.{all_profiled, profiled_of};
ghost use Rattle.std.specs.Prelude.{IfOk, map};
ghost use Rattle.std.specs.Vec.Iter.{into_iter_items};
ghost use Rattle.term_rewriter.specs.Wanted.{AreFilled, IsFilled};
ghost use Rattle.term_rewriter.specs.Taken.{IsRewritten};

use crate::taking::taken;
use crate::wanting::{values_for, variables};
use lotos_base::NoMemory;
use sort_terms::Term;
use std::alloc::Global;
use std::vec::IntoIter;

/// The instance of the right side by what the variables of the left side have in the term, which
/// the left side matches. What a variable has is moved into the instance at its last place and
/// copied at the places before.
pub fn rewritten(alloc: Global, left: &Term, right: &Term, term: Term) -> Result<Term, NoMemory>
    ensures { IfOk result (λ made. IsRewritten (profiled_of left.now) (profiled_of right.now)
        (profiled_of term) (profiled_of made)) }
{
    let values = taken(left, term, Vec::new(alloc))?;
    let wanted = variables(right, Vec::new(alloc))?;
    let mut terms = values_for(alloc, wanted.as_slice(), values)?.into_iter();
    filled(right, &mut terms)
}

// The term with the next terms put for its variables, from left to right.
#[cycle(filling)]
fn filled(term: &Term, values: &mut IntoIter<Term>) -> Result<Term, NoMemory>
    ensures { IfOk result (λ made. IsFilled (profiled_of term.now)
        (map profiled_of (into_iter_items values.old))
        (map profiled_of (into_iter_items values.new)) (profiled_of made)) }
{
    match term {
        Term::Var { number, sort } => match values.next() {
            Some(value) => Ok(value),
            None => Ok(Term::Var {
                number: *number,
                sort: *sort,
            }),
        },
        Term::Node {
            op,
            profile,
            arguments,
        } => {
            let made = all_filled(arguments.items(), values)?;
            Term::node(*op, profile.clone()?, made)
        }
    }
}

// The same for the terms of a list.
#[cycle(filling)]
fn all_filled(terms: &Vec<Term>, values: &mut IntoIter<Term>) -> Result<Vec<Term>, NoMemory>
    ensures { IfOk result (λ made. AreFilled (all_profiled terms.now.items)
        (map profiled_of (into_iter_items values.old))
        (map profiled_of (into_iter_items values.new)) (all_profiled made.items)) }
{
    let mut made = Vec::with_capacity(*terms.allocator(), terms.len())?;
    for term in terms {
        made.push(filled(term, values)?)?;
    }
    Ok(made)
}
