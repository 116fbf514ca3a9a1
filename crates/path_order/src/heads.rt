//! The path order where the operations at the heads decide it, told without a table.

ghost use Rattle.path_order.specs.Heads.{all_terms_below, below_head};
ghost use Rattle.path_order.specs.PrecedenceView.{precedence_of};
ghost use Rattle.sort_terms.specs.TermView.{term_of, bare_terms_of};
ghost use Rattle.std.specs.Prelude.{◌≡◌, IsTrue};
ghost use Rattle.rewriting_theory.specs.PathOrder.{IsGreater};

use crate::comparing::is_over;
use crate::precedence::Precedence;
use sort_terms::{Term, has_variable};

/// Whether the operation at the head of the first term is above each operation of the second one,
/// whose variables all stand in the first one. Then the first term is greater. It takes no memory,
/// and costs the size of the second term, and that of the first one for each of its variables.
pub fn exceeds_by_heads(precedence: &Precedence, term: &Term, other: &Term) -> bool
    ensures { IsTrue result
        → IsGreater (precedence_of precedence.now) (term_of term.now) (term_of other.now) }
{
    match term {
        Term::Var { .. } => false,
        Term::Node { op, .. } => is_below(precedence, *op, other, term),
    }
}

// Whether the operation is above each one of the term, whose variables all stand in the whole.
#[cycle(below)]
fn is_below(precedence: &Precedence, op: u32, term: &Term, whole: &Term) -> bool
    ensures { result ≡ below_head (precedence_of precedence.now) op
        (term_of whole.now) (term_of term.now) }
{
    match term {
        Term::Var { number, sort } => has_variable(whole, *number, *sort),
        Term::Node {
            op: g,
            arguments,
            ..
        } => {
            if !is_over(precedence, op, *g) {
                return false;
            }
            are_below(precedence, op, arguments.items(), whole)
        }
    }
}

// The same of each term of a list.
#[cycle(below)]
fn are_below(precedence: &Precedence, op: u32, terms: &Vec<Term>, whole: &Term) -> bool
    ensures { result ≡ all_terms_below (precedence_of precedence.now) op
        (term_of whole.now) (bare_terms_of terms.now.items) }
{
    for term in terms {
        if !is_below(precedence, op, term, whole) {
            return false;
        }
    }
    true
}
