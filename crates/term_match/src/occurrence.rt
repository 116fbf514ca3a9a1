//! Whether a variable stands in a term.

ghost use Rattle.sort_terms.specs.TermView.{all_profiled, profiled_of};
ghost use Rattle.std.specs.Prelude.{◌≡◌};
ghost use Rattle.term_match.specs.Disagreement.{has_number, have_number};

use sort_terms::Term;

/// Whether a variable with this number stands in the term.
#[cycle(occurrence)]
pub fn occurs(number: u64, term: &Term) -> bool
    ensures { result ≡ has_number number (profiled_of term.now) }
{
    match term {
        Term::Var { number: other, .. } => *other == number,
        Term::Node { arguments, .. } => {
            if arguments.facts().is_ground {
                return false;
            }
            occurs_among(number, arguments.items())
        }
    }
}

// Whether one stands in one of the terms.
#[cycle(occurrence)]
fn occurs_among(number: u64, terms: &Vec<Term>) -> bool
    ensures { result ≡ have_number number (all_profiled terms.now.items) }
{
    for term in terms {
        if occurs(number, term) {
            return true;
        }
    }
    false
}
