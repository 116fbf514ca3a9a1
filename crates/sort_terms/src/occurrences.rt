//! Whether a variable stands in a term.

ghost use Rattle.lotos_base.specs.Tests.{occurs, occurs_among};
ghost use Rattle.sort_terms.specs.TermView.{term_of, bare_terms_of};
ghost use Rattle.std.specs.Prelude.{◌≡◌};

use crate::terms::Term;

/// Whether the variable with this number and sort stands in the term.
#[cycle(occurrence)]
pub fn has_variable(term: &Term, number: u64, sort: u32) -> bool
    ensures { result ≡ occurs number sort (term_of term.now) }
{
    match term {
        Term::Var { number: n, sort: s } => *n == number && *s == sort,
        Term::Node { arguments, .. } => {
            if arguments.facts().is_ground {
                return false;
            }
            have_variable(arguments.items(), number, sort)
        }
    }
}

// Whether it stands in one of the terms.
#[cycle(occurrence)]
fn have_variable(terms: &Vec<Term>, number: u64, sort: u32) -> bool
    ensures { result ≡ occurs_among number sort (bare_terms_of terms.now.items) }
{
    for term in terms {
        if has_variable(term, number, sort) {
            return true;
        }
    }
    false
}
