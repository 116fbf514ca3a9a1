//! Whether a variable number has one sort.

ghost use Rattle.direct_terms.specs.OneSort.{agrees, all_agree, keeps_sort, all_keep_sort};
ghost use Rattle.sort_terms.specs.SortedView.{profiled_in, term_in};
ghost use Rattle.sort_terms.specs.TermView.{all_profiled, profiled_of};
ghost use Rattle.std.specs.Prelude.{◌≡◌, IsTrue};
ghost use Rattle.term_match.specs.Unified.{HaveOneSortPerNumber};

use sort_terms::{Sorted, Term};

/// Whether over both terms each variable number has one sort. It costs the square of their sizes.
pub fn have_one_sort(left: &Sorted, right: &Sorted) -> bool
    ensures { IsTrue result → HaveOneSortPerNumber (term_in left.now) (term_in right.now) }
{
    let one = left.term();
    let other = right.term();
    if !agree(one, one, other) {
        return false;
    }
    agree(other, one, other)
}

// Whether each variable of the first term has in both others, where it occurs, the same sort.
#[cycle(agreeing)]
fn agree(term: &Term, left: &Term, right: &Term) -> bool
    ensures { result ≡ agrees (profiled_of left.now) (profiled_of right.now)
        (profiled_of term.now) }
{
    match term {
        Term::Var { number, sort } => {
            if !keeps(left, *number, *sort) {
                return false;
            }
            keeps(right, *number, *sort)
        }
        Term::Node { arguments, .. } => agree_among(arguments.items(), left, right),
    }
}

// The same of each term of a list.
#[cycle(agreeing)]
fn agree_among(terms: &Vec<Term>, left: &Term, right: &Term) -> bool
    ensures { result ≡ all_agree (profiled_of left.now) (profiled_of right.now)
        (all_profiled terms.now.items) }
{
    for term in terms {
        if !agree(term, left, right) {
            return false;
        }
    }
    true
}

// Whether the variable number has no other sort in the term.
#[cycle(keeping)]
fn keeps(term: &Term, number: u64, sort: u32) -> bool
    ensures { result ≡ keeps_sort number sort (profiled_of term.now) }
{
    match term {
        Term::Var { number: n, sort: s } => {
            if *n != number {
                return true;
            }
            *s == sort
        }
        Term::Node { arguments, .. } => all_keep(arguments.items(), number, sort),
    }
}

// The same of each term of a list.
#[cycle(keeping)]
fn all_keep(terms: &Vec<Term>, number: u64, sort: u32) -> bool
    ensures { result ≡ all_keep_sort number sort (all_profiled terms.now.items) }
{
    for term in terms {
        if !keeps(term, number, sort) {
            return false;
        }
    }
    true
}
