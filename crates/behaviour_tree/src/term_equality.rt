//! Terms with values put for their variables, compared.

ghost use Rattle.behaviour_tree.specs.Placings.{values_of};
ghost use Rattle.lotos_base.specs.Substitution.{all_substituted, substituted};
ghost use Rattle.sort_terms.specs.TermView.{term_of, bare_terms_of};
ghost use Rattle.std.specs.Prelude.{◌≡◌, ◌↔◌, IsTrue};

use crate::placing::Placing;
use sort_terms::Term;

/// Whether the first term is the second one with its values.
#[cycle(placed)]
pub fn is_placed(term: &Term, other: &Term, placing: &Placing) -> bool
    ensures { IsTrue result
        ↔ (term_of term.now ≡ substituted (values_of placing.now) (term_of other.now)) }
{
    match other {
        Term::Var { number, .. } => match placing.value(*number) {
            None => term.same(other),
            Some(value) => term.same(value.term()),
        },
        Term::Node { op, arguments, .. } => {
            if arguments.facts().is_ground {
                return term.same(other);
            }
            match term {
                Term::Var { .. } => false,
                Term::Node {
                    op: f,
                    arguments: own,
                    ..
                } => *f == *op && are_placed(own.items(), arguments.items(), placing),
            }
        }
    }
}

// The same of lists, one by one.
#[cycle(placed)]
fn are_placed(terms: &Vec<Term>, others: &Vec<Term>, placing: &Placing) -> bool
    ensures { IsTrue result ↔ (bare_terms_of terms.now.items
        ≡ all_substituted (values_of placing.now) (bare_terms_of others.now.items)) }
{
    if terms.len() != others.len() {
        return false;
    }
    for i in 0..terms.len() {
        if !is_placed(&terms[i], &others[i], placing) {
            return false;
        }
    }
    true
}

/// Whether the two terms, each with its values, are identical.
#[cycle(both)]
pub fn same_terms(term: &Term, here: &Placing, other: &Term, there: &Placing) -> bool
    ensures { IsTrue result ↔ (substituted (values_of here.now) (term_of term.now)
        ≡ substituted (values_of there.now) (term_of other.now)) }
{
    match term {
        Term::Var { number, .. } => match here.value(*number) {
            None => is_placed(term, other, there),
            Some(value) => is_placed(value.term(), other, there),
        },
        Term::Node { op, arguments, .. } => {
            if arguments.facts().is_ground {
                return is_placed(term, other, there);
            }
            match other {
                Term::Var { number, .. } => match there.value(*number) {
                    None => is_placed(other, term, here),
                    Some(value) => is_placed(value.term(), term, here),
                },
                Term::Node {
                    op: f,
                    arguments: others,
                    ..
                } => *op == *f && all_same_terms(arguments.items(), here, others.items(), there),
            }
        }
    }
}

// The same of lists, one by one.
#[cycle(both)]
fn all_same_terms(terms: &Vec<Term>, here: &Placing, others: &Vec<Term>, there: &Placing) -> bool
    ensures { IsTrue result ↔ (all_substituted (values_of here.now) (bare_terms_of terms.now.items)
        ≡ all_substituted (values_of there.now) (bare_terms_of others.now.items)) }
{
    if terms.len() != others.len() {
        return false;
    }
    for i in 0..terms.len() {
        if !same_terms(&terms[i], here, &others[i], there) {
            return false;
        }
    }
    true
}
