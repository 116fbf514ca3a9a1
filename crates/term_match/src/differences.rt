//! Where two terms differ first.

ghost use Rattle.sort_terms.specs.TermView.{all_profiled, profiled_of};
ghost use Rattle.std.specs.Prelude.{◌≡◌};
ghost use Rattle.term_match.specs.Disagreement.{against, terms_clash, clashes, disagreement, disagreement_of_lists};
ghost use Rattle.term_match.specs.DifferenceView.{disagreement_of};

use crate::occurrence::occurs;
use sort_terms::Term;

/// The first place, from left to right, at which two terms differ, and what it asks for.
#[derive(Debug, Drop)]
pub enum Difference<'a> {
    /// The terms do not differ.
    Alike,
    /// No substitution makes the terms one at that place.
    Clash,
    /// A variable stands there in one of the terms, and a term without it in the other one.
    Bound {
        /// The number of the variable.
        number: u64,
        /// The number of its sort.
        sort: u32,
        /// The other term.
        value: &'a Term,
    },
}

/// The first difference of the two terms. Variables are compared by their numbers, and operations
/// by theirs.
#[cycle(difference)]
pub fn differ<'a>(left: &'a Term, right: &'a Term) -> Difference<'a>
    ensures { disagreement_of result
        ≡ disagreement (profiled_of left.now) (profiled_of right.now) }
{
    match left {
        Term::Var { number, sort } => compare(*number, *sort, right),
        Term::Node { op, arguments, .. } => match right {
            Term::Var { number, sort } => compare(*number, *sort, left),
            Term::Node {
                op: f,
                arguments: others,
                ..
            } => {
                if *op == *f {
                    differ_among(arguments.items(), others.items())
                } else {
                    Difference::Clash
                }
            }
        },
    }
}

// The first difference of the terms of two lists.
#[cycle(difference)]
fn differ_among<'a>(terms: &'a Vec<Term>, others: &'a Vec<Term>) -> Difference<'a>
    ensures { disagreement_of result
        ≡ disagreement_of_lists (all_profiled terms.now.items) (all_profiled others.now.items) }
{
    for i in 0..terms.len() {
        let Some(other) = others.get(i) else {
            return Difference::Clash;
        };
        match differ(&terms[i], other) {
            Difference::Alike => {}
            Difference::Clash => return Difference::Clash,
            Difference::Bound {
                number,
                sort,
                value,
            } => {
                return Difference::Bound {
                    number,
                    sort,
                    value,
                };
            }
        }
    }
    if others.len() > terms.len() {
        return Difference::Clash;
    }
    Difference::Alike
}

// The difference of a variable and a term.
fn compare(number: u64, sort: u32, term: &Term) -> Difference<'_>
    ensures { disagreement_of result ≡ against number sort (profiled_of term.now) }
{
    if let Term::Var { number: other, .. } = term {
        if *other == number {
            return Difference::Alike;
        }
    }
    if occurs(number, term) {
        return Difference::Clash;
    }
    Difference::Bound {
        number,
        sort,
        value: term,
    }
}

/// Whether two operations clash at a place of the two terms, whatever their variables stand for. It
/// takes no memory.
#[cycle(clash)]
pub fn clash(left: &Term, right: &Term) -> bool
    ensures { result ≡ clashes (profiled_of left.now) (profiled_of right.now) }
{
    let Term::Node { op, arguments, .. } = left else {
        return false;
    };
    let Term::Node {
        op: f,
        arguments: others,
        ..
    } = right
    else {
        return false;
    };
    if *op != *f {
        return true;
    }
    clash_in(arguments.items(), others.items())
}

// The same of the terms of two lists, which clash where their lengths differ, too.
#[cycle(clash)]
fn clash_in(terms: &Vec<Term>, others: &Vec<Term>) -> bool
    ensures { result ≡ terms_clash (all_profiled terms.now.items) (all_profiled others.now.items) }
{
    if terms.len() != others.len() {
        return true;
    }
    for i in 0..terms.len() {
        if clash(&terms[i], &others[i]) {
            return true;
        }
    }
    false
}
