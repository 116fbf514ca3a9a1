//! Digests of terms with values put for their variables.

ghost use Rattle.behaviour_tree.specs.TermDigests.{
  arguments_digest,
  digest_behind as behind,
  list_digest,
};
ghost use Rattle.behaviour_tree.specs.BehaviourView.{terms_of as terms_in};
ghost use Rattle.lotos_base.specs.Substitution.{all_substituted, substituted};
ghost use Rattle.behaviour_tree.specs.Placings.{values_of};
ghost use Rattle.sort_terms.specs.TermView.{term_of, bare_terms_of};
ghost use Rattle.std.specs.Prelude.{◌≡◌, ◌≤◌, length, map, take};

use crate::mixing::mix;
use crate::placing::Placing;
use sort_terms::{Sorted, Term};

// The digest of the term as it is, behind a number for what stands before it. The last arguments
// are gone through by a loop.
#[cycle(plain)]
fn digest_behind(before: u64, term: &Term) -> u64
    ensures { result ≡ behind before (term_of term.now) }
{
    let mut digest = before;
    let mut left = term;
    loop {
        match left {
            Term::Var { number, sort } => return mix(mix(digest, *number), *sort as u64),
            Term::Node { op, arguments, .. } => {
                let terms = arguments.items();
                digest = mix(digest, *op as u64);
                let Some(last) = terms.len().checked_sub(1) else {
                    return digest;
                };
                digest = first_digests(digest, terms, last);
                left = &terms[last];
            }
        }
    }
}

// The digest of so many of the terms, behind a number for what stands before them.
#[cycle(plain)]
fn first_digests(before: u64, terms: &Vec<Term>, count: usize) -> u64
    requires { count ≤ length terms.now.items }
    ensures { result ≡ arguments_digest before (bare_terms_of (take count terms.now.items)) }
{
    let mut digest = before;
    for i in 0..count {
        digest = digest_behind(digest, &terms[i]);
    }
    digest
}

// The digest of the term with its values, behind a number for what stands before it.
#[cycle(placed)]
fn placed_behind(before: u64, term: &Term, here: &Placing) -> u64
    ensures { result ≡ behind before (substituted (values_of here.now) (term_of term.now)) }
{
    match term {
        Term::Var { number, .. } => match here.value(*number) {
            None => digest_behind(before, term),
            Some(value) => digest_behind(before, value.term()),
        },
        Term::Node { op, arguments, .. } => {
            if arguments.facts().is_ground {
                return digest_behind(before, term);
            }
            placed_digests(mix(before, *op as u64), arguments.items(), here)
        }
    }
}

// The digest of the terms with their values, behind a number for what stands before them.
#[cycle(placed)]
fn placed_digests(before: u64, terms: &Vec<Term>, here: &Placing) -> u64
    ensures { result ≡ arguments_digest before
        (all_substituted (values_of here.now) (bare_terms_of terms.now.items)) }
{
    let mut digest = before;
    for term in terms {
        digest = placed_behind(digest, term, here);
    }
    digest
}

/// The digest of the values, with what is put for their variables.
pub fn values_digest(values: &Vec<Sorted>, here: &Placing) -> u64
    ensures { result
        ≡ list_digest 0 (map (substituted (values_of here.now)) (terms_in values.now.items)) }
{
    let mut digest = 0;
    for value in values {
        digest = mix(digest, placed_behind(0, value.term(), here));
    }
    digest
}
