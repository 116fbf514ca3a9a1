//! Which lemma is the same equation as another one up to the names of variables.

ghost use Rattle.induct_parts.specs.CertificateView.{lemmas_in, lemma_in};
ghost use Rattle.induct_parts.specs.Meeting.{
  are_renamed,
  is_renamed,
  is_seen,
  is_listed_sort,
  is_variable,
  seen_with,
};
ghost use Rattle.induct_parts.specs.SettingView.{IsKnownLemma};
ghost use Rattle.certificate_theory.specs.Requirements.{
  IsLeftOpen,
  IsMetBy,
  IsRenamedStatement,
  stated,
};
ghost use Rattle.lotos_base.proofs.Each.{Each};
ghost use Rattle.lotos_base.specs.Signature.{Signature};
ghost use Rattle.sort_terms.specs.EquationView.{equation_of};
ghost use Rattle.sort_terms.specs.TermView.{profiled_of};
ghost use Rattle.std.specs.Option.{option_and_then, option_map};
ghost use Rattle.std.specs.Prelude.{
  ◌≡◌,
  ◌↔◌,
  ◌∷◌,
  ◌++◌,
  [],
  Bool,
  IfOk,
  IsTrue,
  MatchOption,
  None,
  Some,
  if◌then◌else◌,
  slice_get,
};
ghost use Rattle.term_match.specs.FoundView.{found_pairs};
ghost use Rattle.term_match.specs.Search.{searched};

use crate::certificates::StatedLemma;
use lotos_base::NoMemory;
use sort_terms::{Equation, Term};
use std::alloc::Global;
use term_match::bindings::search;

/// The number, from 0, of the first lemma that is the same equation as this one up to the names of
/// variables, and `None` exactly where none is.
pub fn met_by(
    alloc: Global,
    lemmas: &[StatedLemma],
    equation: &Equation,
) -> Result<Option<usize>, NoMemory>
    requires { (signature : Signature) × Each (IsKnownLemma signature) lemmas.now }
    ensures { IfOk result (λ o. MatchOption o
        (IsLeftOpen (lemmas_in lemmas.now) (equation_of equation.now))
        (IsMetBy (lemmas_in lemmas.now) (equation_of equation.now))) }
{
    for i in 0..lemmas.len() {
        let same = is_same(alloc, &lemmas[i], equation)?;
        if same {
            return Ok(Some(i));
        }
    }
    Ok(None)
}

// Whether the lemma is the same equation.
fn is_same(alloc: Global, lemma: &StatedLemma, equation: &Equation) -> Result<bool, NoMemory>
    requires { (signature : Signature) × IsKnownLemma signature lemma.now }
    ensures { IfOk result (λ b. IsTrue b
        ↔ IsRenamedStatement (lemma_in lemma.now).statement (stated (equation_of equation.now))) }
{
    match found_for(alloc, lemma, equation)? {
        Some(found) => are_variables(alloc, lemma.variables.as_slice(), found.as_slice()),
        None => Ok(false),
    }
}

// What makes the sides of the lemma those of the equation, if anything does.
fn found_for<'a>(
    alloc: Global,
    lemma: &StatedLemma,
    equation: &'a Equation,
) -> Result<Option<Vec<(u64, &'a Term)>>, NoMemory>
    ensures { IfOk result (λ o. option_map (λ pairs. found_pairs pairs.items) o
        ≡ option_and_then (searched (profiled_of lemma.now.statement.right.term)
        (profiled_of equation.now.right.term))
        (searched (profiled_of lemma.now.statement.left.term)
        (profiled_of equation.now.left.term) [])) }
{
    let sides = &lemma.statement;
    let left = search(sides.left.term(), equation.left.term(), Vec::new(alloc))?;
    match left {
        Some(found) => search(sides.right.term(), equation.right.term(), found),
        None => Ok(None),
    }
}

// Whether what is found are variables of the sorts that are listed, for different ones different
// ones.
fn are_variables(alloc: Global, sorts: &[u32], found: &[(u64, &Term)]) -> Result<bool, NoMemory>
    ensures { IfOk result (λ b. b ≡ are_renamed sorts.now [] (found_pairs found.now)) }
{
    let mut seen = Vec::new(alloc);
    for pair in found {
        let Some(variable) = new_variable(sorts, seen.as_slice(), pair.0, pair.1) else {
            return Ok(false);
        };
        seen.push(variable)?;
    }
    Ok(true)
}

// The number and the sort of the variable that is found, if it is one of the sort that is listed,
// and none of those that were seen.
fn new_variable(sorts: &[u32], seen: &[(u64, u32)], number: u64, term: &Term) -> Option<(u64, u32)>
    ensures { MatchOption result
        (is_renamed sorts.now seen.now (number, profiled_of term.now) ≡ Bool.false)
        (λ variable. (is_renamed sorts.now seen.now (number, profiled_of term.now) ≡ Bool.true)
        × (seen_with seen.now (profiled_of term.now) ≡ seen.now ++ variable ∷ [])) }
{
    match term {
        Term::Var {
            number: other,
            sort,
        } => {
            if !has_sort(sorts, number, *sort) {
                return None;
            }
            if was_seen(seen, *other, *sort) {
                return None;
            }
            Some((*other, *sort))
        }
        Term::Node { .. } => None,
    }
}

// Whether this sort is listed for the variable.
fn has_sort(sorts: &[u32], number: u64, sort: u32) -> bool
    ensures { result ≡ is_listed_sort (slice_get sorts.now number) sort }
{
    match sorts.get(number as usize) {
        Some(listed) => *listed == sort,
        None => false,
    }
}

// Whether the variable was seen.
fn was_seen(seen: &[(u64, u32)], number: u64, sort: u32) -> bool
    ensures { result ≡ is_seen seen.now number sort }
{
    for known in seen {
        if is_known(known, number, sort) {
            return true;
        }
    }
    false
}

// Whether it is this variable.
fn is_known(known: &(u64, u32), number: u64, sort: u32) -> bool
    ensures { result ≡ is_variable known.now number sort }
{
    known.0 == number && known.1 == sort
}
