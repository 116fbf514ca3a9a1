//! What the variables of a term have, one after the other, each value moved where it is wanted for
//! the last time.

ghost use Rattle.sort_terms.specs.ProfiledTerm.{profiled_variable};
ghost use Rattle.sort_terms.specs.TermView.{all_profiled, profiled_of};
ghost use Rattle.std.specs.Prelude.{◌≡◌, ◌++◌, ◌<◌, IfOk, MatchOption, None, length, map};
ghost use Rattle.term_match.specs.ProfiledInstance.{profiled_binding};
ghost use Rattle.term_match.specs.Search.{looked_up};
ghost use Rattle.term_rewriter.specs.Taken.{owned_pairs};
ghost use Rattle.term_rewriter.specs.Wanted.{
  IsGiven,
  IsPlaceOf,
  all_profiled_variables_of,
  is_wanted_in,
  values_by,
  profiled_variables_of,
};

use lotos_base::NoMemory;
use sort_terms::Term;
use std::alloc::Global;

/// The variables seen before, and after them those of the term, from left to right, each as often
/// as it stands there.
#[cycle(variables)]
pub fn variables(term: &Term, seen: Vec<(u64, u32)>) -> Result<Vec<(u64, u32)>, NoMemory>
    ensures { IfOk result
        (λ more. more.items ≡ seen.items ++ profiled_variables_of (profiled_of term.now)) }
{
    match term {
        Term::Var { number, sort } => one_more(*number, *sort, seen),
        Term::Node { arguments, .. } => all_variables(arguments.items(), seen),
    }
}

// The same for the terms of a list.
#[cycle(variables)]
fn all_variables(terms: &Vec<Term>, mut seen: Vec<(u64, u32)>) -> Result<Vec<(u64, u32)>, NoMemory>
    ensures { IfOk result
        (λ more. more.items ≡ seen.items
        ++ all_profiled_variables_of (all_profiled terms.now.items)) }
{
    for term in terms {
        seen = variables(term, seen)?;
    }
    Ok(seen)
}

// The variable after those seen before.
fn one_more(number: u64, sort: u32, mut seen: Vec<(u64, u32)>) -> Result<Vec<(u64, u32)>, NoMemory>
    ensures { IfOk result
        (λ more. more.items ≡ seen.items ++ profiled_variables_of (profiled_variable number sort)) }
{
    seen.push((number, sort))?;
    Ok(seen)
}

/// What the pairs have for each of the variables. A value is copied as long as its variable is
/// wanted once more, and moved at the last place.
pub fn values_for(
    alloc: Global,
    wanted: &[(u64, u32)],
    mut values: Vec<(u64, Term)>,
) -> Result<Vec<Term>, NoMemory>
    ensures { IfOk result (λ made. map profiled_of made.items
        ≡ values_by (profiled_binding (owned_pairs values.items)) wanted.now) }
{
    let mut made = Vec::with_capacity(alloc, wanted.len())?;
    for i in 0..wanted.len() {
        let (number, sort) = wanted[i];
        let again = is_wanted(&wanted[i + 1..], number);
        made.push(value_for(number, sort, again, &mut values)?)?;
    }
    Ok(made)
}

// What the pairs have for the variable, which they keep where it is wanted again.
fn value_for(
    number: u64,
    sort: u32,
    again: bool,
    values: &mut Vec<(u64, Term)>,
) -> Result<Term, NoMemory>
    ensures { IfOk result (λ made. IsGiven number sort again (owned_pairs values.old.items)
        (owned_pairs values.new.items) (profiled_of made)) }
{
    let Some(place) = place_of(values.as_slice(), number) else {
        return Ok(Term::Var { number, sort });
    };
    if again {
        return values[place].1.copy();
    }
    let (_, value) = values.remove(place);
    Ok(value)
}

// Whether one of the variables has the number.
fn is_wanted(wanted: &[(u64, u32)], number: u64) -> bool
    ensures { result ≡ is_wanted_in wanted.now number }
{
    for (known, _) in wanted {
        if *known == number {
            return true;
        }
    }
    false
}

/// The place of the first pair with the number.
pub fn place_of(values: &[(u64, Term)], number: u64) -> Option<usize>
    ensures { MatchOption result (looked_up number (owned_pairs values.now) ≡ None)
        (λ i. IsPlaceOf number (owned_pairs values.now) i) }
{
    for i in 0..values.len() {
        if values[i].0 == number {
            return Some(i);
        }
    }
    None
}
