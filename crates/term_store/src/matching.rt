//! The search for what makes a pattern a term that is kept.

ghost use Rattle.sort_terms.specs.TermView.{all_profiled, profiled_of};
ghost use Rattle.std.specs.Prelude.{◌≡◌, ◌<◌, IfOk, length};
ghost use Rattle.term_store.specs.Cells.{AreBelow, AreCells};
ghost use Rattle.term_store.specs.NumberSearch.{
  all_number_searched,
  found_if,
  number_bound,
  number_searched,
  number_under,
};
ghost use Rattle.term_store.specs.SharedView.{keys_in};

use crate::shared::SharedTerms;
use lotos_base::NoMemory;
use sort_terms::Term;

/// Whether the pattern, with what its variables have, is the term with the number. If so, the pairs
/// of its other variables stand behind those found before, in the order in which the variables
/// first stand in the pattern.
#[cycle(search)]
pub fn search(
    shared: &SharedTerms,
    pattern: &Term,
    number: u32,
    found: &mut Vec<(u64, u32)>,
) -> Result<bool, NoMemory>
    requires cells { AreCells 0 (keys_in shared.now) }
    requires within { number < length (keys_in shared.now) }
    ensures { IfOk result (λ fits. found_if fits found.new.items
        ≡ number_searched (keys_in shared.now) (profiled_of pattern.now) number found.old.items) }
{
    match pattern {
        Term::Var {
            number: variable,
            ..
        } => bind(*variable, number, found),
        Term::Node { op, arguments, .. } => {
            match shared.operation(number as usize) {
                Some((head, numbers)) if head == *op => {
                    search_all(shared, arguments.items(), numbers, found)
                }
                _ => Ok(false),
            }
        }
    }
}

// The same for the patterns of a list and the terms with these numbers.
#[cycle(search)]
fn search_all(
    shared: &SharedTerms,
    patterns: &Vec<Term>,
    numbers: &[u32],
    found: &mut Vec<(u64, u32)>,
) -> Result<bool, NoMemory>
    requires cells { AreCells 0 (keys_in shared.now) }
    requires within { AreBelow (length (keys_in shared.now)) numbers.now }
    ensures { IfOk result (λ fits. found_if fits found.new.items
        ≡ all_number_searched (keys_in shared.now) (all_profiled patterns.now.items) numbers.now
        found.old.items) }
{
    if patterns.len() != numbers.len() {
        return Ok(false);
    }
    for i in 0..patterns.len() {
        if !search(shared, &patterns[i], numbers[i], found)? {
            return Ok(false);
        }
    }
    Ok(true)
}

// The pairs at a variable: the term has to be what the variable has already, if it has something.
fn bind(variable: u64, number: u32, found: &mut Vec<(u64, u32)>) -> Result<bool, NoMemory>
    ensures { IfOk result (λ fits. found_if fits found.new.items
        ≡ number_bound variable number found.old.items (number_under variable found.old.items)) }
{
    match value_of(found.as_slice(), variable) {
        None => {
            found.push((variable, number))?;
            Ok(true)
        }
        Some(known) => Ok(known == number),
    }
}

/// What the first pair with the variable has.
pub fn value_of(found: &[(u64, u32)], variable: u64) -> Option<u32>
    ensures { result ≡ number_under variable found.now }
{
    for (known, number) in found {
        if *known == variable {
            return Some(*number);
        }
    }
    None
}
