//! The variables of a term, by first appearance.

ghost use Rattle.term_match.specs.Appearance.{noted};
ghost use Rattle.rewriting_theory.specs.Numbering.{all_variable_numbers, variable_numbers};
ghost use Rattle.sort_terms.specs.TermView.{term_of, bare_terms_of};
ghost use Rattle.std.specs.Prelude.{◌≡◌, ◌∷◌, [], IfOk};
ghost use Rattle.lotos_base.specs.Substitution.{is_listed};

use lotos_base::NoMemory;
use sort_terms::Term;

/// The numbers seen before, and after them those of the term's other variables, from left to right.
#[cycle(noting)]
pub fn note(term: &Term, seen: Vec<u64>) -> Result<Vec<u64>, NoMemory>
    ensures { IfOk result (λ more. more.items
        ≡ noted seen.items (variable_numbers (term_of term.now))) }
{
    match term {
        Term::Var { number, .. } => note_number(*number, seen),
        Term::Node { arguments, .. } => note_all(arguments.items(), seen),
    }
}

// The same for the terms of a list.
#[cycle(noting)]
fn note_all(terms: &Vec<Term>, mut seen: Vec<u64>) -> Result<Vec<u64>, NoMemory>
    ensures { IfOk result (λ more. more.items
        ≡ noted seen.items (all_variable_numbers (bare_terms_of terms.now.items))) }
{
    for term in terms {
        seen = note(term, seen)?;
    }
    Ok(seen)
}

// The numbers seen before, and the number after them unless it is one of them.
fn note_number(number: u64, mut seen: Vec<u64>) -> Result<Vec<u64>, NoMemory>
    ensures { IfOk result (λ more. more.items ≡ noted seen.items (number ∷ [])) }
{
    if listed(seen.as_slice(), number) {
        return Ok(seen);
    }
    seen.push(number)?;
    Ok(seen)
}

/// Whether the number is in the list.
pub fn listed(numbers: &[u64], number: u64) -> bool
    ensures { result ≡ is_listed numbers.now number }
{
    for known in numbers {
        if *known == number {
            return true;
        }
    }
    false
}
