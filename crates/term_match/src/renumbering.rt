//! Terms with other variable numbers.

ghost use Rattle.term_match.specs.Renumbering.{new_number, profiled_renaming};
ghost use Rattle.sort_terms.specs.ProfiledTerm.{profiled_variable};
ghost use Rattle.sort_terms.specs.SortedView.{profiled_in, term_in};
ghost use Rattle.sort_terms.specs.TermView.{all_profiled, profiled_of};
ghost use Rattle.std.specs.Prelude.{◌≡◌, IfOk};
ghost use Rattle.lotos_base.specs.Substitution.{renaming, substituted};
ghost use Rattle.term_match.specs.ProfiledInstance.{profiled_instance, profiled_instances};

use lotos_base::NoMemory;
use sort_terms::{Sorted, Term};

/// The term with new numbers for its variables: a pair has an old number and its new one. A
/// variable whose number has no pair keeps it.
pub fn renumbered(term: &Sorted, numbers: &[(u64, u64)]) -> Result<Sorted, NoMemory>
    ensures plain { IfOk result (λ t. term_in t
        ≡ substituted (renaming (new_number numbers.now)) (term_in term.now)) }
    ensures profiles { IfOk result (λ t. profiled_in t
        ≡ profiled_instance (profiled_renaming (new_number numbers.now)) (profiled_in term.now)) }
{
    Ok(Sorted::of(renumbered_term(term.term(), numbers)?))
}

// The term with new numbers.
#[cycle(renumbering)]
fn renumbered_term(term: &Term, numbers: &[(u64, u64)]) -> Result<Term, NoMemory>
    ensures { IfOk result (λ t. profiled_of t
        ≡ profiled_instance (profiled_renaming (new_number numbers.now)) (profiled_of term.now)) }
{
    match term {
        Term::Var { number, sort } => Ok(renumbered_variable(*number, *sort, numbers)),
        Term::Node {
            op,
            profile,
            arguments,
        } => {
            let renumbered = renumbered_terms(arguments.items(), numbers)?;
            Term::node(*op, profile.clone()?, renumbered)
        }
    }
}

// Each term of the list with new numbers.
#[cycle(renumbering)]
fn renumbered_terms(terms: &Vec<Term>, numbers: &[(u64, u64)]) -> Result<Vec<Term>, NoMemory>
    ensures { IfOk result (λ ts. all_profiled ts.items
        ≡ profiled_instances (profiled_renaming (new_number numbers.now))
        (all_profiled terms.now.items)) }
{
    let mut made = Vec::with_capacity(*terms.allocator(), terms.len())?;
    for term in terms {
        made.push(renumbered_term(term, numbers)?)?;
    }
    Ok(made)
}

// The variable with its new number.
fn renumbered_variable(number: u64, sort: u32, numbers: &[(u64, u64)]) -> Term
    ensures { profiled_of result ≡ profiled_variable (new_number numbers.now number sort) sort }
{
    for (known, new) in numbers {
        if *known == number {
            return Term::Var { number: *new, sort };
        }
    }
    Term::Var { number, sort }
}
