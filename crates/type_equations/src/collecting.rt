//! The numbers of the variables in a term.

ghost use Rattle.sort_terms.specs.TermView.{term_of, bare_terms_of};
ghost use Rattle.std.specs.Prelude.{◌≡◌, OnOk, nat_eq};
ghost use Rattle.type_definitions.specs.DeclaredEquations.{numbers_in_term, variable_numbers_among};
ghost use Rattle.type_definitions.specs.Presentation.{with_new};

use indexmap::IndexSet;
use lotos_base::NoMemory;
use sort_terms::Term;

/// Adds the numbers of the variables in the term, from left to right, each once.
#[cycle(collecting)]
pub fn collect(term: &Term, order: &mut IndexSet<u64>) -> Result<(), NoMemory>
    ensures { OnOk result (order.new.keys
        ≡ with_new nat_eq order.old.keys (numbers_in_term (term_of term.now))) }
{
    match term {
        Term::Var { number, .. } => {
            order.insert(*number)?;
            Ok(())
        }
        Term::Node { arguments, .. } => collect_all(arguments.items(), order),
    }
}

// Adds the numbers of the variables in each term of the list.
#[cycle(collecting)]
fn collect_all(terms: &Vec<Term>, order: &mut IndexSet<u64>) -> Result<(), NoMemory>
    ensures { OnOk result (order.new.keys
        ≡ with_new nat_eq order.old.keys (variable_numbers_among (bare_terms_of terms.now.items))) }
{
    for term in terms {
        collect(term, order)?;
    }
    Ok(())
}
