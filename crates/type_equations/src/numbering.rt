//! Terms whose variables get new numbers.

ghost use Rattle.type_equations.specs.ProfiledNumbering.{
  all_profiled_renumbered,
  profiled_renumbered,
};
ghost use Rattle.sort_terms.specs.SortedView.{profiled_in};
ghost use Rattle.sort_terms.specs.TermView.{all_profiled, profiled_of};
ghost use Rattle.std.specs.Prelude.{◌≡◌, IfOk, nat_eq};
ghost use Rattle.type_definitions.specs.Presentation.{first_position};

use indexmap::IndexSet;
use lotos_base::NoMemory;
use sort_terms::{Sorted, Term};

/// The term in which each variable has as its number where its old one stands in the order.
pub fn renumbered_side(side: &Sorted, order: &IndexSet<u64>) -> Result<Sorted, NoMemory>
    ensures { IfOk result (λ t. profiled_in t
        ≡ profiled_renumbered order.now.keys (profiled_in side.now)) }
{
    let made = renumbered_term(side.term(), order)?;
    Ok(Sorted::of(made))
}

// The same of a term without its sort.
#[cycle(numbering)]
fn renumbered_term(term: &Term, order: &IndexSet<u64>) -> Result<Term, NoMemory>
    ensures { IfOk result (λ t. profiled_of t
        ≡ profiled_renumbered order.now.keys (profiled_of term.now)) }
{
    match term {
        Term::Var { number, sort } => Ok(Term::Var {
            number: number_in_order(order, *number),
            sort: *sort,
        }),
        Term::Node {
            op,
            profile,
            arguments,
        } => {
            let renumbered = renumbered_terms(arguments.items(), order)?;
            Term::node(*op, profile.clone()?, renumbered)
        }
    }
}

// The same of each term of the list.
#[cycle(numbering)]
fn renumbered_terms(terms: &Vec<Term>, order: &IndexSet<u64>) -> Result<Vec<Term>, NoMemory>
    ensures { IfOk result (λ ts. all_profiled ts.items
        ≡ all_profiled_renumbered order.now.keys (all_profiled terms.now.items)) }
{
    let mut made = Vec::with_capacity(*terms.allocator(), terms.len())?;
    for term in terms {
        made.push(renumbered_term(term, order)?)?;
    }
    Ok(made)
}

// Where the number stands; how many there are where it does not.
fn number_in_order(order: &IndexSet<u64>, number: u64) -> u64
    ensures { result ≡ first_position (nat_eq number) order.now.keys }
{
    match order.get_index_of(&number) {
        Some(position) => position as u64,
        None => order.len() as u64,
    }
}
