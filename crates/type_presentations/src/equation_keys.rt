//! Keys of equations.

ghost use Rattle.type_presentations.specs.EquationKeys.{
  equation_key as key_of_equation,
  term_key,
  terms_key,
};
ghost use Rattle.sort_terms.specs.EquationView.{equation_of};
ghost use Rattle.sort_terms.specs.TermView.{term_of, bare_terms_of};
ghost use Rattle.std.specs.Prelude.{◌≡◌, ◌∷◌, ◌++◌, [], IfOk, OnOk};

use lotos_base::NoMemory;
use sort_terms::{Equation, Term};
use std::alloc::Global;

/// The key of an equation by its place and its sides.
pub fn equation_key(alloc: Global, equation: &Equation) -> Result<Vec<usize>, NoMemory>
    ensures { IfOk result (λ key. key.items ≡ key_of_equation (equation_of equation.now)) }
{
    let mut key = Vec::new(alloc);
    key.push(equation.place.text as usize)?;
    key.push(equation.place.line as usize)?;
    key.push(equation.place.col as usize)?;
    push_term(&mut key, equation.left.term())?;
    push_term(&mut key, equation.right.term())?;
    Ok(key)
}

// Adds the nodes of a term, each before its arguments.
#[cycle(keys)]
fn push_term(key: &mut Vec<usize>, term: &Term) -> Result<(), NoMemory>
    ensures { OnOk result (key.new.items ≡ key.old.items ++ term_key (term_of term.now)) }
{
    match term {
        Term::Var { number, sort } => {
            key.push(0)?;
            key.push(*number as usize)?;
            key.push(*sort as usize)?;
            Ok(())
        }
        Term::Node { op, arguments, .. } => {
            key.push(1)?;
            key.push(*op as usize)?;
            push_terms(key, arguments.items())?;
            Ok(())
        }
    }
}

// Adds the nodes of each term of the list, and its end.
#[cycle(keys)]
fn push_terms(key: &mut Vec<usize>, terms: &Vec<Term>) -> Result<(), NoMemory>
    ensures { OnOk result (key.new.items ≡ key.old.items
        ++ terms_key (bare_terms_of terms.now.items)) }
{
    for term in terms {
        key.push(1)?;
        push_term(key, term)?;
    }
    key.push(0)?;
    Ok(())
}
