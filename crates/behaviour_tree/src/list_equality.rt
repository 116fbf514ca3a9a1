//! Parts of behaviours in lists, with values put for their variables, compared.

ghost use Rattle.behaviour_tree.specs.Placed.{
  binding_placed,
  gate_placed,
  offer_placed,
  result_placed,
  term_placed,
  variable_placed,
};
ghost use Rattle.behaviour_tree.specs.Placings.{values_of};
ghost use Rattle.behaviour_semantics.specs.Behaviour.{
  ExitValue as PlainExitValue,
  Offer as PlainOffer,
};
ghost use Rattle.lotos_base.specs.Equation as equation;
ghost use Rattle.lotos_base.specs.Substitution.{Substitution};
ghost use Rattle.lotos_base.specs.Term.{Term as PlainTerm};
ghost use Rattle.sort_terms.specs.EquationView.{variable_of};
ghost use Rattle.std.specs.Prelude.{◌≡◌, ◌↔◌, ℕ, IsTrue, map};

use crate::placing::Placing;
use crate::term_equality::same_terms;
use crate::{ExitValue, Offer};
use sort_terms::{Sorted, Variable};

/// What stands in the lists of a behaviour.
pub trait Placed {
    ghost Plain: { Type 0 };

    /// What it is with terms put for its variables.
    ghost placed: { Substitution → Self → Plain };

    /// Whether the two, each with its values, are identical.
    fn same(&self, here: &Placing, other: &Self, there: &Placing) -> bool
        ensures { IsTrue result ↔ (placed (values_of here.now) self.now
            ≡ placed (values_of there.now) other.now) };
}

/// Whether the two lists, each with its values, are identical.
pub fn all_same<T: Placed>(items: &Vec<T>, here: &Placing, others: &Vec<T>, there: &Placing) -> bool
    ensures { IsTrue result ↔ (map (T.placed (values_of here.now)) items.now.items
        ≡ map (T.placed (values_of there.now)) others.now.items) }
{
    if items.len() != others.len() {
        return false;
    }
    for i in 0..items.len() {
        if !items[i].same(here, &others[i], there) {
            return false;
        }
    }
    true
}

impl Placed for u32 {
    ghost Plain = { ℕ };

    ghost placed = { gate_placed };

    fn same(&self, _here: &Placing, other: &u32, _there: &Placing) -> bool {
        *self == *other
    }
}

impl Placed for Sorted {
    ghost Plain = { PlainTerm };

    ghost placed = { term_placed };

    fn same(&self, here: &Placing, other: &Sorted, there: &Placing) -> bool {
        same_terms(self.term(), here, other.term(), there)
    }
}

impl Placed for Variable {
    ghost Plain = { equation.Variable };

    ghost placed = { variable_placed };

    fn same(&self, _here: &Placing, other: &Variable, _there: &Placing) -> bool {
        same_variables(self, other)
    }
}

impl Placed for (Variable, Sorted) {
    ghost Plain = { equation.Variable × PlainTerm };

    ghost placed = { binding_placed };

    fn same(&self, here: &Placing, other: &(Variable, Sorted), there: &Placing) -> bool {
        same_variables(&self.0, &other.0) && same_terms(self.1.term(), here, other.1.term(), there)
    }
}

impl Placed for Offer {
    ghost Plain = { PlainOffer };

    ghost placed = { offer_placed };

    fn same(&self, here: &Placing, other: &Offer, there: &Placing) -> bool {
        match (self, other) {
            (Offer::Give(term), Offer::Give(given)) => {
                same_terms(term.term(), here, given.term(), there)
            }
            (Offer::Ask(variable), Offer::Ask(asked)) => same_variables(variable, asked),
            (Offer::Give(_), Offer::Ask(_)) | (Offer::Ask(_), Offer::Give(_)) => false,
        }
    }
}

impl Placed for ExitValue {
    ghost Plain = { PlainExitValue };

    ghost placed = { result_placed };

    fn same(&self, here: &Placing, other: &ExitValue, there: &Placing) -> bool {
        match (self, other) {
            (ExitValue::Give(term), ExitValue::Give(given)) => {
                same_terms(term.term(), here, given.term(), there)
            }
            (ExitValue::Any(sort), ExitValue::Any(other_sort)) => *sort == *other_sort,
            (ExitValue::Give(_), ExitValue::Any(_)) | (ExitValue::Any(_), ExitValue::Give(_)) => {
                false
            }
        }
    }
}

/// Whether the two variables are identical: of one spelling, number and sort.
pub fn same_variables(variable: &Variable, other: &Variable) -> bool
    ensures { IsTrue result ↔ (variable_of variable.now ≡ variable_of other.now) }
{
    variable.number == other.number
        && variable.sort == other.sort
        && variable.name.spelled() == other.name.spelled()
}
