//! Whether two data are the same.

ghost use Rattle.bisim_check.specs.Agreeing.{AreOneOp, AreOneRule, AgreeOnSort, AreOneTerm};
ghost use Rattle.certificate_theory.specs.SameData.{AreSameData};
ghost use Rattle.sort_terms.specs.EquationView.{data_of};
ghost use Rattle.std.specs.Prelude.{◌≡◌, ◌↔◌, IsTrue};
ghost use Rattle.lotos_base.specs.WrittenView.{form_of};

use crate::agreeing::{Agreeing, all_agree};
use lotos_base::Form;
use sort_terms::{Equation, Flat, Op, Sort, Sorted};

/// Whether the two data have the same sorts, operations and equations in the same order: sorts by
/// their names, operations by their names, forms and profiles, equations by their sides. Letter
/// case of names, places, origins and names of variables make no difference. Takes no memory.
///
/// A variable is known by its number. Where the variables of each equation are numbered by first
/// appearance, as those of flattened data are, equations are compared up to their variables; of
/// others, two that differ in the numbers of variables alone are not the same.
pub fn same_data(left: &Flat, right: &Flat) -> bool
    ensures { IsTrue result ↔ AreSameData (data_of left.now) (data_of right.now) }
{
    if !all_agree(left.signature.sorts(), right.signature.sorts()) {
        return false;
    }
    if !all_agree(left.signature.ops(), right.signature.ops()) {
        return false;
    }
    all_agree(left.equations.as_slice(), right.equations.as_slice())
}

impl Agreeing for Sort {
    ghost agree = { AgreeOnSort };

    fn agrees(&self, other: &Sort) -> bool {
        self.name.same(&other.name)
    }
}

impl Agreeing for Op {
    ghost agree = { AreOneOp };

    fn agrees(&self, other: &Op) -> bool {
        if !self.name.same(&other.name) {
            return false;
        }
        if !is_one_form(self.form, other.form) {
            return false;
        }
        if !are_one_list(&self.arguments, &other.arguments) {
            return false;
        }
        self.result == other.result
    }
}

// Whether the two forms are one.
fn is_one_form(form: Form, other: Form) -> bool
    ensures { IsTrue result ↔ (form_of form ≡ form_of other) }
{
    match (form, other) {
        (Form::Prefix, Form::Prefix) => true,
        (Form::Infix, Form::Infix) => true,
        (Form::Prefix, Form::Infix) => false,
        (Form::Infix, Form::Prefix) => false,
    }
}

// Whether the numbers are the same in the same order.
fn are_one_list(numbers: &Vec<u32>, others: &Vec<u32>) -> bool
    ensures { IsTrue result ↔ (numbers.now.items ≡ others.now.items) }
{
    numbers.as_slice() == others.as_slice()
}

impl Agreeing for Equation {
    ghost agree = { AreOneRule };

    fn agrees(&self, other: &Equation) -> bool {
        if !self.left.same(&other.left) {
            return false;
        }
        self.right.same(&other.right)
    }
}

impl Agreeing for Sorted {
    ghost agree = { AreOneTerm };

    fn agrees(&self, other: &Sorted) -> bool {
        self.same(other)
    }
}
