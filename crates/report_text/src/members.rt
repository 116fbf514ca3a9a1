//! What stands in lists between commas.

ghost use Rattle.report_text.specs.NamingView.{naming_of};
ghost use Rattle.report_text.specs.Members.{
  binding_member,
  declared_member,
  exit_member,
  gate_member,
  pair_member,
  value_member,
};
ghost use Rattle.behaviour_tree.specs.BehaviourView.{variables_of};
ghost use Rattle.printed_texts.specs.BehaviourText as wording;
ghost use Rattle.printed_texts.specs.BehaviourText.{declared_text, gate_text};
ghost use Rattle.printed_texts.specs.TextView.{written_term};
ghost use Rattle.sort_terms.specs.EquationView.{variable_of};
ghost use Rattle.std.specs.Prelude.{◌≡◌, ◌++◌, ℕ, List, OnOk};
ghost use Rattle.lotos_base.specs.Equation as equation;

use crate::naming::Naming;
use behaviour_tree::ExitValue;
use lotos_base::NoMemory;
use printed_texts::brackets::push_text;
use printed_texts::labels::push_name;
use printed_texts::operations::push_sort;
use printed_texts::terms::push_phrase;
use sort_terms::{Signature, Sorted, Variable};

/// A member of a list in a text.
pub trait Member {
    ghost text: { Self → wording.Naming → List equation.Variable → List ℕ };

    /// Appends the text of the member, where these variables are in scope.
    fn push(
        &self,
        naming: &Naming<'_>,
        names: &[Variable],
        into: &mut Vec<u8>,
    ) -> Result<(), NoMemory>
        ensures { OnOk result (into.new.items ≡ into.old.items
            ++ text self.now (naming_of naming.now) (variables_of names.now)) };
}

impl Member for u32 {
    ghost text = { gate_member };

    fn push(
        &self,
        naming: &Naming<'_>,
        names: &[Variable],
        into: &mut Vec<u8>,
    ) -> Result<(), NoMemory> {
        push_gate(naming, *self, into)
    }
}

impl Member for (u32, u32) {
    ghost text = { pair_member };

    fn push(
        &self,
        naming: &Naming<'_>,
        names: &[Variable],
        into: &mut Vec<u8>,
    ) -> Result<(), NoMemory> {
        push_gate(naming, self.1, into)?;
        push_text(into, b" for ")?;
        push_gate(naming, self.0, into)
    }
}

impl Member for Variable {
    ghost text = { declared_member };

    fn push(
        &self,
        naming: &Naming<'_>,
        names: &[Variable],
        into: &mut Vec<u8>,
    ) -> Result<(), NoMemory> {
        push_declared(naming, self, into)
    }
}

impl Member for Sorted {
    ghost text = { value_member };

    fn push(
        &self,
        naming: &Naming<'_>,
        names: &[Variable],
        into: &mut Vec<u8>,
    ) -> Result<(), NoMemory> {
        push_term(naming.signature, names, self, into)
    }
}

impl Member for ExitValue {
    ghost text = { exit_member };

    fn push(
        &self,
        naming: &Naming<'_>,
        names: &[Variable],
        into: &mut Vec<u8>,
    ) -> Result<(), NoMemory> {
        match self {
            ExitValue::Give(term) => push_term(naming.signature, names, term, into),
            ExitValue::Any(sort) => {
                push_text(into, b"any ")?;
                push_sort(naming.signature, *sort, into)
            }
        }
    }
}

impl Member for (Variable, Sorted) {
    ghost text = { binding_member };

    fn push(
        &self,
        naming: &Naming<'_>,
        names: &[Variable],
        into: &mut Vec<u8>,
    ) -> Result<(), NoMemory> {
        push_declared(naming, &self.0, into)?;
        push_text(into, b" = ")?;
        push_term(naming.signature, names, &self.1, into)
    }
}

/// Appends the name of a gate.
pub fn push_gate(naming: &Naming<'_>, gate: u32, into: &mut Vec<u8>) -> Result<(), NoMemory>
    ensures { OnOk result (into.new.items
        ≡ into.old.items ++ gate_text (naming_of naming.now) gate) }
{
    push_name(naming.gates.as_slice(), gate, into)
}

/// Appends a variable with its sort, as a binder declares it.
pub fn push_declared(
    naming: &Naming<'_>,
    variable: &Variable,
    into: &mut Vec<u8>,
) -> Result<(), NoMemory>
    ensures { OnOk result (into.new.items ≡ into.old.items
        ++ declared_text (naming_of naming.now) (variable_of variable.now)) }
{
    push_text(into, variable.name.spelled())?;
    push_text(into, b":")?;
    push_sort(naming.signature, variable.sort, into)
}

/// Appends a term.
pub fn push_term(
    signature: &Signature,
    names: &[Variable],
    term: &Sorted,
    into: &mut Vec<u8>,
) -> Result<(), NoMemory>
    ensures { OnOk result (into.new.items
        ≡ into.old.items ++ written_term signature.now names.now term.now) }
{
    push_phrase(signature, names, term.term(), false, into)
}
