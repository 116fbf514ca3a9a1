//! Headings of specifications and processes.

ghost use Rattle.behaviour_tree.specs.BehaviourView.{variables_of};
ghost use Rattle.behaviour_tree.specs.DefinitionView.{functionality_of};
ghost use Rattle.flat_text.specs.FlatText.{
  heading,
  heading_gates,
  heading_parameters,
};
ghost use Rattle.report_text.specs.NamingView.{naming_of};
ghost use Rattle.std.specs.Prelude.{◌≡◌, ◌++◌, OnOk};

use crate::data_lines::push_sorted_variables;
use lotos_base::NoMemory;
use report_text::lists::push_square;
use report_text::{Naming, close_bracket, open_bracket, push_functionality, push_text};
use sort_terms::Variable;

/// Appends what stands behind the name in a heading: the gates and the parameters, if there are
/// some, and the functionality.
pub fn push_heading(
    naming: &Naming<'_>,
    gates: &Vec<u32>,
    parameters: &Vec<Variable>,
    exit: &Option<Vec<u32>>,
    into: &mut Vec<u8>,
) -> Result<(), NoMemory>
    ensures { OnOk result (into.new.items ≡ into.old.items ++ heading (naming_of naming.now)
        gates.now.items (variables_of parameters.now.items) (functionality_of exit.now)) }
{
    push_gates(naming, gates, into)?;
    push_parameters(naming, parameters, into)?;
    push_text(into, b" : ")?;
    push_functionality(naming.signature, exit, into)
}

// Appends the gates behind a blank, if there are some.
fn push_gates(naming: &Naming<'_>, gates: &Vec<u32>, into: &mut Vec<u8>) -> Result<(), NoMemory>
    ensures { OnOk result (into.new.items
        ≡ into.old.items ++ heading_gates (naming_of naming.now) gates.now.items) }
{
    if gates.is_empty() {
        return Ok(());
    }
    push_text(into, b" ")?;
    push_square(naming, &[], gates, into)
}

// Appends the parameters with their sorts behind a blank, if there are some.
fn push_parameters(
    naming: &Naming<'_>,
    parameters: &Vec<Variable>,
    into: &mut Vec<u8>,
) -> Result<(), NoMemory>
    ensures { OnOk result (into.new.items ≡ into.old.items
        ++ heading_parameters (naming_of naming.now) (variables_of parameters.now.items)) }
{
    if parameters.is_empty() {
        return Ok(());
    }
    push_text(into, b" ")?;
    let position = open_bracket(into, true)?;
    push_sorted_variables(naming.signature, parameters, into)?;
    close_bracket(into, true, position)
}
