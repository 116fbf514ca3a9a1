//! The text of data.

ghost use Rattle.flat_text.specs.DataText.{
  argument_sorts,
  data_text,
  equation_line,
  equations_lines,
  for_all,
  operation_line,
  operations_lines,
  operator_name,
  sort_if_any,
  sorted_variable,
  sorts_lines,
};
ghost use Rattle.flat_text.specs.EquationNames.{variables_under_names, renamed_variables};
ghost use Rattle.flat_text.specs.NamesView.{AreNamesFor};
ghost use Rattle.lotos_base.specs.Name.{spelling};
ghost use Rattle.lotos_base.specs.Sorting.{head_sort_of as sort_of_term};
ghost use Rattle.report_text.specs.HandedOn.{commas};
ghost use Rattle.sort_terms.specs.EquationView.{data_of, equation_of, variable_of};
ghost use Rattle.sort_terms.specs.Operations.{operation_of, sort_of};
ghost use Rattle.sort_terms.specs.SignatureView.{signature_of};
ghost use Rattle.sort_terms.specs.SortedView.{term_in};
ghost use Rattle.std.specs.Prelude.{◌≡◌, ◌<◌, ◌++◌, OnOk, length, map};

use crate::equation_names::renamed;
use lotos_base::{Form, Name, NoMemory};
use report_text::{operation_at, push_phrase, push_separator, push_sort, push_text};
use sort_terms::{Equation, Flat, Op, Signature, Sort, Sorted, Term, Variable};

/// Appends the type with all sorts, operations and equations, if there are sorts. The variables of
/// each equation have the first of these names.
pub fn push_data(flat: &Flat, names: &Vec<Name>, into: &mut Vec<u8>) -> Result<(), NoMemory>
    requires names { AreNamesFor flat.now names.now.items }
    ensures { OnOk result (into.new.items ≡ into.old.items ++ data_text (data_of flat.now)) }
{
    if flat.signature.sorts().is_empty() {
        return Ok(());
    }
    push_text(into, b"type Data is\n")?;
    push_sorts(flat.signature.sorts(), into)?;
    push_operations(&flat.signature, into)?;
    push_equations(flat, names, into)?;
    push_text(into, b"endtype\n")
}

// Appends the line of the sorts.
fn push_sorts(sorts: &[Sort], into: &mut Vec<u8>) -> Result<(), NoMemory>
    requires { 0 < length sorts.now }
    ensures { OnOk result (into.new.items
        ≡ into.old.items ++ sorts_lines (map sort_of sorts.now)) }
{
    push_text(into, b"sorts ")?;
    for (index, sort) in sorts.iter().enumerate() {
        push_separator(into, index)?;
        push_text(into, sort.name.spelled())?;
    }
    push_text(into, b"\n")
}

// Appends the lines of the operations, if there are some.
fn push_operations(signature: &Signature, into: &mut Vec<u8>) -> Result<(), NoMemory>
    ensures { OnOk result (into.new.items ≡ into.old.items ++ operations_lines
        (signature_of signature.now) (signature_of signature.now).operations) }
{
    if signature.ops().is_empty() {
        return Ok(());
    }
    push_text(into, b"opns\n")?;
    for operation in signature.ops() {
        push_operation(signature, operation, into)?;
    }
    Ok(())
}

// Appends the line of an operation.
fn push_operation(signature: &Signature, operation: &Op, into: &mut Vec<u8>) -> Result<(), NoMemory>
    ensures { OnOk result (into.new.items ≡ into.old.items ++ operation_line
        (signature_of signature.now) (operation_of operation.now)) }
{
    push_operator(operation, into)?;
    push_text(into, b" : ")?;
    push_arguments(signature, &operation.arguments, into)?;
    push_text(into, b"-> ")?;
    push_sort(signature, operation.result, into)?;
    push_text(into, b"\n")
}

// Appends the name of an operation, between underscores where it stands between its arguments.
fn push_operator(operation: &Op, into: &mut Vec<u8>) -> Result<(), NoMemory>
    ensures { OnOk result (into.new.items ≡ into.old.items ++ operator_name
        (operation_of operation.now).form (operation_of operation.now).name) }
{
    match operation.form {
        Form::Prefix => push_text(into, operation.name.spelled()),
        Form::Infix => {
            push_text(into, b"_")?;
            push_text(into, operation.name.spelled())?;
            push_text(into, b"_")
        }
    }
}

// Appends the sorts of arguments with a blank behind them, if there are some.
fn push_arguments(
    signature: &Signature,
    sorts: &Vec<u32>,
    into: &mut Vec<u8>,
) -> Result<(), NoMemory>
    ensures { OnOk result (into.new.items ≡ into.old.items ++ argument_sorts
        (signature_of signature.now) sorts.now.items) }
{
    if sorts.is_empty() {
        return Ok(());
    }
    for (index, sort) in sorts.iter().enumerate() {
        push_separator(into, index)?;
        push_sort(signature, *sort, into)?;
    }
    push_text(into, b" ")
}

// Appends the lines of the equations, if there are some.
fn push_equations(flat: &Flat, names: &Vec<Name>, into: &mut Vec<u8>) -> Result<(), NoMemory>
    requires names { AreNamesFor flat.now names.now.items }
    ensures { OnOk result (into.new.items ≡ into.old.items ++ equations_lines
        (signature_of flat.now.signature) (map equation_of flat.now.equations.items)) }
{
    if flat.equations.is_empty() {
        return Ok(());
    }
    push_text(into, b"eqns\n")?;
    for equation in &flat.equations {
        push_equation(&flat.signature, names, equation, into)?;
    }
    Ok(())
}

// Appends the line of an equation.
fn push_equation(
    signature: &Signature,
    names: &Vec<Name>,
    equation: &Equation,
    into: &mut Vec<u8>,
) -> Result<(), NoMemory>
    requires { variables_under_names (map spelling names.now.items)
        (map variable_of equation.now.variables.items)
        ≡ renamed_variables (signature_of signature.now) (equation_of equation.now) }
    ensures { OnOk result (into.new.items ≡ into.old.items ++ equation_line
        (signature_of signature.now) (equation_of equation.now)) }
{
    let variables = renamed(*into.allocator(), names, &equation.variables)?;
    push_text(into, b"ofsort ")?;
    push_sort_of(signature, &equation.left, into)?;
    push_text(into, b" ")?;
    push_for_all(signature, &variables, into)?;
    push_phrase(
        signature,
        variables.as_slice(),
        equation.left.term(),
        false,
        into,
    )?;
    push_text(into, b" = ")?;
    push_phrase(
        signature,
        variables.as_slice(),
        equation.right.term(),
        false,
        into,
    )?;
    push_text(into, b";\n")
}

// Appends the sort that the head of a term gives it.
fn push_sort_of(signature: &Signature, term: &Sorted, into: &mut Vec<u8>) -> Result<(), NoMemory>
    ensures { OnOk result (into.new.items ≡ into.old.items ++ sort_if_any
        (signature_of signature.now)
        (sort_of_term (signature_of signature.now) (term_in term.now))) }
{
    match term.term() {
        Term::Var { sort, .. } => push_sort(signature, *sort, into),
        Term::Node { op, .. } => match operation_at(signature, *op) {
            None => Ok(()),
            Some(operation) => push_sort(signature, operation.result, into),
        },
    }
}

// Appends the variables of an equation with their sorts, if there are some.
fn push_for_all(
    signature: &Signature,
    variables: &Vec<Variable>,
    into: &mut Vec<u8>,
) -> Result<(), NoMemory>
    ensures { OnOk result (into.new.items ≡ into.old.items ++ for_all
        (signature_of signature.now) (map variable_of variables.now.items)) }
{
    if variables.is_empty() {
        return Ok(());
    }
    push_text(into, b"forall ")?;
    push_sorted_variables(signature, variables, into)?;
    push_text(into, b" ")
}

/// Appends variables with their sorts between commas.
pub fn push_sorted_variables(
    signature: &Signature,
    variables: &Vec<Variable>,
    into: &mut Vec<u8>,
) -> Result<(), NoMemory>
    ensures { OnOk result (into.new.items ≡ into.old.items ++ commas (map (sorted_variable
        (signature_of signature.now)) (map variable_of variables.now.items))) }
{
    for (index, variable) in variables.iter().enumerate() {
        push_separator(into, index)?;
        push_text(into, variable.name.spelled())?;
        push_text(into, b" : ")?;
        push_sort(signature, variable.sort, into)?;
    }
    Ok(())
}
