//! The flat text of a specification.

ghost use Rattle.behaviour_tree.specs.BehaviourView.{behaviour_of, variables_of};
ghost use Rattle.behaviour_tree.specs.DefinitionView.{process_of, specification_of};
ghost use Rattle.flat_text.specs.DataText.{line};
ghost use Rattle.flat_text.specs.FlatText.{
  flat_text,
  process_lines,
  text_by,
  text_with,
  true_in,
  where_lines,
};
ghost use Rattle.flat_text.specs.NamesView.{AreNamesFor};
ghost use Rattle.lotos_base.specs.Name.{spelling};
ghost use Rattle.report_text.specs.HandedOn.{behaviour_text};
ghost use Rattle.report_text.specs.NamingView.{naming_of};
ghost use Rattle.sort_terms.specs.EquationView.{data_of};
ghost use Rattle.sort_terms.specs.SignatureView.{signature_of};
ghost use Rattle.std.specs.Prelude.{◌≡◌, ◌++◌, IfOk, MatchResult, OnOk, codes, map};

use crate::data_lines::push_data;
use crate::equation_names::{equation_names, most_variables};
use crate::given_names::given_names;
use crate::headings::push_heading;
use behaviour_tree::{Process, Spec};
use lotos_base::{Name, NoMemory};
use report_text::behaviours::push_behaviour;
use report_text::{Naming, ProcessNames, push_text};
use scope_parts::terms::Terms;
use sort_terms::{Flat, Signature};
use std::alloc::Global;

/// Appends the text of a specification over data that says the same without their type algebra: one
/// type `Data` with all sorts, operations and equations, and one list of processes. Processes of
/// one name are told apart by a number behind it. After a failure for want of memory the text that
/// is appended to is as it was.
///
/// Nothing is asked of the data. That the text is read back as the same data is told of those whose
/// equations list their variables by first appearance, numbered from 0, as all flattened data do:
/// the text lists them as the equation does, and reading numbers them by first appearance.
pub fn write_flat(flat: &Flat, spec: &Spec, into: &mut Vec<u8>) -> Result<(), NoMemory>
    ensures { MatchResult result
        (λ _. into.new.items ≡ into.old.items ++ flat_text (data_of flat.now)
        (specification_of spec.now))
        (λ _. into.new.items ≡ into.old.items) }
{
    let mut text = Vec::new(*into.allocator());
    push_flat(flat, spec, &mut text)?;
    Ok(into.extend_from_slice(text.as_slice())?)
}

// Appends the text.
fn push_flat(flat: &Flat, spec: &Spec, into: &mut Vec<u8>) -> Result<(), NoMemory>
    ensures { OnOk result (into.new.items ≡ into.old.items ++ flat_text (data_of flat.now)
        (specification_of spec.now)) }
{
    let alloc = *into.allocator();
    let truth = true_of(alloc, &flat.signature)?;
    let given = given_names(alloc, &spec.processes)?;
    let names = equation_names(alloc, flat.signature.ops(), most_variables(&flat.equations))?;
    push_named(flat, spec, &given, &names, truth, into)
}

// The constant `true` of the sort `Bool`, if there is one.
fn true_of(alloc: Global, signature: &Signature) -> Result<Option<u32>, NoMemory>
    ensures { IfOk result (λ truth. truth ≡ true_in (signature_of signature.now)) }
{
    let terms = Terms::of(alloc, signature)?;
    match &terms.truth {
        None => Ok(None),
        Some(truth) => Ok(Some(truth.constant)),
    }
}

// Appends the text, with these names of processes and for the variables of equations.
fn push_named<'a>(
    flat: &'a Flat,
    spec: &'a Spec,
    given: &'a Vec<Name>,
    names: &Vec<Name>,
    truth: Option<u32>,
    into: &mut Vec<u8>,
) -> Result<(), NoMemory>
    requires names { AreNamesFor flat.now names.now.items }
    requires truth { truth ≡ true_in (signature_of flat.now.signature) }
    ensures { OnOk result (into.new.items ≡ into.old.items ++ text_with (data_of flat.now)
        (specification_of spec.now) (map spelling given.now.items)) }
{
    let naming = Naming {
        signature: &flat.signature,
        gates: &spec.gate_names,
        processes: ProcessNames::Given(given),
        truth,
    };
    push_whole(&naming, flat, spec, given, names, into)
}

// Appends all lines. The processes have the given names, and the variables of each equation the
// first of the other ones.
fn push_whole(
    naming: &Naming<'_>,
    flat: &Flat,
    spec: &Spec,
    given: &Vec<Name>,
    names: &Vec<Name>,
    into: &mut Vec<u8>,
) -> Result<(), NoMemory>
    requires { AreNamesFor flat.now names.now.items }
    ensures { OnOk result (into.new.items ≡ into.old.items ++ text_by (naming_of naming.now)
        (data_of flat.now) (specification_of spec.now) (map spelling given.now.items)) }
{
    push_text(into, b"specification ")?;
    push_text(into, spec.name.spelled())?;
    push_heading(naming, &spec.gates, &spec.parameters, &spec.exit, into)?;
    push_text(into, b"\n")?;
    push_data(flat, names, into)?;
    push_body(naming, spec, into)?;
    push_where(naming, given, &spec.processes, into)?;
    push_text(into, b"endspec\n")
}

// Appends the line of the body.
fn push_body(naming: &Naming<'_>, spec: &Spec, into: &mut Vec<u8>) -> Result<(), NoMemory>
    ensures { OnOk result (into.new.items ≡ into.old.items ++ line (codes "behaviour "
        ++ behaviour_text (naming_of naming.now) (variables_of spec.now.parameters.items)
        (behaviour_of spec.now.body.value))) }
{
    push_text(into, b"behaviour ")?;
    push_behaviour(naming, &spec.parameters, &spec.body, into)?;
    push_text(into, b"\n")
}

// Appends the processes under these names behind their `where`, if there are some.
fn push_where(
    naming: &Naming<'_>,
    names: &Vec<Name>,
    processes: &Vec<Process>,
    into: &mut Vec<u8>,
) -> Result<(), NoMemory>
    ensures { OnOk result (into.new.items ≡ into.old.items ++ where_lines (naming_of naming.now)
        (map spelling names.now.items) (map process_of processes.now.items)) }
{
    if processes.is_empty() {
        return Ok(());
    }
    push_text(into, b"where\n")?;
    for (index, process) in processes.iter().enumerate() {
        let Some(name) = names.get(index) else {
            return Ok(());
        };
        push_process(naming, name, process, into)?;
    }
    Ok(())
}

// Appends a process under a name.
fn push_process(
    naming: &Naming<'_>,
    name: &Name,
    process: &Process,
    into: &mut Vec<u8>,
) -> Result<(), NoMemory>
    ensures { OnOk result (into.new.items ≡ into.old.items ++ process_lines
        (naming_of naming.now) (spelling name.now) (process_of process.now)) }
{
    push_text(into, b"process ")?;
    push_text(into, name.spelled())?;
    push_heading(
        naming,
        &process.gates,
        &process.parameters,
        &process.exit,
        into,
    )?;
    push_text(into, b" := ")?;
    push_behaviour(naming, &process.parameters, &process.body, into)?;
    push_text(into, b"\nendproc\n")
}
