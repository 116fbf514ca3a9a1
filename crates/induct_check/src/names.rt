//! The names of the variables of the cases that are left.

ghost use Rattle.induct_check.specs.CertificateReading as plain;
ghost use Rattle.induct_check.specs.KnownView.{known_signature};
ghost use Rattle.induct_check.specs.NameView.{named_case_in, named_cases_in};
ghost use Rattle.induct_parts.specs.CertificateView.{covers_in};
ghost use Rattle.lotos_base.specs.Name.{spelling};
ghost use Rattle.lotos_base.specs.Signature.{IsOperation, Operation};
ghost use Rattle.lotos_base.specs.Substitution.{is_listed as is_listed_in};
ghost use Rattle.sort_terms.specs.EquationView.{variable_of};
ghost use Rattle.sort_terms.specs.Operations.{operation_of};
ghost use Rattle.std.specs.Prelude.{
  ◌≡◌,
  ◌++◌,
  ◌∷◌,
  [],
  ℕ,
  IfOk,
  List,
  OnOk,
  Some,
  codes,
  decimal,
  if◌then◌else◌,
  length,
  map,
};

use crate::known::Known;
use induct_parts::certificates::Cover;
use induct_parts::covers::{cover_of, is_listed};
use lotos_base::{Name, NoMemory};
use printed_texts::brackets::{push_number, push_text};
use sort_terms::{Op, Variable};
use std::alloc::Global;

/// A case that is left: the names and the sorts of its variables, by their numbers.
#[derive(Debug, Drop)]
pub struct NamedCase {
    /// The names.
    pub names: Vec<Name>,
    /// The sorts.
    pub sorts: Vec<u32>,
}

/// The case that the proof of a lemma with these variables begins with.
pub fn first_names(alloc: Global, variables: &[Variable]) -> Result<NamedCase, NoMemory>
    ensures { IfOk result (λ c. named_case_in c
        ≡ plain.first_names (map variable_of variables.now)) }
{
    let mut names = Vec::with_capacity(alloc, variables.len())?;
    let mut sorts = Vec::with_capacity(alloc, variables.len())?;
    for variable in variables {
        names.push(variable.name.copy(alloc)?)?;
        sorts.push(variable.sort)?;
    }
    Ok(NamedCase { names, sorts })
}

/// The number of the first variable with the name; where there is none, the number that comes next.
pub fn number_named(names: &[Name], name: &Name) -> usize
    ensures { result ≡ plain.number_named (map spelling names.now) (spelling name.now) }
{
    for number in 0..names.len() {
        if names[number].same(name) {
            return number;
        }
    }
    names.len()
}

/// The cases that a split of the variable with the name leaves: one for each operation of the cover
/// of its sort; none where there is no such variable, or no cover.
pub fn cases_behind(
    known: &Known,
    covers: &[Cover],
    point: &NamedCase,
    name: &Name,
) -> Result<Vec<NamedCase>, NoMemory>
    ensures { IfOk result (λ cases. named_cases_in cases.items
        ≡ plain.cases_behind (known_signature known.now) (covers_in covers.now)
        (named_case_in point.now) (spelling name.now)) }
{
    let number = number_named(point.names.as_slice(), name);
    if number >= point.sorts.len() {
        return Ok(Vec::new(known.alloc));
    }
    let Some(operations) = cover_of(covers, point.sorts[number]) else {
        return Ok(Vec::new(known.alloc));
    };
    cases_by(known, point, name, operations)
}

// The cases of the operations, in the order of the signature.
fn cases_by(
    known: &Known,
    point: &NamedCase,
    name: &Name,
    operations: &[u32],
) -> Result<Vec<NamedCase>, NoMemory>
    ensures { IfOk result (λ cases. named_cases_in cases.items
        ≡ plain.cases_by (known_signature known.now) (named_case_in point.now) (spelling name.now)
        (Some operations.now)) }
{
    let mut made = Vec::new(known.alloc);
    for operation in 0..known.signature.ops().len() {
        add_if_listed(known, point, name, operations, operation as u32, &mut made)?;
    }
    Ok(made)
}

// The case of the operation behind the others, if the operation is listed.
fn add_if_listed(
    known: &Known,
    point: &NamedCase,
    name: &Name,
    operations: &[u32],
    operation: u32,
    made: &mut Vec<NamedCase>,
) -> Result<(), NoMemory>
    requires { (o : Operation) × IsOperation (known_signature known.now) operation o }
    ensures { OnOk result ((o : Operation) → IsOperation (known_signature known.now) operation o
        → named_cases_in made.new.items ≡ named_cases_in made.old.items
        ++ (if is_listed_in operations.now operation
        then plain.named_behind (named_case_in point.now) (spelling name.now)
        (record { number = operation; operation = o }) ∷ []
        else [])) }
{
    if !is_listed(operations, operation) {
        return Ok(());
    }
    let op = &known.signature.ops()[operation as usize];
    made.push(named_behind(known.alloc, point, name, op)?)?;
    Ok(())
}

// The case with the names of the arguments of the operation.
fn named_behind(
    alloc: Global,
    point: &NamedCase,
    name: &Name,
    op: &Op,
) -> Result<NamedCase, NoMemory>
    ensures { IfOk result (λ c. (n : ℕ) → named_case_in c
        ≡ plain.named_behind (named_case_in point.now) (spelling name.now)
        (record { number = n; operation = operation_of op.now })) }
{
    let names = names_behind(alloc, point.names.as_slice(), name, op.arguments.len())?;
    let mut sorts = Vec::from_slice(alloc, point.sorts.as_slice())?;
    sorts.extend_from_slice(op.arguments.as_slice())?;
    Ok(NamedCase { names, sorts })
}

// The names, and those of so many arguments behind them.
fn names_behind(
    alloc: Global,
    names: &[Name],
    name: &Name,
    count: usize,
) -> Result<Vec<Name>, NoMemory>
    ensures { IfOk result (λ made. (ss : List ℕ) → length ss ≡ count → map spelling made.items
        ≡ map spelling names.now ++ plain.argument_names (spelling name.now) 1 ss) }
{
    let mut made = name_copies(alloc, names)?;
    for number in 0..count {
        made.push(argument_name(alloc, name, number + 1)?)?;
    }
    Ok(made)
}

// The same names.
fn name_copies(alloc: Global, names: &[Name]) -> Result<Vec<Name>, NoMemory>
    ensures { IfOk result (λ made. map spelling made.items ≡ map spelling names.now) }
{
    let mut made = Vec::with_capacity(alloc, names.len())?;
    for name in names {
        made.push(name.copy(alloc)?)?;
    }
    Ok(made)
}

// The name of an argument.
fn argument_name(alloc: Global, name: &Name, number: usize) -> Result<Name, NoMemory>
    ensures { IfOk result (λ made. spelling made
        ≡ spelling name.now ++ codes "." ++ decimal number) }
{
    let mut spelled = Vec::from_slice(alloc, name.spelled())?;
    push_text(&mut spelled, b".")?;
    push_number(&mut spelled, number as u128)?;
    Ok(Name::of(spelled))
}
