//! The evidence of refusals that have some: functionalities, cycles, equations and critical pairs.

ghost use Rattle.behaviour_tree.specs.DefinitionView.{functionality_of, specification_of};
ghost use Rattle.refusal_lines.specs.LineView.{data_in, names_of, spec_in};
ghost use Rattle.refusal_lines.specs.RefusalDetail.{
  cycle_detail,
  equation_detail,
  detailed_equation_text,
  forms_text,
  mismatch_detail,
  pair_detail,
  process_text_at,
  sides_text,
  process_steps_text,
  with_place,
};
ghost use Rattle.refusal_lines.specs.RefusalPlace.{place_of_equation};
ghost use Rattle.sort_terms.specs.EquationView.{data_of, equation_of};
ghost use Rattle.sort_terms.specs.SignatureView.{signature_of};
ghost use Rattle.sort_terms.specs.SortedView.{term_in};
ghost use Rattle.std.specs.Prelude.{◌≡◌, ◌++◌, OnOk, Some, map, slice_get};

use crate::places::place_at;
use crate::text_names::{TextNames, push_place};
use behaviour_tree::Spec;
use lotos_base::NoMemory;
use printed_texts::brackets::push_text;
use printed_texts::functionalities::push_functionality;
use printed_texts::terms::push_phrase;
use sort_terms::{Equation, Flat, Signature, Sorted};

/// Appends two functionalities that disagree.
pub fn push_mismatch(
    flat: &Option<Flat>,
    left: &Option<Vec<u32>>,
    right: &Option<Vec<u32>>,
    into: &mut Vec<u8>,
) -> Result<(), NoMemory>
    ensures { OnOk result (into.new.items ≡ into.old.items ++ mismatch_detail
        (data_in flat.now) (functionality_of left.now) (functionality_of right.now)) }
{
    match flat {
        None => Ok(()),
        Some(flat) => {
            push_text(into, b" ")?;
            push_functionality(&flat.signature, left, into)?;
            push_text(into, b" and ")?;
            push_functionality(&flat.signature, right, into)
        }
    }
}

/// Appends a cycle of processes, and its first one again.
pub fn push_cycle(spec: &Option<Spec>, cycle: &Vec<u32>, into: &mut Vec<u8>) -> Result<(), NoMemory>
    ensures { OnOk result (into.new.items
        ≡ into.old.items ++ cycle_detail (spec_in spec.now) cycle.now.items) }
{
    match cycle.first() {
        None => Ok(()),
        Some(first) => {
            push_text(into, b" ")?;
            push_steps(spec, cycle, into)?;
            push_process(spec, *first, into)
        }
    }
}

// Appends processes, each with an arrow behind it.
fn push_steps(spec: &Option<Spec>, cycle: &Vec<u32>, into: &mut Vec<u8>) -> Result<(), NoMemory>
    ensures { OnOk result (into.new.items
        ≡ into.old.items ++ process_steps_text (spec_in spec.now) cycle.now.items) }
{
    for process in cycle {
        push_process(spec, *process, into)?;
        push_text(into, b" -> ")?;
    }
    Ok(())
}

// Appends the name of the process with the number, if there is one.
fn push_process(spec: &Option<Spec>, number: u32, into: &mut Vec<u8>) -> Result<(), NoMemory>
    ensures { OnOk result (into.new.items
        ≡ into.old.items ++ process_text_at (spec_in spec.now) number) }
{
    match spec {
        None => Ok(()),
        Some(spec) => push_process_of(spec, number, into),
    }
}

// Appends the name of the process of the specification with the number, if there is one.
fn push_process_of(spec: &Spec, number: u32, into: &mut Vec<u8>) -> Result<(), NoMemory>
    ensures { OnOk result (into.new.items
        ≡ into.old.items ++ process_text_at (Some (specification_of spec.now)) number) }
{
    match spec.processes.get(number as usize) {
        None => Ok(()),
        Some(process) => push_text(into, process.name.spelled()),
    }
}

/// Appends the equation with the number, if there is one.
pub fn push_equation(flat: &Option<Flat>, number: u32, into: &mut Vec<u8>) -> Result<(), NoMemory>
    ensures { OnOk result (into.new.items
        ≡ into.old.items ++ equation_detail (data_in flat.now) number) }
{
    match flat {
        None => Ok(()),
        Some(flat) => push_equation_of(flat, number, into),
    }
}

// Appends the equation of the data with the number, if there is one.
fn push_equation_of(flat: &Flat, number: u32, into: &mut Vec<u8>) -> Result<(), NoMemory>
    ensures { OnOk result (into.new.items ≡ into.old.items ++ detailed_equation_text
        (data_of flat.now).signature (slice_get (data_of flat.now).equations number)) }
{
    match flat.equations.get(number as usize) {
        None => Ok(()),
        Some(equation) => {
            push_text(into, b" ")?;
            push_sides(&flat.signature, equation, into)
        }
    }
}

// Appends the two sides of an equation.
fn push_sides(
    signature: &Signature,
    equation: &Equation,
    into: &mut Vec<u8>,
) -> Result<(), NoMemory>
    ensures { OnOk result (into.new.items
        ≡ into.old.items ++ sides_text (signature_of signature.now) (equation_of equation.now)) }
{
    push_phrase(
        signature,
        equation.variables.as_slice(),
        equation.left.term(),
        false,
        into,
    )?;
    push_text(into, b" = ")?;
    push_phrase(
        signature,
        equation.variables.as_slice(),
        equation.right.term(),
        false,
        into,
    )
}

/// A critical pair whose sides have different chosen forms.
#[derive(Clone, Copy)]
pub struct Forms<'a> {
    /// The number of the equation of its second rule.
    pub second: u32,
    /// The peak.
    pub peak: &'a Sorted,
    /// The chosen form of one side.
    pub left: &'a Sorted,
    /// That of the other side.
    pub right: &'a Sorted,
}

/// Appends a critical pair.
pub fn push_pair(
    names: &TextNames,
    flat: &Option<Flat>,
    forms: &Forms,
    into: &mut Vec<u8>,
) -> Result<(), NoMemory>
    ensures { OnOk result (into.new.items ≡ into.old.items ++ pair_detail (names_of names.now)
        (data_in flat.now) forms.now.second (term_in forms.now.peak.now)
        (term_in forms.now.left.now) (term_in forms.now.right.now)) }
{
    match flat {
        None => Ok(()),
        Some(flat) => {
            push_with(names, flat, forms.second, into)?;
            push_forms(&flat.signature, forms, into)
        }
    }
}

// Appends the place of an equation behind ` with `, if there is one.
fn push_with(
    names: &TextNames,
    flat: &Flat,
    number: u32,
    into: &mut Vec<u8>,
) -> Result<(), NoMemory>
    ensures { OnOk result (into.new.items ≡ into.old.items ++ with_place (names_of names.now)
        (place_of_equation (Some (data_of flat.now)) number)) }
{
    match place_at(flat, number) {
        None => Ok(()),
        Some(place) => {
            push_text(into, b" with ")?;
            push_place(names, place, into)?;
            push_text(into, b":")
        }
    }
}

// Appends a peak and two chosen forms.
fn push_forms(signature: &Signature, forms: &Forms, into: &mut Vec<u8>) -> Result<(), NoMemory>
    ensures { OnOk result (into.new.items ≡ into.old.items ++ forms_text
        (signature_of signature.now) (term_in forms.now.peak.now) (term_in forms.now.left.now)
        (term_in forms.now.right.now)) }
{
    push_text(into, b" ")?;
    push_phrase(signature, &[], forms.peak.term(), false, into)?;
    push_text(into, b" gives ")?;
    push_phrase(signature, &[], forms.left.term(), false, into)?;
    push_text(into, b" and ")?;
    push_phrase(signature, &[], forms.right.term(), false, into)
}
