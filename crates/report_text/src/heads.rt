//! What stands before the part of a form, and whole calls and ends.

ghost use Rattle.behaviour_tree.specs.BehaviourView.{
  exit_value_of,
  let_of,
  meet_of,
  offer_of,
  terms_of,
  test_of,
  variables_of,
};
ghost use Rattle.report_text.specs.NamingView.{naming_of};
ghost use Rattle.printed_texts.specs.BehaviourText.{
  between_blanks,
  binding_text,
  call_text,
  declared_text,
  exit_value_text,
  gate_text,
  gates_text,
  offers_text,
  pair_text,
  predicate_text,
  called_text,
  round_list,
  sign_text,
};
ghost use Rattle.printed_texts.specs.Brackets.{commas, square};
ghost use Rattle.sort_terms.specs.EquationView.{variable_of};
ghost use Rattle.std.specs.Prelude.{◌≡◌, ◌++◌, OnOk, codes, map, option_map};

use crate::lists::{push_list, push_round_list, push_square, push_square_list};
use crate::members::{push_declared, push_gate};
use crate::naming::{Naming, ProcessNames};
use crate::premisses::{push_offers, push_predicate};
use crate::signs::push_meet;
use behaviour_tree::{ExitValue, Meet, Offer, Test};
use lotos_base::NoMemory;
use printed_texts::brackets::push_text;
use printed_texts::labels::push_name;
use sort_terms::{Sorted, Variable};

/// Appends `exit` with its values.
pub fn push_exit(
    naming: &Naming<'_>,
    names: &[Variable],
    values: &Vec<ExitValue>,
    into: &mut Vec<u8>,
) -> Result<(), NoMemory>
    ensures { OnOk result (into.new.items ≡ into.old.items ++ (codes "exit" ++ round_list
        (map (exit_value_text (naming_of naming.now) (variables_of names.now))
        (map exit_value_of values.now.items)))) }
{
    push_text(into, b"exit")?;
    push_round_list(naming, names, values, into)
}

/// Appends an action up to its `;`. Its test sees the inner names.
pub fn push_action(
    naming: &Naming<'_>,
    names: &[Variable],
    inner: &[Variable],
    gate: u32,
    offers: &Vec<Offer>,
    test: &Option<Test>,
    into: &mut Vec<u8>,
) -> Result<(), NoMemory>
    ensures { OnOk result (into.new.items ≡ into.old.items
        ++ (gate_text (naming_of naming.now) gate
        ++ offers_text (naming_of naming.now) (variables_of names.now)
        (map offer_of offers.now.items)
        ++ predicate_text (naming_of naming.now) (variables_of inner.now)
        (option_map test_of test.now) ++ codes "; ")) }
{
    push_gate(naming, gate, into)?;
    push_offers(naming, names, offers, into)?;
    push_predicate(naming, inner, test, into)?;
    push_text(into, b"; ")
}

/// Appends a hiding up to its `in`.
pub fn push_hide(naming: &Naming<'_>, gates: &Vec<u32>, into: &mut Vec<u8>) -> Result<(), NoMemory>
    ensures { OnOk result (into.new.items ≡ into.old.items ++ (codes "hide "
        ++ gates_text (naming_of naming.now) gates.now.items ++ codes " in ")) }
{
    push_text(into, b"hide ")?;
    push_list(naming, &[], gates, into)?;
    push_text(into, b" in ")
}

/// Appends a `let` up to its `in`.
pub fn push_let(
    naming: &Naming<'_>,
    names: &[Variable],
    bindings: &Vec<(Variable, Sorted)>,
    into: &mut Vec<u8>,
) -> Result<(), NoMemory>
    ensures { OnOk result (into.new.items ≡ into.old.items ++ (codes "let "
        ++ commas (map (binding_text (naming_of naming.now) (variables_of names.now))
        (map let_of bindings.now.items)) ++ codes " in ")) }
{
    push_text(into, b"let ")?;
    push_list(naming, names, bindings, into)?;
    push_text(into, b" in ")
}

/// Appends a value choice up to its `[]`.
pub fn push_value_choice(
    naming: &Naming<'_>,
    variable: &Variable,
    into: &mut Vec<u8>,
) -> Result<(), NoMemory>
    ensures { OnOk result (into.new.items ≡ into.old.items ++ (codes "choice "
        ++ declared_text (naming_of naming.now) (variable_of variable.now)
        ++ codes " [] ")) }
{
    push_text(into, b"choice ")?;
    push_declared(naming, variable, into)?;
    push_text(into, b" [] ")
}

// Appends a gate and the list from which it is taken.
fn push_taken(
    naming: &Naming<'_>,
    gate: u32,
    gates: &Vec<u32>,
    into: &mut Vec<u8>,
) -> Result<(), NoMemory>
    ensures { OnOk result (into.new.items ≡ into.old.items
        ++ (gate_text (naming_of naming.now) gate ++ codes " in "
        ++ square (gates_text (naming_of naming.now) gates.now.items))) }
{
    push_gate(naming, gate, into)?;
    push_text(into, b" in ")?;
    push_square(naming, &[], gates, into)
}

/// Appends a gate choice up to its `[]`.
pub fn push_gate_choice(
    naming: &Naming<'_>,
    gate: u32,
    gates: &Vec<u32>,
    into: &mut Vec<u8>,
) -> Result<(), NoMemory>
    ensures { OnOk result (into.new.items ≡ into.old.items ++ (codes "choice "
        ++ gate_text (naming_of naming.now) gate ++ codes " in "
        ++ square (gates_text (naming_of naming.now) gates.now.items)
        ++ codes " [] ")) }
{
    push_text(into, b"choice ")?;
    push_taken(naming, gate, gates, into)?;
    push_text(into, b" [] ")
}

/// Appends a gate `par` up to its sign.
pub fn push_par(
    naming: &Naming<'_>,
    gate: u32,
    gates: &Vec<u32>,
    meet: &Meet,
    into: &mut Vec<u8>,
) -> Result<(), NoMemory>
    ensures { OnOk result (into.new.items ≡ into.old.items ++ (codes "par "
        ++ gate_text (naming_of naming.now) gate ++ codes " in "
        ++ square (gates_text (naming_of naming.now) gates.now.items)
        ++ between_blanks (sign_text (naming_of naming.now) (meet_of meet.now)))) }
{
    push_text(into, b"par ")?;
    push_taken(naming, gate, gates, into)?;
    push_meet(naming, meet, into)
}

/// Appends a relabelling up to its `in`.
pub fn push_relabel(
    naming: &Naming<'_>,
    pairs: &Vec<(u32, u32)>,
    into: &mut Vec<u8>,
) -> Result<(), NoMemory>
    ensures { OnOk result (into.new.items ≡ into.old.items ++ (codes "relabel "
        ++ commas (map (pair_text (naming_of naming.now)) pairs.now.items)
        ++ codes " in ")) }
{
    push_text(into, b"relabel ")?;
    push_list(naming, &[], pairs, into)?;
    push_text(into, b" in ")
}

// Appends the name of a process.
fn push_process(naming: &Naming<'_>, process: u32, into: &mut Vec<u8>) -> Result<(), NoMemory>
    ensures { OnOk result (into.new.items
        ≡ into.old.items ++ called_text (naming_of naming.now) process) }
{
    match naming.processes {
        ProcessNames::Own(processes) => match processes.get(process as usize) {
            None => Ok(()),
            Some(called) => push_text(into, called.name.spelled()),
        },
        ProcessNames::Given(names) => push_name(names.as_slice(), process, into),
    }
}

/// Appends a call.
pub fn push_call(
    naming: &Naming<'_>,
    names: &[Variable],
    process: u32,
    gates: &Vec<u32>,
    values: &Vec<Sorted>,
    into: &mut Vec<u8>,
) -> Result<(), NoMemory>
    ensures { OnOk result (into.new.items ≡ into.old.items ++ call_text
        (naming_of naming.now) (variables_of names.now) process gates.now.items
        (terms_of values.now.items)) }
{
    push_process(naming, process, into)?;
    push_square_list(naming, &[], gates, into)?;
    push_round_list(naming, names, values, into)
}
