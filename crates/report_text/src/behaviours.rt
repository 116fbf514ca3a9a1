//! The text of a behaviour, form by form.

ghost use Rattle.behaviour_semantics.specs.Behaviour as plain;
ghost use Rattle.behaviour_tree.specs.BehaviourView.{
  behaviour_of,
  let_of,
  meet_of,
  offer_of,
  test_of,
  variables_of,
};
ghost use Rattle.report_text.specs.NamingView.{naming_of};
ghost use Rattle.printed_texts.specs.BehaviourText.{behaviour_text, stands_in_brackets, unit_text};
ghost use Rattle.sort_terms.specs.EquationView.{variable_of};
ghost use Rattle.std.specs.Prelude.{◌≡◌, ◌++◌, OnOk, map, option_map};

use crate::heads::{
    push_action, push_call, push_exit, push_gate_choice, push_hide, push_let, push_par,
    push_value_choice,
};
use crate::naming::Naming;
use crate::premisses::push_test;
use crate::scopes::{below_accept, below_choice, below_let, below_offers};
use crate::signs::{push_accept, push_meet};
use behaviour_tree::{Beh, Meet, Offer, Test};
use lotos_base::NoMemory;
use printed_texts::brackets::{close_bracket, open_bracket, push_text};
use sort_terms::{Sorted, Variable};
use std::rc::Rc;

/// Appends the text of a behaviour, where these variables are in scope.
#[cycle(behaviours)]
pub fn push_behaviour(
    naming: &Naming<'_>,
    names: &Vec<Variable>,
    behaviour: &Beh,
    into: &mut Vec<u8>,
) -> Result<(), NoMemory>
    ensures { OnOk result (into.new.items ≡ into.old.items ++ behaviour_text
        (naming_of naming.now) (variables_of names.now.items)
        (behaviour_of behaviour.now)) }
{
    match behaviour {
        Beh::Stop => push_text(into, b"stop"),
        Beh::Exit(values) => push_exit(naming, names.as_slice(), values, into),
        Beh::Action {
            gate,
            offers,
            test,
            next,
        } => push_prefix(naming, names, *gate, offers, test, next, into),
        Beh::Inner(next) => push_inner(naming, names, next, into),
        Beh::Guard(test, next) => push_guarded(naming, names, test, next, into),
        Beh::Choice(_, left, right) => push_sides(naming, names, left, right, into),
        Beh::Parallel(_, meet, left, right) => {
            push_parallel(naming, names, meet, left, right, into)
        }
        Beh::Hide(gates, next) => push_hidden(naming, names, gates, next, into),
        Beh::Enable(_, left, variables, right) => {
            push_enabling(naming, names, left, variables, right, into)
        }
        Beh::Disable(_, left, right) => push_disabling(naming, names, left, right, into),
        Beh::Let(bindings, next) => push_bound(naming, names, bindings, next, into),
        Beh::ChooseValue(variable, next) => push_chosen(naming, names, variable, next, into),
        Beh::ChooseGate(gate, gates, next) => {
            push_at_gate(naming, names, *gate, gates, next, into)
        }
        Beh::ParGate(gate, gates, meet, next) => {
            push_copies(naming, names, *gate, gates, meet, next, into)
        }
        Beh::Call {
            place: _,
            process,
            gates,
            values,
        } => push_call(naming, names.as_slice(), *process, gates, values, into),
    }
}

/// Whether the behaviour stands in brackets as a part: it is a binary form or a word form.
pub fn is_bracketed(behaviour: &Beh) -> bool
    ensures { result ≡ stands_in_brackets (behaviour_of behaviour.now) }
{
    match behaviour {
        Beh::Stop => false,
        Beh::Exit(_) => false,
        Beh::Action { .. } => false,
        Beh::Inner(_) => false,
        Beh::Guard(_, _) => false,
        Beh::Call { .. } => false,
        Beh::Choice(_, _, _) => true,
        Beh::Parallel(_, _, _, _) => true,
        Beh::Hide(_, _) => true,
        Beh::Enable(_, _, _, _) => true,
        Beh::Disable(_, _, _) => true,
        Beh::Let(_, _) => true,
        Beh::ChooseValue(_, _) => true,
        Beh::ChooseGate(_, _, _) => true,
        Beh::ParGate(_, _, _, _) => true,
    }
}

/// Appends the text of a part, with its brackets where it needs some.
#[cycle(behaviours)]
pub fn push_unit(
    naming: &Naming<'_>,
    names: &Vec<Variable>,
    part: &Beh,
    into: &mut Vec<u8>,
) -> Result<(), NoMemory>
    ensures { OnOk result (into.new.items ≡ into.old.items ++ unit_text (behaviour_of part.now)
        (behaviour_text (naming_of naming.now) (variables_of names.now.items)
        (behaviour_of part.now))) }
{
    let is_needed = is_bracketed(part);
    let position = open_bracket(into, is_needed)?;
    push_behaviour(naming, names, part, into)?;
    close_bracket(into, is_needed, position)
}

// Appends an action.
#[cycle(behaviours)]
#[inline(never)]
fn push_prefix(
    naming: &Naming<'_>,
    names: &Vec<Variable>,
    gate: u32,
    offers: &Vec<Offer>,
    test: &Option<Test>,
    next: &Rc<Beh>,
    into: &mut Vec<u8>,
) -> Result<(), NoMemory>
    ensures { OnOk result (into.new.items ≡ into.old.items ++ behaviour_text
        (naming_of naming.now) (variables_of names.now.items)
        (plain.action gate (map offer_of offers.now.items) (option_map test_of test.now)
        (behaviour_of next.now.value))) }
{
    let inner = below_offers(names, offers)?;
    push_action(
        naming,
        names.as_slice(),
        inner.as_slice(),
        gate,
        offers,
        test,
        into,
    )?;
    push_unit(naming, &inner, next, into)
}

// Appends `i; B`.
#[cycle(behaviours)]
#[inline(never)]
fn push_inner(
    naming: &Naming<'_>,
    names: &Vec<Variable>,
    next: &Rc<Beh>,
    into: &mut Vec<u8>,
) -> Result<(), NoMemory>
    ensures { OnOk result (into.new.items ≡ into.old.items ++ behaviour_text
        (naming_of naming.now) (variables_of names.now.items)
        (plain.inner_action (behaviour_of next.now.value))) }
{
    push_text(into, b"i; ")?;
    push_unit(naming, names, next, into)
}

// Appends a guard.
#[cycle(behaviours)]
#[inline(never)]
fn push_guarded(
    naming: &Naming<'_>,
    names: &Vec<Variable>,
    test: &Test,
    next: &Rc<Beh>,
    into: &mut Vec<u8>,
) -> Result<(), NoMemory>
    ensures { OnOk result (into.new.items ≡ into.old.items ++ behaviour_text
        (naming_of naming.now) (variables_of names.now.items)
        (plain.guard (test_of test.now) (behaviour_of next.now.value))) }
{
    push_test(naming, names.as_slice(), test, into)?;
    push_text(into, b" -> ")?;
    push_unit(naming, names, next, into)
}

// Appends a choice.
#[cycle(behaviours)]
#[inline(never)]
fn push_sides(
    naming: &Naming<'_>,
    names: &Vec<Variable>,
    left: &Rc<Beh>,
    right: &Rc<Beh>,
    into: &mut Vec<u8>,
) -> Result<(), NoMemory>
    ensures { OnOk result (into.new.items ≡ into.old.items ++ behaviour_text
        (naming_of naming.now) (variables_of names.now.items)
        (plain.choice (behaviour_of left.now.value) (behaviour_of right.now.value))) }
{
    push_unit(naming, names, left, into)?;
    push_text(into, b" [] ")?;
    push_unit(naming, names, right, into)
}

// Appends a parallel.
#[cycle(behaviours)]
#[inline(never)]
fn push_parallel(
    naming: &Naming<'_>,
    names: &Vec<Variable>,
    meet: &Meet,
    left: &Rc<Beh>,
    right: &Rc<Beh>,
    into: &mut Vec<u8>,
) -> Result<(), NoMemory>
    ensures { OnOk result (into.new.items ≡ into.old.items ++ behaviour_text
        (naming_of naming.now) (variables_of names.now.items)
        (plain.parallel (meet_of meet.now) (behaviour_of left.now.value)
        (behaviour_of right.now.value))) }
{
    push_unit(naming, names, left, into)?;
    push_meet(naming, meet, into)?;
    push_unit(naming, names, right, into)
}

// Appends a hiding.
#[cycle(behaviours)]
#[inline(never)]
fn push_hidden(
    naming: &Naming<'_>,
    names: &Vec<Variable>,
    gates: &Vec<u32>,
    next: &Rc<Beh>,
    into: &mut Vec<u8>,
) -> Result<(), NoMemory>
    ensures { OnOk result (into.new.items ≡ into.old.items ++ behaviour_text
        (naming_of naming.now) (variables_of names.now.items)
        (plain.hide gates.now.items (behaviour_of next.now.value))) }
{
    push_hide(naming, gates, into)?;
    push_behaviour(naming, names, next, into)
}

// Appends an enabling. Its right side sees the variables that it accepts.
#[cycle(behaviours)]
#[inline(never)]
fn push_enabling(
    naming: &Naming<'_>,
    names: &Vec<Variable>,
    left: &Rc<Beh>,
    variables: &Vec<Variable>,
    right: &Rc<Beh>,
    into: &mut Vec<u8>,
) -> Result<(), NoMemory>
    ensures { OnOk result (into.new.items ≡ into.old.items ++ behaviour_text
        (naming_of naming.now) (variables_of names.now.items)
        (plain.enable (behaviour_of left.now.value) (variables_of variables.now.items)
        (behaviour_of right.now.value))) }
{
    push_unit(naming, names, left, into)?;
    push_accept(naming, variables, into)?;
    let inner = below_accept(names, variables)?;
    push_unit(naming, &inner, right, into)
}

// Appends a disabling.
#[cycle(behaviours)]
#[inline(never)]
fn push_disabling(
    naming: &Naming<'_>,
    names: &Vec<Variable>,
    left: &Rc<Beh>,
    right: &Rc<Beh>,
    into: &mut Vec<u8>,
) -> Result<(), NoMemory>
    ensures { OnOk result (into.new.items ≡ into.old.items ++ behaviour_text
        (naming_of naming.now) (variables_of names.now.items)
        (plain.disable (behaviour_of left.now.value) (behaviour_of right.now.value))) }
{
    push_unit(naming, names, left, into)?;
    push_text(into, b" [> ")?;
    push_unit(naming, names, right, into)
}

// Appends a `let`. Its part sees its variables.
#[cycle(behaviours)]
#[inline(never)]
fn push_bound(
    naming: &Naming<'_>,
    names: &Vec<Variable>,
    bindings: &Vec<(Variable, Sorted)>,
    next: &Rc<Beh>,
    into: &mut Vec<u8>,
) -> Result<(), NoMemory>
    ensures { OnOk result (into.new.items ≡ into.old.items ++ behaviour_text
        (naming_of naming.now) (variables_of names.now.items)
        (plain.let_be (map let_of bindings.now.items) (behaviour_of next.now.value))) }
{
    push_let(naming, names.as_slice(), bindings, into)?;
    let inner = below_let(names, bindings)?;
    push_behaviour(naming, &inner, next, into)
}

// Appends a value choice. Its part sees its variable.
#[cycle(behaviours)]
#[inline(never)]
fn push_chosen(
    naming: &Naming<'_>,
    names: &Vec<Variable>,
    variable: &Variable,
    next: &Rc<Beh>,
    into: &mut Vec<u8>,
) -> Result<(), NoMemory>
    ensures { OnOk result (into.new.items ≡ into.old.items ++ behaviour_text
        (naming_of naming.now) (variables_of names.now.items)
        (plain.choose_value (variable_of variable.now) (behaviour_of next.now.value))) }
{
    push_value_choice(naming, variable, into)?;
    let inner = below_choice(names, variable)?;
    push_behaviour(naming, &inner, next, into)
}

// Appends a gate choice.
#[cycle(behaviours)]
#[inline(never)]
fn push_at_gate(
    naming: &Naming<'_>,
    names: &Vec<Variable>,
    gate: u32,
    gates: &Vec<u32>,
    next: &Rc<Beh>,
    into: &mut Vec<u8>,
) -> Result<(), NoMemory>
    ensures { OnOk result (into.new.items ≡ into.old.items ++ behaviour_text
        (naming_of naming.now) (variables_of names.now.items)
        (plain.choose_gate gate gates.now.items (behaviour_of next.now.value))) }
{
    push_gate_choice(naming, gate, gates, into)?;
    push_behaviour(naming, names, next, into)
}

// Appends a gate `par`.
#[cycle(behaviours)]
#[inline(never)]
fn push_copies(
    naming: &Naming<'_>,
    names: &Vec<Variable>,
    gate: u32,
    gates: &Vec<u32>,
    meet: &Meet,
    next: &Rc<Beh>,
    into: &mut Vec<u8>,
) -> Result<(), NoMemory>
    ensures { OnOk result (into.new.items ≡ into.old.items ++ behaviour_text
        (naming_of naming.now) (variables_of names.now.items)
        (plain.par_gate gate gates.now.items (meet_of meet.now)
        (behaviour_of next.now.value))) }
{
    push_par(naming, gate, gates, meet, into)?;
    push_behaviour(naming, names, next, into)
}
