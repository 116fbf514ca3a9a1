//! What the row of `choice` builds.

ghost use Rattle.std.specs.Prelude.{◌≡◌, ◌++◌, ◌∷◌, IfOk, List, Some, map, option_map, reverse};
ghost use Rattle.lotos_base.specs.WrittenView.{placed_name_of, text_place_of};
ghost use Rattle.lotos_rows.specs.Behaviours.{gate_choices_among};
ghost use Rattle.lotos_rows.specs.Names.{variables_of_sort};
ghost use Rattle.syntax_trees.specs.TreeViews.{written_behaviour_of, gate_choice_of, written_variable_of};
ghost use Rattle.syntax_trees.specs.WrittenBehaviour as plain;
ghost use Rattle.ll_engine.specs.Run.{from_last};
ghost use Rattle.tree_building.specs.BehavioursMeaning.{operand_alone, choice_after_word, choice_of_gates, choice_of_values, or_else};
ghost use Rattle.tree_building.specs.Meaning.{Meaning};
ghost use Rattle.tree_building.specs.MeaningView.{meaning};

use crate::declarations::add_gate_choices;
use crate::flat_lists::only_operand;
use lotos_base::Place;
use lotos_lexer::Token;
use std::alloc::{AllocError, Global};
use syntax_trees::{BehForm, BehText, GateText, Named, VarText};
use tree_building::Value;
use tree_building::behaviours_values::{GateChoiceEnd, ValueChoiceEnd};
use tree_building::names::{Built, add_variables, turned};
use tree_building::value::{of_another_kind, take};

/// `choice` over variables, which are held from the last to the first.
#[tactic(auto, using(tree_building::proofs::FromLast::map_reverse))]
fn choose_variables(place: Place, variables: Vec<VarText>, inside: Box<BehText>) -> BehText
    ensures { written_behaviour_of result
        ≡ plain.choose_value (text_place_of place) (from_last written_variable_of variables.items)
        (written_behaviour_of inside.value) }
{
    let form = BehForm::ChooseValue(turned(variables), inside);
    BehText { place, form }
}

/// `choice` over values: the first names, and what stands behind them.
fn choose_values(
    alloc: Global,
    place: Place,
    names: Vec<Named>,
    end: ValueChoiceEnd,
) -> Result<Value, AllocError>
    ensures { IfOk result (λ value. meaning value
        ≡ operand_alone (plain.choose_value (text_place_of place)
        (variables_of_sort (from_last placed_name_of names.items) (placed_name_of end.sort)
        ++ from_last written_variable_of end.more.items)
        (written_behaviour_of end.inside.value))) }
{
    let ValueChoiceEnd { sort, more, inside } = end;
    let mut variables = more;
    add_variables(alloc, names, &sort, &mut variables)?;
    let behaviour = choose_variables(place, variables, inside);
    only_operand(alloc, behaviour)
}

/// `choice` over gates, whose declarations are held from the last to the first.
#[tactic(auto, using(tree_building::proofs::FromLast::map_reverse))]
fn choose_declared(place: Place, gates: Vec<GateText>, inside: Box<BehText>) -> BehText
    ensures { written_behaviour_of result
        ≡ plain.choose_gate (text_place_of place) (from_last gate_choice_of gates.items)
        (written_behaviour_of inside.value) }
{
    let form = BehForm::ChooseGate(turned(gates), inside);
    BehText { place, form }
}

/// `choice` over gates: the first names, and what stands behind them.
#[tactic(auto, using(tree_building::proofs::FromLast::map_reverse))]
fn choose_gates(
    alloc: Global,
    place: Place,
    names: Vec<Named>,
    end: GateChoiceEnd,
) -> Result<Value, AllocError>
    ensures { IfOk result (λ value. meaning value
        ≡ operand_alone (plain.choose_gate (text_place_of place)
        (gate_choices_among (from_last placed_name_of names.items)
        (from_last placed_name_of end.among.items) ++ from_last gate_choice_of end.more.items)
        (written_behaviour_of end.inside.value))) }
{
    let GateChoiceEnd {
        among,
        more,
        inside,
    } = end;
    let mut gates = more;
    add_gate_choices(alloc, names, &turned(among), &mut gates)?;
    let behaviour = choose_declared(place, gates, inside);
    only_operand(alloc, behaviour)
}

/// What stands behind the names of a `choice`, over values or over gates.
fn chosen_over(alloc: Global, place: Place, names: Vec<Named>, end: Value) -> Built
    ensures { IfOk result (λ built. (rest : List Meaning) → option_map meaning built
        ≡ or_else (choice_of_values (text_place_of place) (from_last placed_name_of names.items)
        (meaning end ∷ rest))
        (choice_of_gates (text_place_of place) (from_last placed_name_of names.items)
        (meaning end ∷ rest))) }
{
    match end {
        Value::ValueChoice(end) => Ok(Some(choose_values(alloc, place, names, end)?)),
        Value::GateChoice(end) => Ok(Some(choose_gates(alloc, place, names, end)?)),
        other => Ok(of_another_kind(other)),
    }
}

/// `choice .. [] B`, at the place of its word.
#[tactic(auto, using(tree_building::proofs::FromLast::from_last_more, tree_building::proofs::FromLast::from_last_none))]
fn choice_at(alloc: Global, word: Token, parts: &mut Vec<Value>) -> Built
    ensures { IfOk result (λ built. option_map meaning built
        ≡ choice_after_word (Some word) (from_last meaning parts.old.items)) }
{
    let Some(names) = take::<Vec<Named>>(parts) else {
        return Ok(None);
    };
    let Some(end) = parts.pop() else {
        return Ok(None);
    };
    chosen_over(alloc, word.place, names, end)
}

/// `choice .. [] B`.
pub fn choice(alloc: Global, token: Option<Token>, parts: &mut Vec<Value>) -> Built
    ensures { IfOk result (λ built. option_map meaning built
        ≡ choice_after_word token (from_last meaning parts.old.items)) }
{
    match token {
        Some(word) => choice_at(alloc, word, parts),
        None => Ok(None),
    }
}
