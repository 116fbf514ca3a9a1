//! What the rows of `hide`, `let` and `par` build.

ghost use Rattle.std.specs.Prelude.{◌≡◌, IfOk, map, option_map, reverse};
ghost use Rattle.lotos_base.specs.WrittenView.{placed_name_of, text_place_of};
ghost use Rattle.syntax_trees.specs.TreeViews.{written_behaviour_of, gate_choice_of, sign_of};
ghost use Rattle.syntax_trees.specs.WrittenBehaviour as plain;
ghost use Rattle.ll_engine.specs.Run.{from_last};
ghost use Rattle.tree_building.specs.BehavioursMeaning.{hidden, let_in, par_after_word};
ghost use Rattle.tree_building.specs.BehavioursViews.{written_let_of};
ghost use Rattle.tree_building.specs.MeaningView.{meaning};

use crate::flat_lists::{grouped, only_operand};
use lotos_base::{Place, Written};
use lotos_lexer::Token;
use std::alloc::{AllocError, Global};
use syntax_trees::{BehForm, BehText, GateText, Named, Sign, VarText};
use tree_building::Value;
use tree_building::behaviours_values::Flat;
use tree_building::names::{Built, turned};
use tree_building::value::take;

/// `hide`, its gates, which are held from the last to the first, and the behaviour inside.
#[tactic(auto, using(tree_building::proofs::FromLast::map_reverse))]
fn hide(
    alloc: Global,
    place: Place,
    gates: Vec<Named>,
    inside: BehText,
) -> Result<BehText, AllocError>
    ensures { IfOk result (λ it. written_behaviour_of it
        ≡ plain.hide (text_place_of place) (from_last placed_name_of gates.items)
        (written_behaviour_of inside)) }
{
    let form = BehForm::Hide(turned(gates), Box::new(alloc, inside)?);
    Ok(BehText { place, form })
}

/// `hide .. in B`.
pub fn hide_gates(alloc: Global, token: Option<Token>, parts: &mut Vec<Value>) -> Built
    ensures { IfOk result (λ built. option_map meaning built
        ≡ hidden token (from_last meaning parts.old.items)) }
{
    let Some(word) = token else {
        return Ok(None);
    };
    let Some(gates) = take::<Vec<Named>>(parts) else {
        return Ok(None);
    };
    let Some(flat) = take::<Flat>(parts) else {
        return Ok(None);
    };
    let Some(inside) = grouped(alloc, flat)? else {
        return Ok(None);
    };
    let behaviour = hide(alloc, word.place, gates, inside)?;
    Ok(Some(only_operand(alloc, behaviour)?))
}

/// `let`, its declarations, which are held from the last to the first, and the behaviour inside.
#[tactic(auto, using(tree_building::proofs::FromLast::map_reverse))]
fn let_be(
    alloc: Global,
    place: Place,
    values: Vec<(VarText, Written)>,
    inside: BehText,
) -> Result<BehText, AllocError>
    ensures { IfOk result (λ it. written_behaviour_of it
        ≡ plain.let_be (text_place_of place) (from_last written_let_of values.items)
        (written_behaviour_of inside)) }
{
    let form = BehForm::Let(turned(values), Box::new(alloc, inside)?);
    Ok(BehText { place, form })
}

/// `let .. in B`.
pub fn let_values(alloc: Global, token: Option<Token>, parts: &mut Vec<Value>) -> Built
    ensures { IfOk result (λ built. option_map meaning built
        ≡ let_in token (from_last meaning parts.old.items)) }
{
    let Some(word) = token else {
        return Ok(None);
    };
    let Some(values) = take::<Vec<(VarText, Written)>>(parts) else {
        return Ok(None);
    };
    let Some(flat) = take::<Flat>(parts) else {
        return Ok(None);
    };
    let Some(inside) = grouped(alloc, flat)? else {
        return Ok(None);
    };
    let behaviour = let_be(alloc, word.place, values, inside)?;
    Ok(Some(only_operand(alloc, behaviour)?))
}

/// `par`, its declarations, which are held from the last to the first, its sign and the behaviour
/// inside.
#[tactic(auto, using(tree_building::proofs::FromLast::map_reverse))]
fn par(
    alloc: Global,
    place: Place,
    gates: Vec<GateText>,
    sign: Sign,
    inside: BehText,
) -> Result<BehText, AllocError>
    ensures { IfOk result (λ it. written_behaviour_of it
        ≡ plain.par_gate (text_place_of place) (from_last gate_choice_of gates.items) (sign_of sign)
        (written_behaviour_of inside)) }
{
    let form = BehForm::ParGate(turned(gates), sign, Box::new(alloc, inside)?);
    Ok(BehText { place, form })
}

/// `par .. sign B`.
pub fn par_gates(alloc: Global, token: Option<Token>, parts: &mut Vec<Value>) -> Built
    ensures { IfOk result (λ built. option_map meaning built
        ≡ par_after_word token (from_last meaning parts.old.items)) }
{
    let Some(word) = token else {
        return Ok(None);
    };
    let Some(gates) = take::<Vec<GateText>>(parts) else {
        return Ok(None);
    };
    let Some(sign) = take::<(Place, Sign)>(parts) else {
        return Ok(None);
    };
    let Some(flat) = take::<Flat>(parts) else {
        return Ok(None);
    };
    let Some(inside) = grouped(alloc, flat)? else {
        return Ok(None);
    };
    let behaviour = par(alloc, word.place, gates, sign.1, inside)?;
    Ok(Some(only_operand(alloc, behaviour)?))
}
