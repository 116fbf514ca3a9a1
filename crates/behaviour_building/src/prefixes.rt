//! What the rows of actions, guards and calls build.

ghost use Rattle.std.specs.Prelude.{◌≡◌, ◌∷◌, IfOk, List, map, option_map, reverse};
ghost use Rattle.lotos_base.specs.WrittenView.{placed_name_of, text_place_of, written_term_of};
ghost use Rattle.syntax_trees.specs.TreeViews.{written_behaviour_of, written_offer_of, premiss_of};
ghost use Rattle.syntax_trees.specs.WrittenBehaviour as plain;
ghost use Rattle.ll_engine.specs.Run.{from_last};
ghost use Rattle.tree_building.specs.BehavioursMeaning.{action_of_gate, action_with_selection, action_without_offers, before_tail, call_of_process, call_without_name, guarded, inner_prefixed, name_first, offers_before_action, or_else, prefixed};
ghost use Rattle.tree_building.specs.BehavioursViews.{flat_of};
ghost use Rattle.tree_building.specs.Meaning.{Meaning};
ghost use Rattle.tree_building.specs.MeaningView.{meaning};

use crate::flat_lists::operand_before;
use lotos_base::{Place, Written};
use lotos_lexer::Token;
use std::alloc::{AllocError, Global};
use syntax_trees::{BehForm, BehText, Named, OfferText, TestText};
use tree_building::Value;
use tree_building::behaviours_values::{ActionEnd, CallEnd, Flat};
use tree_building::names::{Built, turned};
use tree_building::value::{held, of_another_kind, take};

/// `i; B`.
fn inner_action(alloc: Global, place: Place, next: BehText) -> Result<BehText, AllocError>
    ensures { IfOk result (λ it. written_behaviour_of it
        ≡ plain.inner_action (text_place_of place) (written_behaviour_of next)) }
{
    let form = BehForm::Inner(Box::new(alloc, next)?);
    Ok(BehText { place, form })
}

/// The flat list with `i` before its first operand.
#[tactic(auto, using(tree_building::proofs::FromLast::from_last_more, tree_building::proofs::FromLast::from_last_none))]
fn inner_before(alloc: Global, place: Place, flat: Flat) -> Result<Value, AllocError>
    ensures { IfOk result (λ value. meaning value
        ≡ prefixed (plain.inner_action (text_place_of place)) (flat_of flat)) }
{
    let Flat {
        mut operands,
        signs,
    } = flat;
    let Some(first) = operands.pop() else {
        return Ok(Value::Operands(Flat { operands, signs }));
    };
    operands.push(inner_action(alloc, place, first)?)?;
    Ok(Value::Operands(Flat { operands, signs }))
}

/// `i` before a flat list.
pub fn inner(alloc: Global, token: Option<Token>, parts: &mut Vec<Value>) -> Built
    ensures { IfOk result (λ built. option_map meaning built
        ≡ inner_prefixed token (from_last meaning parts.old.items)) }
{
    let Some(word) = token else {
        return Ok(None);
    };
    let Some(flat) = take::<Flat>(parts) else {
        return Ok(None);
    };
    Ok(Some(inner_before(alloc, word.place, flat)?))
}

/// `[test] -> B`.
fn guard(alloc: Global, place: Place, test: TestText, next: BehText) -> Result<BehText, AllocError>
    ensures { IfOk result (λ it. written_behaviour_of it
        ≡ plain.guard (text_place_of place) (premiss_of test) (written_behaviour_of next)) }
{
    let form = BehForm::Guard(test, Box::new(alloc, next)?);
    Ok(BehText { place, form })
}

/// The flat list with a guard before its first operand.
#[tactic(auto, using(tree_building::proofs::FromLast::from_last_more, tree_building::proofs::FromLast::from_last_none))]
fn guard_before(
    alloc: Global,
    place: Place,
    test: TestText,
    flat: Flat,
) -> Result<Value, AllocError>
    ensures { IfOk result (λ value. meaning value
        ≡ prefixed (plain.guard (text_place_of place) (premiss_of test)) (flat_of flat)) }
{
    let Flat {
        mut operands,
        signs,
    } = flat;
    let Some(first) = operands.pop() else {
        return Ok(Value::Operands(Flat { operands, signs }));
    };
    operands.push(guard(alloc, place, test, first)?)?;
    Ok(Value::Operands(Flat { operands, signs }))
}

/// A guard before a flat list.
pub fn guarded_list(alloc: Global, token: Option<Token>, parts: &mut Vec<Value>) -> Built
    ensures { IfOk result (λ built. option_map meaning built
        ≡ guarded token (from_last meaning parts.old.items)) }
{
    let Some(left) = token else {
        return Ok(None);
    };
    let Some(test) = take::<TestText>(parts) else {
        return Ok(None);
    };
    let Some(flat) = take::<Flat>(parts) else {
        return Ok(None);
    };
    Ok(Some(guard_before(alloc, left.place, test, flat)?))
}

/// An action at a gate, whose offers are held from the last to the first.
#[tactic(auto, using(tree_building::proofs::FromLast::map_reverse))]
fn action(
    alloc: Global,
    gate: Named,
    offers: Vec<OfferText>,
    test: Option<TestText>,
    next: BehText,
) -> Result<BehText, AllocError>
    ensures { IfOk result (λ it. written_behaviour_of it
        ≡ plain.action (placed_name_of gate).place (placed_name_of gate).name
        (from_last written_offer_of offers.items) (option_map premiss_of test)
        (written_behaviour_of next)) }
{
    let form = BehForm::Action {
        gate: gate.1,
        offers: turned(offers),
        test,
        next: Box::new(alloc, next)?,
    };
    Ok(BehText {
        place: gate.0,
        form,
    })
}

/// The flat list with an action at the gate before its first operand.
#[tactic(auto, using(tree_building::proofs::FromLast::from_last_more, tree_building::proofs::FromLast::from_last_none))]
fn action_before(alloc: Global, gate: Named, end: ActionEnd) -> Result<Value, AllocError>
    ensures { IfOk result (λ value. meaning value ≡ prefixed
        (plain.action (placed_name_of gate).place (placed_name_of gate).name
        (from_last written_offer_of end.offers.items) (option_map premiss_of end.test))
        (flat_of end.behind)) }
{
    let ActionEnd {
        offers,
        test,
        behind,
    } = end;
    let Flat {
        mut operands,
        signs,
    } = behind;
    let Some(first) = operands.pop() else {
        return Ok(Value::Operands(Flat { operands, signs }));
    };
    operands.push(action(alloc, gate, offers, test, first)?)?;
    Ok(Value::Operands(Flat { operands, signs }))
}

/// A call, whose gates and values are held from the last to the first.
#[tactic(auto, using(tree_building::proofs::FromLast::map_reverse))]
fn call(name: Named, gates: Vec<Named>, values: Vec<Written>) -> BehText
    ensures { written_behaviour_of result
        ≡ plain.call (placed_name_of name).place (placed_name_of name).name
        (from_last placed_name_of gates.items) (from_last written_term_of values.items) }
{
    let form = BehForm::Call {
        name: name.1,
        gates: turned(gates),
        values: turned(values),
    };
    BehText {
        place: name.0,
        form,
    }
}

/// A call of the process before the tail of a flat list.
fn call_before(name: Named, end: CallEnd) -> Result<Value, AllocError>
    ensures { IfOk result (λ value. meaning value ≡ before_tail
        (plain.call (placed_name_of name).place (placed_name_of name).name
        (from_last placed_name_of end.gates.items)
        (from_last written_term_of end.values.items)) (flat_of end.behind)) }
{
    let CallEnd {
        gates,
        values,
        behind,
    } = end;
    operand_before(call(name, gates, values), behind)
}

/// A name before what makes it the gate of an action, or the process of a call.
fn name_before(alloc: Global, name: Named, end: Value) -> Built
    ensures { IfOk result (λ built. (rest : List Meaning) → option_map meaning built
        ≡ or_else (action_of_gate (placed_name_of name) (meaning end ∷ rest))
        (call_of_process (placed_name_of name) (meaning end ∷ rest))) }
{
    match end {
        Value::Action(end) => Ok(Some(action_before(alloc, name, Box::into_inner(end))?)),
        Value::Call(end) => Ok(Some(call_before(name, end)?)),
        other => Ok(of_another_kind(other)),
    }
}

/// An action or a call.
#[tactic(auto, using(tree_building::proofs::FromLast::from_last_more, tree_building::proofs::FromLast::from_last_none))]
pub fn named(alloc: Global, parts: &mut Vec<Value>) -> Built
    ensures { IfOk result (λ built. option_map meaning built
        ≡ name_first (from_last meaning parts.old.items)) }
{
    let Some(name) = take::<Named>(parts) else {
        return Ok(None);
    };
    let Some(end) = parts.pop() else {
        return Ok(None);
    };
    name_before(alloc, name, end)
}

/// The end of an action without offers and without a selection predicate.
#[tactic(auto, using(tree_building::proofs::FromLast::from_last_none))]
pub fn without_offers(alloc: Global, parts: &mut Vec<Value>) -> Built
    ensures { IfOk result (λ built. option_map meaning built
        ≡ action_without_offers (from_last meaning parts.old.items)) }
{
    let Some(behind) = take::<Flat>(parts) else {
        return Ok(None);
    };
    let end = ActionEnd {
        offers: Vec::new(alloc),
        test: None,
        behind,
    };
    Ok(Some(Value::Action(held(alloc, end)?)))
}

/// Offers before the end of an action.
#[tactic(auto, using(tree_building::proofs::FromLast::from_last_append))]
pub fn with_offers(alloc: Global, parts: &mut Vec<Value>) -> Built
    ensures { IfOk result (λ built. option_map meaning built
        ≡ offers_before_action (from_last meaning parts.old.items)) }
{
    let Some(mut first) = take::<Vec<OfferText>>(parts) else {
        return Ok(None);
    };
    let Some(end) = take::<ActionEnd>(parts) else {
        return Ok(None);
    };
    let ActionEnd {
        mut offers,
        test,
        behind,
    } = end;
    offers.append(&mut first)?;
    let end = ActionEnd {
        offers,
        test,
        behind,
    };
    Ok(Some(Value::Action(held(alloc, end)?)))
}

/// The end of an action with a selection predicate.
#[tactic(auto, using(tree_building::proofs::FromLast::from_last_none))]
pub fn with_selection(alloc: Global, parts: &mut Vec<Value>) -> Built
    ensures { IfOk result (λ built. option_map meaning built
        ≡ action_with_selection (from_last meaning parts.old.items)) }
{
    let Some(test) = take::<TestText>(parts) else {
        return Ok(None);
    };
    let Some(behind) = take::<Flat>(parts) else {
        return Ok(None);
    };
    let end = ActionEnd {
        offers: Vec::new(alloc),
        test: Some(test),
        behind,
    };
    Ok(Some(Value::Action(held(alloc, end)?)))
}

/// A call without its name.
pub fn nameless_call(parts: &mut Vec<Value>) -> Option<Value>
    ensures { option_map meaning result ≡ call_without_name (from_last meaning parts.old.items) }
{
    let gates = take::<Vec<Named>>(parts)?;
    let values = take::<Vec<Written>>(parts)?;
    let behind = take::<Flat>(parts)?;
    Some(Value::Call(CallEnd {
        gates,
        values,
        behind,
    }))
}
