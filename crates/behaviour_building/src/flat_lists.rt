//! Flat lists of behaviours and the signs between them.

ghost use Rattle.std.specs.Prelude.{◌≡◌, ◌∷◌, IfOk, Some, map, option_map, reverse};
ghost use Rattle.syntax_trees.specs.Grouping as grouping;
ghost use Rattle.syntax_trees.specs.Strength.{joined_by_sign, strength_of};
ghost use Rattle.syntax_trees.specs.TreeViews.{written_behaviour_of};
ghost use Rattle.ll_engine.specs.Run.{from_last};
ghost use Rattle.tree_building.specs.BehavioursMeaning.{operand_alone, before_tail, bracketed_behaviour, chosen, no_tail, sign_before_behaviour};
ghost use Rattle.tree_building.specs.BehavioursViews.{flat_of};
ghost use Rattle.tree_building.specs.MeaningView.{meaning};

use lotos_base::Place;
use std::alloc::{AllocError, Global};
use syntax_trees::grouping::group_operands;
use syntax_trees::{BehText, Sign};
use tree_building::Value;
use tree_building::behaviours_values::Flat;
use tree_building::names::{Built, turned};
use tree_building::value::{held, take};

/// The tree of a flat list, or none where it has not one operand more than signs.
#[tactic(auto, using(tree_building::proofs::FromLast::map_reverse))]
pub fn grouped(alloc: Global, flat: Flat) -> Result<Option<BehText>, AllocError>
    ensures { IfOk result (λ tree. option_map written_behaviour_of tree
        ≡ grouping.grouped strength_of joined_by_sign (flat_of flat).operands
        (flat_of flat).signs) }
{
    if flat.operands.len() != flat.signs.len() + 1 {
        return Ok(None);
    }
    let operands = turned(flat.operands);
    Ok(Some(group_operands(alloc, operands, turned(flat.signs))?))
}

/// The behaviour as the only operand of a flat list.
#[tactic(auto, using(tree_building::proofs::FromLast::from_last_more, tree_building::proofs::FromLast::from_last_none))]
pub fn only_operand(alloc: Global, behaviour: BehText) -> Result<Value, AllocError>
    ensures { IfOk result (λ value. meaning value
        ≡ operand_alone (written_behaviour_of behaviour)) }
{
    let mut operands = Vec::new(alloc);
    operands.push(behaviour)?;
    Ok(Value::Operands(Flat {
        operands,
        signs: Vec::new(alloc),
    }))
}

/// The behaviour before the tail of a flat list.
#[tactic(auto, using(tree_building::proofs::FromLast::from_last_more))]
pub fn operand_before(behaviour: BehText, tail: Flat) -> Result<Value, AllocError>
    ensures { IfOk result (λ value. meaning value
        ≡ before_tail (written_behaviour_of behaviour) (flat_of tail)) }
{
    let Flat {
        mut operands,
        signs,
    } = tail;
    operands.push(behaviour)?;
    Ok(Value::Operands(Flat { operands, signs }))
}

/// A behaviour in brackets before a tail.
pub fn bracketed(alloc: Global, parts: &mut Vec<Value>) -> Built
    ensures { IfOk result (λ built. option_map meaning built
        ≡ bracketed_behaviour (from_last meaning parts.old.items)) }
{
    let Some(flat) = take::<Flat>(parts) else {
        return Ok(None);
    };
    let Some(tail) = take::<Flat>(parts) else {
        return Ok(None);
    };
    let Some(inside) = grouped(alloc, flat)? else {
        return Ok(None);
    };
    Ok(Some(operand_before(inside, tail)?))
}

/// No operands and no signs.
#[tactic(auto, using(tree_building::proofs::FromLast::from_last_none))]
pub fn empty_tail(alloc: Global) -> Value
    ensures { Some (meaning result) ≡ no_tail }
{
    Value::Operands(Flat {
        operands: Vec::new(alloc),
        signs: Vec::new(alloc),
    })
}

/// A sign before a flat list.
#[tactic(auto, using(tree_building::proofs::FromLast::from_last_more))]
pub fn sign_before(parts: &mut Vec<Value>) -> Built
    ensures { IfOk result (λ built. option_map meaning built
        ≡ sign_before_behaviour (from_last meaning parts.old.items)) }
{
    let Some(sign) = take::<(Place, Sign)>(parts) else {
        return Ok(None);
    };
    let Some(flat) = take::<Flat>(parts) else {
        return Ok(None);
    };
    let Flat {
        operands,
        mut signs,
    } = flat;
    signs.push(sign)?;
    Ok(Some(Value::Operands(Flat { operands, signs })))
}

/// The behaviour of a `choice`, which is grouped.
pub fn chosen_behaviour(alloc: Global, parts: &mut Vec<Value>) -> Built
    ensures { IfOk result (λ built. option_map meaning built
        ≡ chosen (from_last meaning parts.old.items)) }
{
    let Some(flat) = take::<Flat>(parts) else {
        return Ok(None);
    };
    let Some(inside) = grouped(alloc, flat)? else {
        return Ok(None);
    };
    Ok(Some(Value::Behaviour(held(alloc, inside)?)))
}
