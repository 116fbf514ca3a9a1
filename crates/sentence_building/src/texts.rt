//! The trees of the four texts, taken out of the values that their derivations are built into.
//! Lists come in text order.

ghost use Rattle.std.specs.Prelude.{◌≡◌, map, option_map, reverse};
ghost use Rattle.lotos_base.specs.WrittenView.{listed_operation_of, written_term_of};
ghost use Rattle.syntax_trees.specs.TreeViews.{item_of, written_specification_of};
ghost use Rattle.ll_engine.specs.Run.{from_last};
ghost use Rattle.tree_building.specs.MeaningView.{meaning};
ghost use Rattle.tree_building.specs.Parts.{meant_items, meant_order_items, meant_specification, meant_terms};

use lotos_base::{OrderItem, Written};
use syntax_trees::{ItemText, SpecText};
use tree_building::names::turned;
use tree_building::{Part, Value};

/// The specification that the value is, if it is one.
pub fn built_specification(value: Value) -> Option<SpecText>
    ensures { option_map written_specification_of result ≡ meant_specification (meaning value) }
{
    SpecText::of(value)
}

/// The items that the value is, if it is some.
#[tactic(auto, using(tree_building::proofs::FromLast::map_reverse))]
pub fn built_items(value: Value) -> Option<Vec<ItemText>>
    ensures { option_map (λ items. map item_of items.items) result ≡ meant_items (meaning value) }
{
    let items = Vec::<ItemText>::of(value)?;
    Some(turned(items))
}

/// The items of an order file that the value is, if it is some.
#[tactic(auto, using(tree_building::proofs::FromLast::map_reverse))]
pub fn built_order(value: Value) -> Option<Vec<OrderItem>>
    ensures { option_map (λ items. map listed_operation_of items.items) result
        ≡ meant_order_items (meaning value) }
{
    let items = Vec::<OrderItem>::of(value)?;
    Some(turned(items))
}

/// The terms that the value is, if it is some.
#[tactic(auto, using(tree_building::proofs::FromLast::map_reverse))]
pub fn built_terms(value: Value) -> Option<Vec<Written>>
    ensures { option_map (λ terms. map written_term_of terms.items) result
        ≡ meant_terms (meaning value) }
{
    let terms = Vec::<Written>::of(value)?;
    Some(turned(terms))
}
