//! The types of a text in the order in which they are flattened.

ghost use Rattle.std.specs.Prelude.{◌≡◌, map, MatchResult};
ghost use Rattle.syntax_trees.specs.TreeViews.{item_of};
ghost use Rattle.type_definitions.specs.DeclaredTypes.{mention_graph, types_of};
ghost use Rattle.type_definitions.specs.NameFaultView.{IsCycleAt, IsNameFault};
ghost use Rattle.type_definitions.specs.TypeGraph.{IsFirstMentionOnCycle};
ghost use Rattle.type_definitions.specs.TypeNamesView.{types_in};
ghost use Rattle.type_definitions.specs.TypeOrderView.{IsOrderOf};

use crate::graph::MentionGraph;
use crate::name_faults::TypeNameFault;
use crate::order::{Ordered, flattening_order};
use crate::resolving::{graph_of_names, mention_of};
use crate::type_names::TypeNames;
use crate::type_texts::type_texts;
use std::alloc::Global;
use syntax_trees::ItemText;

/// Types with the numbers of those that each one mentions, and their order.
#[derive(Drop)]
pub struct TypeOrder<'a> {
    /// The types, found by their names.
    pub names: TypeNames<'a>,
    /// Which one mentions which.
    pub mentions: MentionGraph,
    /// Their numbers, each after those of the types that it mentions.
    pub order: Vec<usize>,
}

/// The types among the items in the order of flattening: text order, but each after those that it
/// mentions. It is refused at the second declaration of a name; then at the first mention of no
/// type; then at the first mention on a cycle of mentions.
pub fn order_types<'a>(alloc: Global, items: &'a [ItemText]) -> Result<TypeOrder<'a>, TypeNameFault>
    ensures { MatchResult result (λ order. IsOrderOf (types_of (map item_of items.now)) order)
        (λ fault. IsNameFault (types_of (map item_of items.now)) fault) }
{
    let types = type_texts(alloc, items)?;
    let names = TypeNames::of(alloc, types)?;
    let mentions = graph_of_names(alloc, &names)?;
    match flattening_order(alloc, &mentions)? {
        Ordered::InOrder(order) => Ok(TypeOrder {
            names,
            mentions,
            order,
        }),
        Ordered::Cyclic { by, position } => Err(cycle_fault(alloc, &names, by, position)),
    }
}

// The fault at this mention of this type.
fn cycle_fault(alloc: Global, names: &TypeNames<'_>, by: usize, position: usize) -> TypeNameFault
    requires { IsFirstMentionOnCycle (mention_graph (types_in names.now)) by position }
    ensures { IsCycleAt (types_in names.now) result }
{
    let Some(mention) = mention_of(names.types()[by].body, position) else {
        unreachable!()
    };
    match mention.1.copy(alloc) {
        Ok(name) => TypeNameFault::TypeCycle {
            place: mention.0,
            name,
        },
        Err(_) => TypeNameFault::NoMemory,
    }
}
