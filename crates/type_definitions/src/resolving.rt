//! The mentions of types as numbers.

ghost use Rattle.lotos_base.specs.WrittenView.{placed_name_of};
ghost use Rattle.std.specs.Option.{option_map};
ghost use Rattle.std.specs.Prelude.{◌≡◌, ◌∷◌, ◌++◌, [], None, MatchResult, slice_get};
ghost use Rattle.syntax_trees.specs.TreeViews.{placed_names_of};
ghost use Rattle.type_definitions.specs.DeclaredTypes.{mention_graph, mentions_in, type_numbers};
ghost use Rattle.type_definitions.specs.GraphView.{graph_of};
ghost use Rattle.type_definitions.specs.MentionFaults.{
  AreAllKnown,
  unknown_among,
  unknown_mention,
};
ghost use Rattle.type_definitions.specs.NameFaultView.{IsNameUnknown};
ghost use Rattle.type_definitions.specs.TypeNamesView.{types_in};
ghost use Rattle.type_definitions.specs.TypeView.{type_body_of};

use crate::graph::MentionGraph;
use crate::name_faults::TypeNameFault;
use crate::type_names::TypeNames;
use std::alloc::Global;
use syntax_trees::{ItemBody, Named};

/// Which type mentions which, or the first mention of no type.
pub fn graph_of_names(alloc: Global, names: &TypeNames<'_>) -> Result<MentionGraph, TypeNameFault>
    ensures { MatchResult result (λ graph. AreAllKnown (types_in names.now)
        × (graph_of graph ≡ mention_graph (types_in names.now)))
        (λ fault. IsNameUnknown (unknown_mention (types_in names.now) (types_in names.now)) fault) }
{
    let mut rows = Vec::new(alloc);
    for text in names.types() {
        rows.push(row_of(alloc, names, text.body)?)?;
    }
    Ok(MentionGraph::of(rows))
}

// The numbers of the types that one type mentions.
fn row_of(
    alloc: Global,
    names: &TypeNames<'_>,
    body: &ItemBody,
) -> Result<Vec<usize>, TypeNameFault>
    ensures { MatchResult result (λ row. (unknown_among (types_in names.now)
        (mentions_in (type_body_of body.now)) ≡ None)
        × (row.items ≡ type_numbers (types_in names.now) (mentions_in (type_body_of body.now))))
        (λ fault. IsNameUnknown (unknown_among (types_in names.now)
        (mentions_in (type_body_of body.now))) fault) }
{
    match body {
        ItemBody::Library(_) => Ok(Vec::new(alloc)),
        ItemBody::Extends { imports, .. } => {
            numbers_behind(alloc, names, Vec::new(alloc), imports.as_slice())
        }
        ItemBody::Renames { base, .. } => number_behind(alloc, names, Vec::new(alloc), base),
        ItemBody::Actualises { base, actuals, .. } => {
            let row = number_behind(alloc, names, Vec::new(alloc), base)?;
            numbers_behind(alloc, names, row, actuals.as_slice())
        }
    }
}

// The row with the numbers of these types behind it.
fn numbers_behind(
    alloc: Global,
    names: &TypeNames<'_>,
    mut row: Vec<usize>,
    mentioned: &[Named],
) -> Result<Vec<usize>, TypeNameFault>
    ensures { MatchResult result (λ more. (unknown_among (types_in names.now)
        (placed_names_of mentioned.now) ≡ None) × (more.items ≡ row.items
        ++ type_numbers (types_in names.now) (placed_names_of mentioned.now)))
        (λ fault. IsNameUnknown (unknown_among (types_in names.now)
        (placed_names_of mentioned.now)) fault) }
{
    for mention in mentioned {
        row = number_behind(alloc, names, row, mention)?;
    }
    Ok(row)
}

// The row with the number of this type behind it.
fn number_behind(
    alloc: Global,
    names: &TypeNames<'_>,
    mut row: Vec<usize>,
    mention: &Named,
) -> Result<Vec<usize>, TypeNameFault>
    ensures { MatchResult result (λ more. (unknown_among (types_in names.now)
        (placed_name_of mention.now ∷ []) ≡ None) × (more.items ≡ row.items
        ++ type_numbers (types_in names.now) (placed_name_of mention.now ∷ [])))
        (λ fault. IsNameUnknown (unknown_among (types_in names.now)
        (placed_name_of mention.now ∷ [])) fault) }
{
    let (place, name) = mention;
    let Some(number) = names.number(alloc, name)? else {
        return Err(TypeNameFault::UnknownType {
            place: *place,
            name: name.copy(alloc)?,
        });
    };
    row.push(number)?;
    Ok(row)
}

/// The mention at this position of a type, if there is one.
pub fn mention_of(body: &ItemBody, position: usize) -> Option<&Named>
    ensures { option_map (λ m. placed_name_of m.now) result
        ≡ slice_get (mentions_in (type_body_of body.now)) position }
{
    match body {
        ItemBody::Library(_) => None,
        ItemBody::Extends { imports, .. } => imports.get(position),
        ItemBody::Renames { base, .. } => {
            if position == 0 {
                return Some(base);
            }
            None
        }
        ItemBody::Actualises { base, actuals, .. } => {
            if position == 0 {
                return Some(base);
            }
            actuals.get(position - 1)
        }
    }
}
