//! The four calls that read a text.

ghost use Rattle.lotos_base.specs.Limits.{text_limit};
ghost use Rattle.lotos_base.specs.WrittenView.{listed_operation_of, written_term_of};
ghost use Rattle.std.specs.Prelude.{◌≡◌, ◌+◌, ◌<◌, ◌≤◌, ◌^◌, IfErr, IfOk, MatchResult, length, map};
ghost use Rattle.syntax_trees.specs.ReadableTrees.{AreReadableItems, IsReadableSpecification};
ghost use Rattle.syntax_trees.specs.TreeViews.{item_of, written_specification_of};
ghost use Rattle.text_depth.specs.HandedOn.{
  IsOrderReadFault,
  IsOrderReading,
  IsSpecificationFault,
  IsSpecificationReading,
  IsTermsFault,
  IsTermsReading,
  IsTypesFault,
  IsTypesReading,
  TooLong,
};

use lotos_base::{OrderItem, TEXT_LIMIT, Written};
use sentence_building::{items_trees, order_items, specification_tree, terms_trees};
use std::alloc::Global;
use syntax_trees::{ItemText, SpecText};
use text_depth::{
    Derived, ReadFault, TextKind, derive, items_depth, specification_depth, terms_depth,
};

/// Refuses a text that is too long.
fn within_limit(text: &[u8]) -> Result<(), ReadFault>
    ensures short { IfOk result (λ _. length text.now ≤ text_limit) }
    ensures long { IfErr result (λ fault. (fault ≡ TooLong) × (text_limit < length text.now)) }
{
    if text.len() > TEXT_LIMIT {
        return Err(ReadFault::TooLong);
    }
    Ok(())
}

/// Reads a specification. `number` is the number of the text in the places of its tree.
///
/// Answers `TooLong` exactly where the text has more than 1,048,576 bytes; else its lexical fault;
/// else `Syntax` at the first token with which the tokens before it stop being the beginning of a
/// specification, or just past the last byte; else `TooDeep` at the first node in the text that is
/// deeper than 500. The grammar is that of ISO 8807:1989.
///
/// In the tree the sign of a `par` is a parallel one, each list of gates of a `choice` or a `par`
/// has a gate, and an equation has an arrow exactly where it has premisses.
pub fn read_spec(alloc: Global, text: &[u8], number: u32) -> Result<SpecText, ReadFault>
    ensures answer { MatchResult result
        (λ spec. IsSpecificationReading number text.now (written_specification_of spec))
        (IsSpecificationFault number text.now) }
    ensures readable { IfOk result
        (λ spec. IsReadableSpecification (written_specification_of spec)) }
{
    within_limit(text)?;
    let Derived { tokens, rows } = derive(alloc, text, number, TextKind::Specification)?;
    let deep = specification_depth(alloc, &tokens, &rows)?;
    if let Some(place) = deep {
        return Err(ReadFault::TooDeep { place });
    }
    let spec = specification_tree(alloc, text, &tokens, rows)?;
    Ok(spec)
}

/// Reads the items of a library, with the faults of [`read_spec`]. Its equations have arrows as
/// there.
pub fn read_types(alloc: Global, text: &[u8], number: u32) -> Result<Vec<ItemText>, ReadFault>
    ensures answer { MatchResult result
        (λ items. IsTypesReading number text.now (map item_of items.items))
        (IsTypesFault number text.now) }
    ensures readable { IfOk result (λ items. AreReadableItems (map item_of items.items)) }
{
    within_limit(text)?;
    let Derived { tokens, rows } = derive(alloc, text, number, TextKind::Types)?;
    let deep = items_depth(alloc, &tokens, &rows)?;
    if let Some(place) = deep {
        return Err(ReadFault::TooDeep { place });
    }
    let items = items_trees(alloc, text, &tokens, rows)?;
    Ok(items)
}

/// Reads an order file, with the faults of [`read_spec`] but `TooDeep`.
pub fn read_order(alloc: Global, text: &[u8], number: u32) -> Result<Vec<OrderItem>, ReadFault>
    ensures { MatchResult result
        (λ items. IsOrderReading number text.now (map listed_operation_of items.items))
        (IsOrderReadFault number text.now) }
{
    within_limit(text)?;
    let Derived { tokens, rows } = derive(alloc, text, number, TextKind::Order)?;
    let items = order_items(alloc, text, &tokens, rows)?;
    Ok(items)
}

/// Reads a list of terms, with the faults of [`read_spec`] but `TooLong`.
pub fn read_terms(alloc: Global, text: &[u8], number: u32) -> Result<Vec<Written>, ReadFault>
    requires { length text.now + 1 < 2 ^ 32 }
    ensures { MatchResult result
        (λ terms. IsTermsReading number text.now (map written_term_of terms.items))
        (IsTermsFault number text.now) }
{
    let Derived { tokens, rows } = derive(alloc, text, number, TextKind::Terms)?;
    let deep = terms_depth(alloc, &tokens, &rows)?;
    if let Some(place) = deep {
        return Err(ReadFault::TooDeep { place });
    }
    let terms = terms_trees(alloc, text, &tokens, rows)?;
    Ok(terms)
}
