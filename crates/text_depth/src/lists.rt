//! Parts that are taken together.

ghost use Rattle.std.specs.Prelude.{◌≡◌, IfOk, Some, option_map};
ghost use Rattle.ll_engine.specs.Run.{from_last};
ghost use Rattle.lotos_base.specs.WrittenView.{text_place_of};
ghost use Rattle.syntax_trees.specs.Firsts.{everywhere};
ghost use Rattle.text_depth.specs.RowDepth.{both_depth_parts, closed_part, closed_parts, closing_parts, joined_parts, parts_together};
ghost use Rattle.text_depth.specs.PartView.{kept_of};

use crate::part::{KeptPart, grouped_firsts};
use lotos_base::Place;
use std::alloc::{AllocError, Global};
use syntax_trees::FirstNodes;

/// What a row keeps: a part, or none where its parts are not those of the row.
pub type Kept = Result<Option<KeptPart>, AllocError>;

/// The first node that is too deep in a part whose trees count from their own roots.
pub fn closed_part(alloc: Global, part: KeptPart, limit: usize) -> Result<Option<Place>, AllocError>
    ensures { IfOk result (λ place. everywhere (option_map text_place_of place)
        ≡ closed_part limit (kept_of part)) }
{
    let KeptPart {
        names: _,
        firsts,
        operands,
        strengths,
    } = part;
    let whole = firsts.followed(grouped_firsts(alloc, operands, strengths)?)?;
    Ok(whole.first_from(limit))
}

/// The first node that is too deep in the parts.
#[tactic(auto, using(tree_building::proofs::FromLast::from_last_more, tree_building::proofs::FromLast::from_last_none))]
fn closed_parts(
    alloc: Global,
    mut parts: Vec<KeptPart>,
    limit: usize,
) -> Result<Option<Place>, AllocError>
    ensures { IfOk result (λ place. everywhere (option_map text_place_of place)
        ≡ closed_parts limit (from_last kept_of parts.items)) }
{
    while let Some(part) = parts.pop() {
        let found = closed_part(alloc, part, limit)?;
        if found.is_some() {
            return Ok(found);
        }
    }
    Ok(None)
}

/// Parts each of which counts from its own root.
pub fn closing(alloc: Global, parts: Vec<KeptPart>, limit: usize) -> Kept
    ensures { IfOk result (λ kept. option_map kept_of kept
        ≡ closing_parts limit (from_last kept_of parts.items)) }
{
    let found = closed_parts(alloc, parts, limit)?;
    Ok(Some(KeptPart::of_firsts(alloc, FirstNodes::everywhere(alloc, found))))
}

/// Lists one behind the other.
#[tactic(auto, using(tree_building::proofs::FromLast::from_last_append))]
pub fn both(some: KeptPart, others: KeptPart) -> Result<KeptPart, AllocError>
    ensures { IfOk result (λ kept. kept_of kept
        ≡ both_depth_parts (kept_of some) (kept_of others)) }
{
    let KeptPart {
        mut names,
        firsts,
        mut operands,
        mut strengths,
    } = others;
    let mut some = some;
    names.append(&mut some.names)?;
    operands.append(&mut some.operands)?;
    strengths.append(&mut some.strengths)?;
    Ok(KeptPart {
        names,
        firsts: some.firsts.followed(firsts)?,
        operands,
        strengths,
    })
}

/// Lists one behind the other.
#[tactic(auto, using(tree_building::proofs::FromLast::from_last_more, tree_building::proofs::FromLast::from_last_none))]
fn joined_parts(alloc: Global, mut parts: Vec<KeptPart>) -> Result<KeptPart, AllocError>
    ensures { IfOk result (λ kept. kept_of kept ≡ joined_parts (from_last kept_of parts.items)) }
{
    parts.reverse();
    let Some(mut joined) = parts.pop() else {
        return Ok(KeptPart::of_names(alloc, Vec::new(alloc)));
    };
    while let Some(part) = parts.pop() {
        joined = both(part, joined)?;
    }
    Ok(joined)
}

/// Lists one behind the other.
pub fn together(alloc: Global, parts: Vec<KeptPart>) -> Kept
    ensures { IfOk result (λ kept. option_map kept_of kept
        ≡ parts_together (from_last kept_of parts.items)) }
{
    Ok(Some(joined_parts(alloc, parts)?))
}
