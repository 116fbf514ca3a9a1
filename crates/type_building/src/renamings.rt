//! What the rows of renamings build.

ghost use Rattle.std.specs.Prelude.{◌≡◌, IfOk, None, Some, option_map};
ghost use Rattle.lotos_base.specs.WrittenView.{placed_name_of};
ghost use Rattle.lotos_rows.specs.Renamings.{pair_of_names};
ghost use Rattle.syntax_trees.specs.TreeViews.{pair_of};
ghost use Rattle.ll_engine.specs.Run.{from_last};
ghost use Rattle.tree_building.specs.MeaningView.{meaning};
ghost use Rattle.tree_building.specs.RenamingsMeaning.{operation_pair_before_pairs, pairs_of_both, same_pairs, sort_pair_before_pairs};
ghost use Rattle.tree_building.specs.RowMeaning.{renamings_row_means};

use lotos_rows::renamings::RenamingsRow;
use std::alloc::Global;
use syntax_trees::{Named, PairText};
use tree_building::names::Built;
use tree_building::names_values::NamedOp;
use tree_building::renamings_values::BothPairs;
use tree_building::value::{Value, take};

/// The pair of two names.
fn pair(given: Named, replaced: Named) -> PairText
    ensures { pair_of result ≡ pair_of_names (placed_name_of given) (placed_name_of replaced) }
{
    PairText {
        place: given.0,
        given: given.1,
        replaced,
    }
}

fn pairs_of_both_kinds(parts: &mut Vec<Value>) -> Option<Value>
    ensures { option_map meaning result ≡ pairs_of_both (from_last meaning parts.old.items) }
{
    let sorts = take::<Vec<PairText>>(parts)?;
    let operations = take::<Vec<PairText>>(parts)?;
    Some(Value::BothPairs(BothPairs { sorts, operations }))
}

fn the_pairs(parts: &mut Vec<Value>) -> Option<Value>
    ensures { option_map meaning result ≡ same_pairs (from_last meaning parts.old.items) }
{
    let pairs = take::<Vec<PairText>>(parts)?;
    Some(Value::Pairs(pairs))
}

#[tactic(auto, using(tree_building::proofs::FromLast::from_last_more))]
fn joined_sort_pairs(parts: &mut Vec<Value>) -> Built
    ensures { IfOk result (λ built. option_map meaning built
        ≡ sort_pair_before_pairs (from_last meaning parts.old.items)) }
{
    let Some(given) = take::<Named>(parts) else {
        return Ok(None);
    };
    let Some(replaced) = take::<Named>(parts) else {
        return Ok(None);
    };
    let Some(mut pairs) = take::<Vec<PairText>>(parts) else {
        return Ok(None);
    };
    pairs.push(pair(given, replaced))?;
    Ok(Some(Value::Pairs(pairs)))
}

#[tactic(auto, using(tree_building::proofs::FromLast::from_last_more))]
fn joined_operation_pairs(parts: &mut Vec<Value>) -> Built
    ensures { IfOk result (λ built. option_map meaning built
        ≡ operation_pair_before_pairs (from_last meaning parts.old.items)) }
{
    let Some(given) = take::<NamedOp>(parts) else {
        return Ok(None);
    };
    let Some(replaced) = take::<NamedOp>(parts) else {
        return Ok(None);
    };
    let Some(mut pairs) = take::<Vec<PairText>>(parts) else {
        return Ok(None);
    };
    pairs.push(pair(given.name, replaced.name))?;
    Ok(Some(Value::Pairs(pairs)))
}

/// What a row of renamings builds from its parts.
#[tactic(auto, using(tree_building::proofs::FromLast::from_last_none))]
pub fn build(alloc: Global, row: RenamingsRow, parts: &mut Vec<Value>) -> Built
    ensures { IfOk result (λ built. option_map meaning built
        ≡ renamings_row_means row None (from_last meaning parts.old.items)) }
{
    match row {
        RenamingsRow::Renames => Ok(pairs_of_both_kinds(parts)),
        RenamingsRow::NoSortRenames
        | RenamingsRow::NoMoreSortPairs
        | RenamingsRow::NoOperationRenames
        | RenamingsRow::NoMoreOperationPairs => Ok(Some(Value::Pairs(Vec::new(alloc)))),
        RenamingsRow::SortRenames
        | RenamingsRow::MoreSortPairsAfterComma
        | RenamingsRow::MoreSortPairs
        | RenamingsRow::OperationRenames
        | RenamingsRow::MoreOperationPairsAfterComma
        | RenamingsRow::MoreOperationPairs => Ok(the_pairs(parts)),
        RenamingsRow::SortPairs => joined_sort_pairs(parts),
        RenamingsRow::OperationPairs => joined_operation_pairs(parts),
    }
}
