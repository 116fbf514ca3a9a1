//! The pairs of operations of a renaming or an actualisation.

ghost use Rattle.type_presentations.specs.NamesView.{HasNames};
ghost use Rattle.std.specs.Prelude.{◌≡◌, [], None, MatchResult, map};
ghost use Rattle.syntax_trees.specs.TreeViews.{pair_of};
ghost use Rattle.lotos_base.specs.Signature.{Signature};
ghost use Rattle.type_definitions.specs.FaultView.{IsFaultFound};
ghost use Rattle.type_definitions.specs.Renaming.{operation_pairs_fault};
ghost use Rattle.type_presentations.specs.PairIndexView.{pairs_in};
ghost use Rattle.type_presentations.specs.PairNames.{names_of_operations};

use crate::NamePositions;
use crate::checking::look_at_op_pair;
use crate::pair_index::PairIndex;
use std::alloc::Global;
use syntax_trees::PairText;
use type_definitions::TypeFault;

/// Looks at pairs of operations in text order. It is refused at the first pair with a fault:
/// `UnknownOperation` at an old name that is that of no operation; `DoubleOperation` at a pair
/// whose old name an earlier one has. The names of the operations are given.
pub fn look_at_op_pairs<'a>(
    alloc: Global,
    ops: &NamePositions,
    pairs: &'a [PairText],
) -> Result<PairIndex<'a>, TypeFault>
    ensures { (signature : Signature) → HasNames ops.now (names_of_operations signature)
        → MatchResult result
        (λ index. (operation_pairs_fault signature [] (map pair_of pairs.now) ≡ None)
        × (pairs_in index ≡ map pair_of pairs.now))
        (λ fault. IsFaultFound (operation_pairs_fault signature [] (map pair_of pairs.now))
        fault) }
{
    let mut olds = NamePositions::new(alloc);
    for number in 0..pairs.len() {
        let pair = &pairs[number];
        look_at_op_pair(alloc, ops, &olds, pair)?;
        olds.add(alloc, &pair.replaced.1, number)?;
    }
    Ok(PairIndex::of(pairs, olds))
}
