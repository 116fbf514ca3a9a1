//! The pairs of sorts of a renaming.

ghost use Rattle.type_presentations.specs.NamesView.{HasNames};
ghost use Rattle.std.specs.Prelude.{◌≡◌, [], None, MatchResult, map};
ghost use Rattle.syntax_trees.specs.TreeViews.{pair_of};
ghost use Rattle.lotos_base.specs.Signature.{Signature};
ghost use Rattle.type_definitions.specs.FaultView.{IsFaultFound};
ghost use Rattle.type_definitions.specs.Renaming.{sort_pairs_fault};
ghost use Rattle.type_presentations.specs.PairIndexView.{pairs_in};
ghost use Rattle.type_presentations.specs.PairNames.{names_of_sorts};

use crate::NamePositions;
use crate::checking::look_at_sort_pair;
use crate::pair_index::PairIndex;
use std::alloc::Global;
use syntax_trees::PairText;
use type_definitions::TypeFault;

/// Looks at pairs of sorts in text order, no two of which may share a new name. It is refused at
/// the first pair with a fault: `UnknownSort` at an old name that is that of no sort; `DoubleSort`
/// at a pair whose old name, or whose new name, an earlier one has. The names of the sorts are
/// given.
pub fn look_at_sort_pairs<'a>(
    alloc: Global,
    sorts: &NamePositions,
    pairs: &'a [PairText],
) -> Result<PairIndex<'a>, TypeFault>
    ensures { (signature : Signature) → HasNames sorts.now (names_of_sorts signature)
        → MatchResult result
        (λ index. (sort_pairs_fault signature [] (map pair_of pairs.now) ≡ None)
        × (pairs_in index ≡ map pair_of pairs.now))
        (λ fault. IsFaultFound (sort_pairs_fault signature [] (map pair_of pairs.now)) fault) }
{
    let mut olds = NamePositions::new(alloc);
    let mut news = NamePositions::new(alloc);
    for number in 0..pairs.len() {
        let pair = &pairs[number];
        look_at_sort_pair(alloc, sorts, &olds, &news, pair)?;
        olds.add(alloc, &pair.replaced.1, number)?;
        news.add(alloc, &pair.given, number)?;
    }
    Ok(PairIndex::of(pairs, olds))
}
