//! The pairs of sorts of an actualisation, in text order.

ghost use Rattle.type_presentations.specs.FormalNames.{names_of_formal_sorts};
ghost use Rattle.type_presentations.specs.NewNamesView.{HasNewNames};
ghost use Rattle.type_presentations.specs.NamesView.{HasNames};
ghost use Rattle.std.specs.Prelude.{◌≡◌, [], List, None, MatchResult, map};
ghost use Rattle.syntax_trees.specs.TreeViews.{pair_of};
ghost use Rattle.syntax_trees.specs.WrittenItem.{WrittenPair};
ghost use Rattle.type_definitions.specs.FaultView.{IsFaultFound};
ghost use Rattle.type_definitions.specs.ActualisationFaults.{actual_pairs_fault, unshared};
ghost use Rattle.type_definitions.specs.Presentation.{Presentation};
ghost use Rattle.type_definitions.specs.Renaming.{sort_pair_fault};
ghost use Rattle.type_presentations.specs.PairIndexView.{pairs_in};
ghost use Rattle.type_presentations.specs.PairNames.{names_of_sorts, old_names};

use crate::checking::look_at_sort_pair;
use crate::new_names::NewNames;
use crate::{NamePositions, PairIndex};
use std::alloc::Global;
use syntax_trees::PairText;
use type_definitions::TypeFault;

/// Looks at pairs of sorts in text order, no two of which may share a new name unless both old
/// names are those of formal sorts. It is refused at the first pair with a fault: `UnknownSort` at
/// an old name that is that of no sort; `DoubleSort` at a pair whose old name an earlier one has,
/// or with whose new name it may not share. The names of the sorts and of the formal ones are
/// given.
pub fn look_at_actual_sort_pairs<'a>(
    alloc: Global,
    sorts: &NamePositions,
    formals: &NamePositions,
    pairs: &'a [PairText],
) -> Result<PairIndex<'a>, TypeFault>
    ensures { (base : Presentation) → HasNames sorts.now (names_of_sorts base.signature)
        → HasNames formals.now (names_of_formal_sorts base) → MatchResult result
        (λ index. (actual_pairs_fault base [] (map pair_of pairs.now) ≡ None)
        × (pairs_in index ≡ map pair_of pairs.now))
        (λ fault. IsFaultFound (actual_pairs_fault base [] (map pair_of pairs.now)) fault) }
{
    let mut olds = NamePositions::new(alloc);
    let mut news = NewNames::new(alloc);
    for number in 0..pairs.len() {
        let pair = &pairs[number];
        look_at_pair(alloc, sorts, formals, &olds, &news, pair)?;
        olds.add(alloc, &pair.replaced.1, number)?;
        news.add(alloc, formals, pair, number)?;
    }
    Ok(PairIndex::of(pairs, olds))
}

// Looks at a pair behind earlier ones.
fn look_at_pair(
    alloc: Global,
    sorts: &NamePositions,
    formals: &NamePositions,
    olds: &NamePositions,
    news: &NewNames,
    pair: &PairText,
) -> Result<(), TypeFault>
    ensures { (base : Presentation) (before : List WrittenPair)
        → HasNames sorts.now (names_of_sorts base.signature)
        → HasNames formals.now (names_of_formal_sorts base)
        → HasNames olds.now (old_names before) → HasNewNames news.now base before
        → MatchResult result
        (λ _. sort_pair_fault base.signature before (unshared base before (pair_of pair.now))
        (pair_of pair.now) ≡ None)
        (λ fault. IsFaultFound (sort_pair_fault base.signature before
        (unshared base before (pair_of pair.now)) (pair_of pair.now)) fault) }
{
    let (_, old) = &pair.replaced;
    let formal = formals.first(alloc, old)?;
    match formal {
        Some(_) => look_at_sort_pair(alloc, sorts, olds, &news.others, pair),
        None => look_at_sort_pair(alloc, sorts, olds, &news.all, pair),
    }
}
