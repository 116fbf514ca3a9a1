//! Sorts under the pairs of a renaming.

ghost use Rattle.type_presentations.specs.Growth.{with_one_sort};
ghost use Rattle.sort_terms.specs.Operations.{sort_of};
ghost use Rattle.sort_terms.specs.WellFormedTest.{all_differ, are_one_sort};
ghost use Rattle.std.specs.List.{list_any};
ghost use Rattle.std.specs.Option.{option_map};
ghost use Rattle.std.specs.Prelude.{
  ◌≡◌,
  ◌≤◌,
  false,
  true,
  IfOk,
  MatchResult,
  None,
  Some,
  length,
  map,
};
ghost use Rattle.syntax_trees.specs.TreeViews.{pair_of};
ghost use Rattle.type_presentations.specs.Making.{IsMade};
ghost use Rattle.type_definitions.specs.FaultView.{IsFaultFound};
ghost use Rattle.type_definitions.specs.Presentation.{presentation_limit};
ghost use Rattle.type_definitions.specs.Renaming.{
  pair_for,
  renamed_sort,
  renamed_sort_clash,
  renamed_presentation,
};
ghost use Rattle.type_presentations.specs.PairIndexView.{pairs_in};
ghost use Rattle.type_presentations.specs.PresentationView.{
  IsSound,
  IsWithinLimits,
  presentation_of,
};
ghost use Rattle.type_renaming.specs.Clashes.{sort_clash as clash_of_sort, sort_fault_at};
ghost use Rattle.type_renaming.specs.Parts.{sorts_alone};
ghost use Rattle.type_renaming.specs.RenamerView.{sort_pairs_in, type_name_in};

use crate::renamer::Renamer;
use lotos_base::NoMemory;
use sort_terms::Sort;
use std::alloc::Global;
use syntax_trees::PairText;
use type_definitions::TypeFault;
use type_presentations::{Presentation, grow_by_sort};

/// The presentation of the images of the sorts, no two of which have one name. It is refused at the
/// first sort whose image has the name of that of an earlier one.
pub fn rename_sorts(
    alloc: Global,
    base: &[Sort],
    renamer: &Renamer<'_>,
) -> Result<Presentation, TypeFault>
    requires few { length base.now ≤ presentation_limit }
    requires apart { all_differ are_one_sort (map sort_of base.now) ≡ true }
    ensures { MatchResult result
        (λ p. IsMade (renamed_sort_clash (sorts_alone (map sort_of base.now))
        (type_name_in renamer.now) (sort_pairs_in renamer.now))
        (renamed_presentation (sorts_alone (map sort_of base.now)) (type_name_in renamer.now)
        (sort_pairs_in renamer.now)) p)
        (λ fault. IsFaultFound (renamed_sort_clash (sorts_alone (map sort_of base.now))
        (type_name_in renamer.now) (sort_pairs_in renamer.now)) fault) }
{
    let mut renamed = Presentation::new(alloc);
    for number in 0..base.len() {
        add_image(alloc, &mut renamed, &base[..number], &base[number], renamer)?;
    }
    Ok(renamed)
}

// Puts the image of a sort behind those of the earlier ones.
fn add_image(
    alloc: Global,
    renamed: &mut Presentation,
    earlier: &[Sort],
    sort: &Sort,
    renamer: &Renamer<'_>,
) -> Result<(), TypeFault>
    requires sound { IsSound renamed.old }
    requires within { IsWithinLimits renamed.old }
    requires images { (presentation_of renamed.old).signature.sorts
        ≡ map (renamed_sort (type_name_in renamer.now) (sort_pairs_in renamer.now))
        (map sort_of earlier.now) }
    requires apart { list_any (are_one_sort (sort_of sort.now)) (map sort_of earlier.now)
        ≡ false }
    ensures { MatchResult result
        (λ _. (clash_of_sort (type_name_in renamer.now) (sort_pairs_in renamer.now)
        (map sort_of earlier.now) (sort_of sort.now) ≡ None)
        × (presentation_of renamed.new ≡ with_one_sort (presentation_of renamed.old)
        (renamed_sort (type_name_in renamer.now) (sort_pairs_in renamer.now)
        (sort_of sort.now))) × IsSound renamed.new)
        (λ fault. IsFaultFound (clash_of_sort (type_name_in renamer.now)
        (sort_pairs_in renamer.now) (map sort_of earlier.now) (sort_of sort.now)) fault) }
{
    let image = renamer.sort(alloc, sort)?;
    let is_second = grow_by_sort(alloc, renamed, &image)?;
    if is_second {
        let fault = sort_clash(alloc, earlier, sort, renamer)?;
        return Err(fault);
    }
    Ok(())
}

// The fault of the sort, whose image has the name of that of an earlier one.
fn sort_clash(
    alloc: Global,
    earlier: &[Sort],
    sort: &Sort,
    renamer: &Renamer<'_>,
) -> Result<TypeFault, NoMemory>
    requires clash { list_any (are_one_sort (renamed_sort (type_name_in renamer.now)
        (sort_pairs_in renamer.now) (sort_of sort.now)))
        (map (renamed_sort (type_name_in renamer.now) (sort_pairs_in renamer.now))
        (map sort_of earlier.now)) ≡ true }
    requires apart { list_any (are_one_sort (sort_of sort.now)) (map sort_of earlier.now)
        ≡ false }
    ensures { IfOk result (λ fault. IsFaultFound (clash_of_sort (type_name_in renamer.now)
        (sort_pairs_in renamer.now) (map sort_of earlier.now) (sort_of sort.now)) fault) }
{
    let own = renamer.pairs.pair_for(alloc, &sort.name)?;
    if let Some(pair) = own {
        return double_sort_at(alloc, pair);
    }
    let found = pair_of_earlier(alloc, earlier, sort, renamer)?;
    let Some(pair) = found else { unreachable!() };
    double_sort_at(alloc, pair)
}

// The pair of the first earlier sort that was given the name of the sort, which has no pair.
fn pair_of_earlier<'b>(
    alloc: Global,
    earlier: &[Sort],
    sort: &Sort,
    renamer: &'b Renamer<'_>,
) -> Result<Option<&'b PairText>, NoMemory>
    requires own { pair_for (pairs_in renamer.now.pairs) (sort_of sort.now).name ≡ None }
    requires apart { list_any (are_one_sort (sort_of sort.now)) (map sort_of earlier.now)
        ≡ false }
    ensures { IfOk result (λ found. clash_of_sort (type_name_in renamer.now)
        (sort_pairs_in renamer.now) (map sort_of earlier.now) (sort_of sort.now)
        ≡ option_map (λ p. sort_fault_at (pair_of p.now)) found) }
{
    for other in earlier {
        let found = renamer.giver(alloc, &other.name, &sort.name)?;
        if let Some(pair) = found {
            return Ok(Some(pair));
        }
    }
    Ok(None)
}

// The fault at the pair.
fn double_sort_at(alloc: Global, pair: &PairText) -> Result<TypeFault, NoMemory>
    ensures { IfOk result (λ fault. IsFaultFound (Some (sort_fault_at (pair_of pair.now)))
        fault) }
{
    Ok(TypeFault::DoubleSort {
        place: pair.place,
        name: pair.given.copy(alloc)?,
    })
}
