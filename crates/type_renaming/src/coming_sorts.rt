//! Sorts that come in.

ghost use Rattle.type_renaming.specs.Brought.{SortsCame};
ghost use Rattle.type_renaming.specs.CameView.{HasSettled, IsFresh, sorts_with};
ghost use Rattle.type_renaming.specs.SourceView.{
  AreSortsComing,
  IsSourceOfSorts,
  coming_sort,
};
ghost use Rattle.type_renaming.specs.Condensed.{sort_kind};
ghost use Rattle.type_renaming.specs.MakersView.{makers_in};
ghost use Rattle.lotos_base.specs.Name.{spelling};
ghost use Rattle.type_presentations.specs.SortListView.{HasSortKeys, sorts_in};
ghost use Rattle.sort_terms.specs.Operations.{sort_of};
ghost use Rattle.sort_terms.specs.WellFormedTest.{all_differ, are_one_sort};
ghost use Rattle.std.specs.Option.{option_map};
ghost use Rattle.std.specs.Prelude.{
  ◌≡◌,
  ◌+◌,
  ◌^◌,
  ◌<◌,
  ◌≤◌,
  true,
  IfOk,
  None,
  OnOk,
  length,
  map,
};
ghost use Rattle.syntax_trees.specs.TreeViews.{pair_of};
ghost use Rattle.type_definitions.specs.Actualisation.{Actualising};
ghost use Rattle.type_definitions.specs.Renaming.{sort_under};

use crate::actuals::actual_at;
use crate::came::Came;
use crate::source::Source;
use lotos_base::{Name, NoMemory};
use sort_terms::Sort;
use std::alloc::Global;
use syntax_trees::PairText;
use type_presentations::{Presentation, SortList};

/// Brings the sorts of the base into those of the actual types, where the actual one of each formal
/// sort is given: the images of the others stand behind the actual ones, each once. The first clash
/// and the first that is too many are kept.
pub fn bring_sorts(
    alloc: Global,
    list: &mut SortList,
    base: &Presentation,
    source: &Source<'_>,
    actuals: &[Option<u32>],
) -> Result<Came, NoMemory>
    requires keyed { HasSortKeys list.old }
    requires differ { all_differ are_one_sort (sorts_in list.old) ≡ true }
    requires few { length (sorts_in list.old) + length (sorts_in base.now.sorts) ≤ 2 ^ 32 }
    requires actuals { length actuals.now ≡ length (sorts_in base.now.sorts) }
    ensures keyed { OnOk result (HasSortKeys list.new) }
    ensures came { IfOk result (λ came. (a : Actualising)
        → AreSortsComing a source.now (sorts_in list.old) (sorts_in base.now.sorts) actuals.now
        → SortsCame a (sorts_with list.new came)) }
{
    let there = list.sorts().len();
    let coming = base.sorts.sorts();
    let mut came = Came::new(alloc, there)?;
    bring_each(alloc, list, &mut came, source, coming, actuals)?;
    Ok(came)
}

// Brings the sorts that come, one by one.
fn bring_each(
    alloc: Global,
    list: &mut SortList,
    came: &mut Came,
    source: &Source<'_>,
    coming: &[Sort],
    actuals: &[Option<u32>],
) -> Result<(), NoMemory>
    requires keyed { HasSortKeys list.old }
    requires differ { all_differ are_one_sort (sorts_in list.old) ≡ true }
    requires few { length (sorts_in list.old) + length coming.now ≤ 2 ^ 32 }
    requires actuals { length actuals.now ≡ length coming.now }
    requires fresh { IsFresh came.old (length (sorts_in list.old)) }
    ensures keyed { OnOk result (HasSortKeys list.new) }
    ensures came { OnOk result ((a : Actualising)
        → AreSortsComing a source.now (sorts_in list.old) (map sort_of coming.now) actuals.now
        → SortsCame a (sorts_with list.new came.new)) }
{
    for number in 0..coming.len() {
        let sort = &coming[number];
        let actual = actual_at(actuals, number);
        bring_one(alloc, list, came, source, sort, actual)?;
    }
    Ok(())
}

// Brings a sort, whose actual one is given if it is formal.
fn bring_one(
    alloc: Global,
    list: &mut SortList,
    came: &mut Came,
    source: &Source<'_>,
    sort: &Sort,
    actual: Option<u32>,
) -> Result<(), NoMemory>
    requires keyed { HasSortKeys list.old }
    requires few { length (sorts_in list.old) < 2 ^ 32 }
    requires makers { length (makers_in came.old.makers) ≡ length (sorts_in list.old) }
    ensures keyed { OnOk result (HasSortKeys list.new) }
    ensures few { OnOk result (length (sorts_in list.new) ≤ length (sorts_in list.old) + 1) }
    ensures makers { OnOk result (length (makers_in came.new.makers)
        ≡ length (sorts_in list.new)) }
    ensures came { OnOk result ((a : Actualising) → IsSourceOfSorts a source.now
        → HasSettled sort_kind a.base.at (coming_sort a (sort_of sort.now))
        (sorts_with list.old came.old) (sorts_with list.new came.new) actual) }
{
    let Some(number) = actual else {
        return bring_image(alloc, list, came, source, sort);
    };
    came.numbers.push(number)?;
    Ok(())
}

// Brings a sort that is not formal.
fn bring_image(
    alloc: Global,
    list: &mut SortList,
    came: &mut Came,
    source: &Source<'_>,
    sort: &Sort,
) -> Result<(), NoMemory>
    requires keyed { HasSortKeys list.old }
    requires few { length (sorts_in list.old) < 2 ^ 32 }
    requires makers { length (makers_in came.old.makers) ≡ length (sorts_in list.old) }
    ensures keyed { OnOk result (HasSortKeys list.new) }
    ensures few { OnOk result (length (sorts_in list.new) ≤ length (sorts_in list.old) + 1) }
    ensures makers { OnOk result (length (makers_in came.new.makers)
        ≡ length (sorts_in list.new)) }
    ensures came { OnOk result ((a : Actualising) → IsSourceOfSorts a source.now
        → HasSettled sort_kind a.base.at (coming_sort a (sort_of sort.now))
        (sorts_with list.old came.old) (sorts_with list.new came.new) None) }
{
    let pair = source.renamer(alloc, &sort.name)?;
    let image = image_of_sort(alloc, source.type_name, pair, sort)?;
    let added = list.add(alloc, image)?;
    let is_too_many = list.is_past_limit();
    came.note(
        alloc,
        added.number,
        added.clashes,
        is_too_many,
        pair,
        source.mention,
    )?;
    Ok(())
}

// The sort under its pair, if there is one.
fn image_of_sort(
    alloc: Global,
    type_name: &Name,
    pair: Option<&PairText>,
    sort: &Sort,
) -> Result<Sort, NoMemory>
    ensures { IfOk result (λ s. sort_of s ≡ sort_under (spelling type_name.now)
        (option_map (λ p. pair_of p.now) pair.entry) (sort_of sort.now)) }
{
    match pair {
        Some(pair) => Ok(Sort {
            name: pair.given.copy(alloc)?,
            origin: type_name.copy(alloc)?,
        }),
        None => sort.copy(alloc),
    }
}
