//! What came in.

ghost use Rattle.type_renaming.specs.CameView.{place_kept};
ghost use Rattle.type_renaming.specs.FaultPlaces.{kept_place, stands_at};
ghost use Rattle.type_renaming.specs.Condensed.{place_of_pair as maker_of};
ghost use Rattle.type_renaming.specs.MakersView.{makers_in, place_seen};
ghost use Rattle.type_renaming.specs.Noting.{maker_at, maker_noted, two_makers};
ghost use Rattle.lotos_base.specs.WrittenView.{placed_name_of};
ghost use Rattle.std.specs.Option.{option_map};
ghost use Rattle.std.specs.Prelude.{
  ◌≡◌,
  ◌≤◌,
  ◌∷◌,
  ◌++◌,
  ◌||◌,
  [],
  None,
  IfOk,
  OnOk,
  length,
};
ghost use Rattle.syntax_trees.specs.TreeViews.{pair_of};

use crate::Makers;
use lotos_base::{NoMemory, Place};
use std::alloc::Global;
use syntax_trees::{Named, PairText};

/// What became of the members of a base that came into the actual types.
#[derive(Drop)]
pub struct Came {
    /// Their new numbers, by the old ones.
    pub numbers: Vec<u32>,
    /// Where the first clash stands, with the name there: at the pair of the member that clashes
    /// with an earlier one, or without a pair at the mention of the base.
    pub clash: Option<Named>,
    /// Where the first that is too many stands, likewise.
    pub too_many: Option<Named>,
    makers: Makers,
}

impl Came {
    ghost use Rattle.type_renaming.specs.CameView.{IsFresh};

    /// Nothing yet, where so many members are there.
    pub fn new(alloc: Global, count: usize) -> Result<Came, NoMemory>
        ensures { IfOk result (λ came. IsFresh came count) }
    {
        let makers = Makers::new(alloc, count)?;
        Ok(Came {
            numbers: Vec::new(alloc),
            clash: None,
            too_many: None,
            makers,
        })
    }

    /// Notes a member that has got this number, with the pair that made it.
    pub fn note(
        &mut self,
        alloc: Global,
        number: u32,
        is_second: bool,
        is_too_many: bool,
        pair: Option<&PairText>,
        mention: &Named,
    ) -> Result<(), NoMemory>
        requires { number ≤ length (makers_in self.old.makers) }
        ensures numbers { OnOk result (self.new.numbers.items
            ≡ self.old.numbers.items ++ number ∷ []) }
        ensures makers { OnOk result (makers_in self.new.makers
            ≡ maker_noted (makers_in self.old.makers) number
            (maker_of (option_map (λ p. pair_of p.now) pair.entry))) }
        ensures clash { OnOk result (place_kept self.new.clash
            ≡ kept_place (place_kept self.old.clash)
            (is_second || two_makers (maker_of (option_map (λ p. pair_of p.now) pair.entry))
            (maker_at (makers_in self.old.makers) number))
            (stands_at (option_map (λ p. pair_of p.now) pair.entry) (placed_name_of mention.now))) }
        ensures too_many { OnOk result (place_kept self.new.too_many
            ≡ kept_place (place_kept self.old.too_many) is_too_many
            (stands_at (option_map (λ p. pair_of p.now) pair.entry) (placed_name_of mention.now))) }
    {
        let are_two = self.makers.note(number as usize, place_of_pair(pair))?;
        self.numbers.push(number)?;
        let clashes = is_second || are_two;
        keep_first(alloc, &mut self.clash, clashes, pair, mention)?;
        keep_first(alloc, &mut self.too_many, is_too_many, pair, mention)?;
        Ok(())
    }
}

// The place of the pair, if there is one.
fn place_of_pair(pair: Option<&PairText>) -> Option<Place>
    ensures { place_seen result ≡ maker_of (option_map (λ p. pair_of p.now) pair.entry) }
{
    match pair {
        Some(pair) => Some(pair.place),
        None => None,
    }
}

// Keeps where a fault stands, if there is one and none is kept.
fn keep_first(
    alloc: Global,
    kept: &mut Option<Named>,
    is_fault: bool,
    pair: Option<&PairText>,
    mention: &Named,
) -> Result<(), NoMemory>
    ensures { OnOk result (place_kept kept.new ≡ kept_place (place_kept kept.old) is_fault
        (stands_at (option_map (λ p. pair_of p.now) pair.entry) (placed_name_of mention.now))) }
{
    if kept.is_some() {
        return Ok(());
    }
    if is_fault {
        let place = place_of_fault(alloc, pair, mention)?;
        *kept = Some(place);
        return Ok(());
    }
    Ok(())
}

// Where a fault of a member stands that the pair made, or none.
fn place_of_fault(
    alloc: Global,
    pair: Option<&PairText>,
    mention: &Named,
) -> Result<Named, NoMemory>
    ensures { IfOk result (λ at. placed_name_of at
        ≡ stands_at (option_map (λ p. pair_of p.now) pair.entry) (placed_name_of mention.now)) }
{
    match pair {
        Some(pair) => Ok((pair.place, pair.given.copy(alloc)?)),
        None => Ok((mention.0, mention.1.copy(alloc)?)),
    }
}
