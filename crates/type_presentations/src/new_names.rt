//! The new names of pairs.

ghost use Rattle.type_presentations.specs.FormalNames.{names_of_formal_sorts};
ghost use Rattle.type_presentations.specs.NamesView.{HasNames};
ghost use Rattle.std.specs.Prelude.{
  ◌≡◌,
  ◌∷◌,
  ◌++◌,
  ◌+◌,
  ◌<◌,
  ◌≤◌,
  ◌^◌,
  [],
  List,
  OnOk,
  length,
};
ghost use Rattle.syntax_trees.specs.TreeViews.{pair_of};
ghost use Rattle.syntax_trees.specs.WrittenItem.{WrittenPair};
ghost use Rattle.type_definitions.specs.Presentation.{Presentation};

use crate::NamePositions;
use lotos_base::NoMemory;
use std::alloc::Global;
use syntax_trees::PairText;

/// The new names of pairs of sorts, and apart those of pairs whose old name is that of no formal
/// sort.
#[derive(Drop)]
pub struct NewNames {
    /// The new names.
    pub all: NamePositions,
    /// The new names of pairs whose old name is that of no formal sort.
    pub others: NamePositions,
    /// How many these are.
    pub other_count: usize,
}

impl NewNames {
    ghost use Rattle.type_presentations.specs.NewNamesView.{HasNewNames};

    /// No names.
    pub fn new(alloc: Global) -> NewNames
        ensures names { (base : Presentation) → HasNewNames result base [] }
        ensures none { result.other_count ≡ 0 }
    {
        NewNames {
            all: NamePositions::new(alloc),
            others: NamePositions::new(alloc),
            other_count: 0,
        }
    }

    /// Adds the new name of a pair behind the others, of which there are `count`. The names of the
    /// formal sorts are given.
    pub fn add(
        &mut self,
        alloc: Global,
        formals: &NamePositions,
        pair: &PairText,
        count: usize,
    ) -> Result<(), NoMemory>
        requires room { self.old.other_count + 1 < 2 ^ 64 }
        ensures names { OnOk result ((base : Presentation) (earlier : List WrittenPair)
            → HasNames formals.now (names_of_formal_sorts base)
            → HasNewNames self.old base earlier → length earlier ≡ count
            → HasNewNames self.new base (earlier ++ pair_of pair.now ∷ [])) }
        ensures few { OnOk result (self.new.other_count ≤ self.old.other_count + 1) }
    {
        let (_, old) = &pair.replaced;
        let formal = formals.first(alloc, old)?;
        self.all.add(alloc, &pair.given, count)?;
        match formal {
            Some(_) => Ok(()),
            None => {
                self.others.add(alloc, &pair.given, self.other_count)?;
                self.other_count += 1;
                Ok(())
            }
        }
    }
}
