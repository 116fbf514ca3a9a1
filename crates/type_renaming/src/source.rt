//! What renames the members of a base.

ghost use Rattle.lotos_base.specs.Name.{spelling};
ghost use Rattle.type_presentations.specs.NamesView.{HasNames};
ghost use Rattle.sort_terms.specs.ReadingOutcome.{one_name};
ghost use Rattle.std.specs.List.{list_any};
ghost use Rattle.std.specs.Option.{option_map};
ghost use Rattle.std.specs.Prelude.{◌≡◌, ℕ, IfOk, List};
ghost use Rattle.syntax_trees.specs.TreeViews.{pair_of};
ghost use Rattle.type_definitions.specs.Actualisation.{pair_unless};
ghost use Rattle.type_definitions.specs.Renaming.{pair_for};
ghost use Rattle.type_presentations.specs.PairIndexView.{pairs_in};

use lotos_base::{Name, NoMemory};
use std::alloc::Global;
use syntax_trees::{Named, PairText};
use type_presentations::{NamePositions, PairIndex};

/// What renames the sorts of a base that are not formal, or its operations.
#[derive(Drop)]
pub struct Source<'a> {
    /// The mention of the base.
    pub mention: &'a Named,
    /// The name of the type that actualises it.
    pub type_name: &'a Name,
    /// The names of what is formal in the base: of sorts, or of operations.
    pub formals: &'a NamePositions,
    /// The pairs: of sorts, or of operations.
    pub pairs: &'a PairIndex<'a>,
}

impl<'a> Source<'a> {
    /// The pair that renames what has this name, if there is one. One for the name of something
    /// formal renames nothing.
    pub fn renamer(&self, alloc: Global, name: &Name) -> Result<Option<&PairText>, NoMemory>
        ensures { IfOk result (λ found. (names : List (List ℕ))
            → HasNames self.now.formals.now names → option_map (λ p. pair_of p.now) found
            ≡ pair_unless (list_any (λ n. one_name n (spelling name.now)) names)
            (pair_for (pairs_in self.now.pairs.now) (spelling name.now))) }
    {
        let formal = self.formals.first(alloc, name)?;
        match formal {
            Some(_) => Ok(None),
            None => self.pairs.pair_for(alloc, name),
        }
    }
}
