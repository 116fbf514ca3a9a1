//! Pairs that are found by their old names.

ghost use Rattle.lotos_base.specs.Name.{spelling};
ghost use Rattle.type_presentations.specs.NamesView.{HasNames};
ghost use Rattle.std.proofs.Props.{props};
ghost use Rattle.std.specs.Option.{option_map};
ghost use Rattle.std.specs.Prelude.{◌≡◌, IfOk, map};
ghost use Rattle.syntax_trees.specs.TreeViews.{pair_of};
ghost use Rattle.type_definitions.specs.Renaming.{pair_for};
ghost use Rattle.type_presentations.specs.PairNames.{old_names};

use crate::NamePositions;
use lotos_base::{Name, NoMemory};
use std::alloc::Global;
use syntax_trees::PairText;

/// Pairs, each of which is found by its old name.
#[derive(Drop)]
pub struct PairIndex<'a> {
    pairs: &'a [PairText],
    olds: NamePositions,
    pub ghost found_by_old_names: { HasNames olds
        (old_names (map pair_of pairs.now)) } by { Prim.hlevel props },
}

impl<'a> PairIndex<'a> {
    ghost use Rattle.type_presentations.specs.PairIndexView.{pairs_in};

    /// The pairs, whose old names are given.
    pub fn of(pairs: &'a [PairText], olds: NamePositions) -> PairIndex<'a>
        requires { HasNames olds (old_names (map pair_of pairs.now)) }
        ensures { pairs_in result ≡ map pair_of pairs.now }
    {
        PairIndex { pairs, olds }
    }

    /// The first pair with this old name, if there is one.
    pub fn pair_for(&self, alloc: Global, name: &Name) -> Result<Option<&PairText>, NoMemory>
        ensures { IfOk result (λ found. option_map (λ p. pair_of p.now) found
            ≡ pair_for (pairs_in self.now) (spelling name.now)) }
    {
        let found = self.olds.first(alloc, name)?;
        match found {
            Some(number) => Ok(self.pairs.get(number)),
            None => Ok(None),
        }
    }
}
