//! What renames.

ghost use Rattle.lotos_base.specs.Name.{spelling};
ghost use Rattle.sort_terms.specs.Operations.{operation_of, sort_of};
ghost use Rattle.std.specs.Option.{option_map};
ghost use Rattle.std.specs.Prelude.{◌≡◌, IfOk};
ghost use Rattle.syntax_trees.specs.TreeViews.{pair_of};
ghost use Rattle.type_definitions.specs.Renaming.{pair_for, renamed_operation, renamed_sort};
ghost use Rattle.type_presentations.specs.PairIndexView.{pairs_in};
ghost use Rattle.type_renaming.specs.Clashes.{giving};

use lotos_base::{Name, NoMemory};
use sort_terms::{Op, Sort};
use std::alloc::Global;
use syntax_trees::PairText;
use type_presentations::PairIndex;

/// The name of a type that renames another one, and its pairs: those of sorts, or those of
/// operations.
#[derive(Drop)]
pub struct Renamer<'a> {
    /// The name of the type.
    pub type_name: &'a Name,
    /// The pairs.
    pub pairs: PairIndex<'a>,
}

impl<'a> Renamer<'a> {
    ghost use Rattle.type_renaming.specs.RenamerView.{
      operation_pairs_in,
      sort_pairs_in,
      type_name_in,
    };

    /// The sort under its pair, if there is one.
    pub fn sort(&self, alloc: Global, sort: &Sort) -> Result<Sort, NoMemory>
        ensures { IfOk result (λ s. sort_of s
            ≡ renamed_sort (type_name_in self.now) (sort_pairs_in self.now) (sort_of sort.now)) }
    {
        let found = self.pairs.pair_for(alloc, &sort.name)?;
        match found {
            Some(pair) => Ok(Sort {
                name: pair.given.copy(alloc)?,
                origin: self.type_name.copy(alloc)?,
            }),
            None => sort.copy(alloc),
        }
    }

    /// The operation under its pair, if there is one.
    pub fn op(&self, alloc: Global, op: &Op) -> Result<Op, NoMemory>
        ensures { IfOk result (λ o. operation_of o ≡ renamed_operation (type_name_in self.now)
            (operation_pairs_in self.now) (operation_of op.now)) }
    {
        let found = self.pairs.pair_for(alloc, &op.name)?;
        match found {
            Some(pair) => Ok(Op {
                name: pair.given.copy(alloc)?,
                form: op.form,
                arguments: Vec::from_slice(alloc, op.arguments.as_slice())?,
                result: op.result,
                origin: self.type_name.copy(alloc)?,
            }),
            None => op.copy(),
        }
    }

    /// The pair with this old name, if it gives the other name.
    pub fn giver(
        &self,
        alloc: Global,
        old: &Name,
        name: &Name,
    ) -> Result<Option<&PairText>, NoMemory>
        ensures { IfOk result (λ found. option_map (λ p. pair_of p.now) found
            ≡ giving (pair_for (pairs_in self.now.pairs) (spelling old.now))
            (spelling name.now)) }
    {
        let found = self.pairs.pair_for(alloc, old)?;
        let Some(pair) = found else {
            return Ok(None);
        };
        let is_given = pair.given.same(name);
        if is_given {
            return Ok(Some(pair));
        }
        Ok(None)
    }
}
