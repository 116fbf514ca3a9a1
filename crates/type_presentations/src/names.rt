//! Names with their positions.

ghost use Rattle.lotos_base.specs.Name.{folded, spelling};
ghost use Rattle.sort_terms.specs.NameIndex.{numbers_under};
ghost use Rattle.sort_terms.specs.Operations.{operation_of, sort_of};
ghost use Rattle.std.specs.Prelude.{
  ◌≡◌,
  ◌∷◌,
  ◌++◌,
  [],
  ℕ,
  List,
  IfOk,
  OnOk,
  length,
  map,
  slice_get,
};

use lotos_base::{Name, NoMemory};
use sort_terms::name_index::NameIndex;
use sort_terms::{Op, Sort};
use std::alloc::Global;
use std::rc::Rc;

/// A list of names, of which it tells the first position of each. Letter case is not
/// distinguished.
#[derive(Drop)]
pub struct NamePositions {
    index: NameIndex,
}

impl NamePositions {
    ghost use Rattle.type_presentations.specs.NamesView.{HasNames};
    ghost use Rattle.type_presentations.specs.PositionOfName.{position_of_name};

    /// No names.
    pub fn new(alloc: Global) -> NamePositions
        ensures { HasNames result [] }
    {
        NamePositions {
            index: NameIndex::new(alloc),
        }
    }

    /// Adds a name behind the others, of which there are `count`.
    pub fn add(&mut self, alloc: Global, name: &Name, count: usize) -> Result<(), NoMemory>
        ensures { OnOk result ((names : List (List ℕ)) → HasNames self.old names
            → length names ≡ count → HasNames self.new (names ++ spelling name.now ∷ [])) }
    {
        self.index.add(alloc, name, count)?;
        Ok(())
    }

    /// The first position at which the name stands, if there is one.
    pub fn first(&self, alloc: Global, name: &Name) -> Result<Option<usize>, NoMemory>
        ensures { IfOk result (λ found. (names : List (List ℕ)) → HasNames self.now names
            → found ≡ position_of_name names (spelling name.now)) }
    {
        first_number(alloc, &self.index, name)
    }

    /// The names of these sorts.
    pub fn of_sorts(alloc: Global, sorts: &[Sort]) -> Result<NamePositions, NoMemory>
        ensures { IfOk result (λ names. HasNames names
            (map (λ s. s.name) (map sort_of sorts.now))) }
    {
        let mut names = NamePositions::new(alloc);
        for number in 0..sorts.len() {
            names.add(alloc, &sorts[number].name, number)?;
        }
        Ok(names)
    }

    /// The names of these operations.
    pub fn of_ops(alloc: Global, ops: &[Rc<Op>]) -> Result<NamePositions, NoMemory>
        ensures { IfOk result (λ names. HasNames names
            (map (λ o. o.name) (map (λ op. operation_of op.value) ops.now))) }
    {
        let mut names = NamePositions::new(alloc);
        for number in 0..ops.len() {
            names.add(alloc, &ops[number].name, number)?;
        }
        Ok(names)
    }
}

// The first number under the name.
fn first_number(alloc: Global, index: &NameIndex, name: &Name) -> Result<Option<usize>, NoMemory>
    ensures { IfOk result (λ found. found
        ≡ slice_get (numbers_under index.now (folded (spelling name.now))) 0) }
{
    let numbers = index.numbers(alloc, name)?;
    Ok(numbers.first().copied())
}
