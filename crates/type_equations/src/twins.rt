//! Which operations have twins.

ghost use Rattle.lotos_base.specs.Signature.{Operation};
ghost use Rattle.lotos_base.specs.Twins.{are_twins};
ghost use Rattle.sort_terms.specs.Operations.{operation_of};
ghost use Rattle.sort_terms.specs.TwinMarks.{twin_marks as marks_of};
ghost use Rattle.std.specs.List.{list_any};
ghost use Rattle.std.specs.Prelude.{
  ◌≡◌,
  ◌||◌,
  ◌∷◌,
  ◌++◌,
  [],
  ℕ,
  IfOk,
  List,
  OnOk,
  Some,
  map,
  nat_eq,
  not,
};
ghost use Rattle.type_equations.specs.OtherResults.{has_other};
ghost use Rattle.type_equations.specs.ResultsView.{TellTwins};

use indexmap::IndexMap;
use lotos_base::NoMemory;
use sort_terms::Op;
use std::alloc::Global;
use type_presentations::twin_key;

/// The results of operations, by name, form and argument sorts.
#[derive(Drop)]
pub struct ResultsByKey {
    // The result that all operations with this key have. None: they have several.
    by_key: IndexMap<Vec<usize>, Option<u32>>,
}

impl ResultsByKey {
    // Those of no operations.
    fn new(alloc: Global) -> ResultsByKey
        ensures { TellTwins [] result }
    {
        ResultsByKey {
            by_key: IndexMap::new(alloc),
        }
    }

    // Adds the result of an operation.
    fn add(&mut self, alloc: Global, op: &Op) -> Result<(), NoMemory>
        ensures { OnOk result ((operations : List Operation) → TellTwins operations self.old
            → TellTwins (operations ++ operation_of op.now ∷ []) self.new) }
    {
        let key = twin_key(alloc, op)?;
        let known = self.by_key.get(&key).copied();
        self.by_key.insert(key, common_result(known, op.result))?;
        Ok(())
    }

    // Whether one of the operations is a twin of this one.
    fn has_twin(&self, alloc: Global, op: &Op) -> Result<bool, NoMemory>
        ensures { IfOk result (λ found. (operations : List Operation)
            → TellTwins operations self.now
            → found ≡ list_any (are_twins (operation_of op.now)) operations) }
    {
        let key = twin_key(alloc, op)?;
        Ok(is_other_known(self.by_key.get(&key).copied(), op.result))
    }
}

// The result that all have, one more among them. None: they have several.
fn common_result(known: Option<Option<u32>>, more: u32) -> Option<u32>
    ensures { (one : ℕ) → has_other (Some result) one
        ≡ (has_other known one || not (nat_eq one more)) }
{
    match known {
        None => Some(more),
        Some(None) => None,
        Some(Some(common)) => { if common == more { Some(common) } else { None } }
    }
}

// Whether a result other than this one is known.
fn is_other_known(known: Option<Option<u32>>, one: u32) -> bool
    ensures { result ≡ has_other known one }
{
    match known {
        None => false,
        Some(None) => true,
        Some(Some(common)) => one != common,
    }
}

/// For each operation whether it has a twin among them.
pub fn twin_marks(alloc: Global, ops: &[Op]) -> Result<Vec<bool>, NoMemory>
    ensures { IfOk result (λ marks. marks.items ≡ marks_of (map operation_of ops.now)) }
{
    let results = results_by_key(alloc, ops)?;
    let mut marks = Vec::with_capacity(alloc, ops.len())?;
    for op in ops {
        marks.push(results.has_twin(alloc, op)?)?;
    }
    Ok(marks)
}

// The results of these operations.
fn results_by_key(alloc: Global, ops: &[Op]) -> Result<ResultsByKey, NoMemory>
    ensures { IfOk result (λ results. TellTwins (map operation_of ops.now) results) }
{
    let mut results = ResultsByKey::new(alloc);
    for op in ops {
        results.add(alloc, op)?;
    }
    Ok(results)
}
