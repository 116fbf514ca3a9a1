//! The variables that are left in a draft, and their new numbers.

ghost use Rattle.behaviour_tree.specs.BehaviourView.{terms_of};
ghost use Rattle.draft_solving.specs.Variables.{
  found_sorts,
  leaf_sorts,
  sort_noted,
  places_by_sorts,
};
ghost use Rattle.sort_terms.specs.TermView.{term_of};
ghost use Rattle.std.specs.Prelude.{◌≡◌, [], IfOk};

use lotos_base::NoMemory;
use sort_terms::{Sorted, Term};

/// For each number below that of the leaves, the sort of the first leaf that is the variable with
/// this number, if there is one.
pub fn sorts_by_number(leaves: &Vec<Sorted>) -> Result<Vec<Option<u32>>, NoMemory>
    ensures { IfOk result (λ sorts. sorts.items
        ≡ leaf_sorts 0 (terms_of leaves.now.items) (terms_of leaves.now.items)) }
{
    let mut sorts = no_sorts(leaves)?;
    let mut i = leaves.len();
    while i > 0 {
        i -= 1;
        note(&mut sorts, leaves[i].term());
    }
    Ok(sorts)
}

// No sort for each number below that of the leaves.
fn no_sorts(leaves: &Vec<Sorted>) -> Result<Vec<Option<u32>>, NoMemory>
    ensures { IfOk result (λ sorts. sorts.items ≡ leaf_sorts 0 (terms_of leaves.now.items) []) }
{
    let mut sorts = Vec::with_capacity(*leaves.allocator(), leaves.len())?;
    for _leaf in leaves {
        sorts.push(None)?;
    }
    Ok(sorts)
}

// Notes the sort of a leaf that is a variable.
fn note(sorts: &mut Vec<Option<u32>>, leaf: &Term)
    ensures { sorts.new.items ≡ sort_noted (term_of leaf.now) sorts.old.items }
{
    if let Term::Var { number, sort } = leaf {
        let number = *number as usize;
        if number < sorts.len() {
            sorts[number] = Some(*sort);
        }
    }
}

/// What each number becomes: the place of its variable among those that are left, where it has a
/// sort, and itself where it has none.
pub fn places(sorts: &Vec<Option<u32>>) -> Result<Vec<u64>, NoMemory>
    ensures { IfOk result (λ made. made.items ≡ places_by_sorts 0 0 sorts.now.items) }
{
    let mut made = Vec::with_capacity(*sorts.allocator(), sorts.len())?;
    let mut first = 0;
    for i in 0..sorts.len() {
        if sorts[i].is_some() {
            made.push(first)?;
            first += 1;
        } else {
            made.push(i as u64)?;
        }
    }
    Ok(made)
}

/// The sorts of the variables that are left, in order.
pub fn sorts_left(sorts: &Vec<Option<u32>>) -> Result<Vec<u32>, NoMemory>
    ensures { IfOk result (λ made. made.items ≡ found_sorts sorts.now.items) }
{
    let mut made = Vec::with_capacity(*sorts.allocator(), sorts.len())?;
    for i in 0..sorts.len() {
        if let Some(sort) = sorts[i] {
            made.push(sort)?;
        }
    }
    Ok(made)
}
