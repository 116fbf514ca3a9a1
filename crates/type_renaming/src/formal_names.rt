//! The names of what is formal.

ghost use Rattle.lotos_base.specs.Name.{spelling};
ghost use Rattle.type_presentations.specs.NamesView.{HasNames};
ghost use Rattle.std.specs.Prelude.{
  ◌≡◌,
  ◌<◌,
  ◌^◌,
  ◌∷◌,
  ◌++◌,
  [],
  ℕ,
  List,
  IfOk,
  if◌then◌else◌,
  length,
  map,
};
ghost use Rattle.type_definitions.specs.Actualisation.{formal_operations_of, formal_sorts_of};
ghost use Rattle.type_presentations.specs.PresentationView.{
  IsSound,
  IsWithinLimits,
  presentation_of,
};

use lotos_base::{Name, NoMemory};
use std::alloc::Global;
use type_presentations::{NamePositions, Presentation};

/// The names of the formal sorts, in their order.
pub fn formal_sort_names(alloc: Global, base: &Presentation) -> Result<NamePositions, NoMemory>
    requires sound { IsSound base.now }
    requires within { IsWithinLimits base.now }
    ensures { IfOk result (λ names. HasNames names
        (map (λ s. s.name) (formal_sorts_of (presentation_of base.now)))) }
{
    let mut names = NamePositions::new(alloc);
    let sorts = base.sorts.sorts();
    let mut count = 0;
    for number in 0..sorts.len() {
        let is_formal = base.formal_sorts.has(number as u32);
        let sort = &sorts[number];
        let many = add_if(alloc, &mut names, &sort.name, is_formal, count)?;
        count = many;
    }
    Ok(names)
}

/// The names of the formal operations, in their order.
pub fn formal_op_names(alloc: Global, base: &Presentation) -> Result<NamePositions, NoMemory>
    requires sound { IsSound base.now }
    requires within { IsWithinLimits base.now }
    ensures { IfOk result (λ names. HasNames names
        (map (λ o. o.name) (formal_operations_of (presentation_of base.now)))) }
{
    let mut names = NamePositions::new(alloc);
    let ops = base.ops.ops();
    let mut count = 0;
    for number in 0..ops.len() {
        let is_formal = base.formal_ops.has(number as u32);
        let op = &ops[number];
        let many = add_if(alloc, &mut names, &op.name, is_formal, count)?;
        count = many;
    }
    Ok(names)
}

// Adds the name of something formal behind the others, of which there are `count`, and answers how
// many there are then.
fn add_if(
    alloc: Global,
    names: &mut NamePositions,
    name: &Name,
    is_formal: bool,
    count: usize,
) -> Result<usize, NoMemory>
    requires { count < 2 ^ 32 }
    ensures { IfOk result (λ many. (given : List (List ℕ)) → HasNames names.old given
        → length given ≡ count
        → HasNames names.new (if is_formal then given ++ spelling name.now ∷ [] else given)
        × (length (if is_formal then given ++ spelling name.now ∷ [] else given) ≡ many)) }
{
    if is_formal {
        names.add(alloc, name, count)?;
        return Ok(count + 1);
    }
    Ok(count)
}
