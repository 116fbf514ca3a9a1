//! Equations and marks of the base, which stay.

ghost use Rattle.type_presentations.specs.EquationListView.{HasSidesOver};
ghost use Rattle.sort_terms.specs.EquationView.{equation_of};
ghost use Rattle.std.specs.Prelude.{
  ◌≡◌,
  ◌<◌,
  ◌++◌,
  ◌^◌,
  ℕ,
  IfOk,
  OnOk,
};
ghost use Rattle.lotos_base.specs.Equation.{IsEquationOver};
ghost use Rattle.type_definitions.specs.DeclaredEquations.{with_equation};
ghost use Rattle.type_definitions.specs.ProfiledImage.{number_in};
ghost use Rattle.type_presentations.specs.MarksView.{IsKnown, marks_in};
ghost use Rattle.type_presentations.specs.PresentationView.{
  IsSound,
  IsWithinLimits,
  presentation_of,
};
ghost use Rattle.type_renaming.specs.Parts.{KeepsProfilesOf, with_equations, with_marks};
ghost use Rattle.type_renaming.specs.SameNumbers.{KeepNumbers};

use lotos_base::NoMemory;
use sort_terms::Equation;
use std::alloc::Global;
use type_definitions::image_of_equation;
use type_presentations::{Marks, Presentation, grow_by_equation};

/// Puts the equations of the base behind those of the presentation, whose sorts and operations have
/// the numbers of those of the base and their profiles.
pub fn keep_equations(
    alloc: Global,
    renamed: &mut Presentation,
    base: &Presentation,
) -> Result<(), NoMemory>
    requires sound { IsSound renamed.old }
    requires whole { IsSound base.now }
    requires few { IsWithinLimits base.now }
    requires profiles { KeepsProfilesOf (presentation_of base.now).signature
        (presentation_of renamed.old).signature }
    ensures kept { OnOk result (presentation_of renamed.new
        ≡ with_equations (presentation_of renamed.old) (presentation_of base.now).equations) }
    ensures sound { OnOk result (IsSound renamed.new) }
{
    let sorts = numbers_below(alloc, base.sorts.sorts().len())?;
    let ops = numbers_below(alloc, base.ops.ops().len())?;
    let sort_numbers = sorts.as_slice();
    let op_numbers = ops.as_slice();
    let equations = base.equations.equations();
    for equation in equations {
        keep_equation(alloc, renamed, base, equation, sort_numbers, op_numbers)?;
    }
    Ok(())
}

// Puts an equation of the base behind those of the presentation.
fn keep_equation(
    alloc: Global,
    renamed: &mut Presentation,
    base: &Presentation,
    equation: &Equation,
    sorts: &[u32],
    ops: &[u32],
) -> Result<(), NoMemory>
    requires sound { IsSound renamed.old }
    requires whole { IsSound base.now }
    requires profiles { KeepsProfilesOf (presentation_of base.now).signature
        (presentation_of renamed.old).signature }
    requires same { KeepNumbers (presentation_of base.now).signature sorts.now ops.now }
    requires over { IsEquationOver (presentation_of base.now).signature
        (equation_of equation.now) }
    requires sides { HasSidesOver (presentation_of base.now).signature equation.now }
    ensures kept { OnOk result (presentation_of renamed.new
        ≡ with_equation (presentation_of renamed.old) (equation_of equation.now)) }
    ensures sound { OnOk result (IsSound renamed.new) }
{
    let image = image_of_equation(alloc, equation, sorts, ops, renamed.ops.ops())?;
    grow_by_equation(alloc, renamed, image)?;
    Ok(())
}

/// Marks what is marked in the base.
pub fn keep_marks(renamed: &mut Presentation, base: &Presentation) -> Result<(), NoMemory>
    requires sound { IsSound renamed.old }
    ensures kept { OnOk result (presentation_of renamed.new
        ≡ with_marks (presentation_of renamed.old) (presentation_of base.now).formal_sorts
        (presentation_of base.now).formal_operations) }
    ensures sound { OnOk result (IsSound renamed.new) }
{
    append_marks(&mut renamed.formal_sorts, base.formal_sorts.numbers())?;
    append_marks(&mut renamed.formal_ops, base.formal_ops.numbers())?;
    Ok(())
}

// Marks the numbers behind those that are marked.
fn append_marks(marks: &mut Marks, numbers: &[u32]) -> Result<(), NoMemory>
    requires known { IsKnown marks.old }
    ensures known { OnOk result (IsKnown marks.new) }
    ensures marks { OnOk result (marks_in marks.new ≡ marks_in marks.old ++ numbers.now) }
{
    for number in numbers {
        marks.append(*number)?;
    }
    Ok(())
}

/// The numbers from 0 on, as many.
pub fn numbers_below(alloc: Global, count: usize) -> Result<Vec<u32>, NoMemory>
    requires few { count < 2 ^ 32 }
    ensures { IfOk result (λ made. (n : ℕ) → n < count → number_in made.items n ≡ n) }
{
    let mut made = Vec::with_capacity(alloc, count)?;
    for number in 0..count {
        made.push(number as u32)?;
    }
    Ok(made)
}
