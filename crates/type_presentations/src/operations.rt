//! Declarations of operations.

ghost use Rattle.lotos_base.specs.Name.{spelling};
ghost use Rattle.lotos_base.specs.WrittenView.{form_of, text_place_of};
ghost use Rattle.type_presentations.specs.NamesView.{HasNames};
ghost use Rattle.type_presentations.specs.Growth.{with_one_operation};
ghost use Rattle.sort_terms.specs.Operations.{operation_of};
ghost use Rattle.sort_terms.specs.WellFormedTest.{has_known_sorts};
ghost use Rattle.std.specs.Prelude.{
  ◌≡◌,
  ◌∷◌,
  ◌++◌,
  [],
  true,
  None,
  MatchResult,
  length,
  map,
};
ghost use Rattle.syntax_trees.specs.TreeViews.{written_operation_of};
ghost use Rattle.type_presentations.specs.DeclaredOperation.{
  AreFewDeclaredNames,
  declared_operation,
  sort_names,
};
ghost use Rattle.type_presentations.specs.DeclarationMade.{
  AreOperationsDeclared,
  IsFaultOfOperations,
};
ghost use Rattle.type_presentations.specs.Making.{IsMade};
ghost use Rattle.type_definitions.specs.FaultView.{IsFaultFound};
ghost use Rattle.type_definitions.specs.Declarations.{
  fits_form,
  operation_fault,
  unknown_sort_among,
  with_operation,
};
ghost use Rattle.type_definitions.specs.Presentation.{Presentation as PlainPresentation};
ghost use Rattle.type_definitions.specs.Union.{presentation_fault};
ghost use Rattle.type_presentations.specs.PresentationView.{
  IsSound,
  IsWithinLimits,
  presentation_of,
};

use crate::sort_numbers::{sort_named, sorts_named};
use crate::{NamePositions, Presentation, grow_by_op, mark_op};
use lotos_base::{Form, Name, Place};
use sort_terms::{Op, SortFault};
use std::alloc::Global;
use syntax_trees::OpText;
use type_definitions::TypeFault;

/// Declares operations, one after another, formal or not. It is refused at the first whose
/// arguments do not fit its form, one of whose sorts is none, that is a second one of its name,
/// form and profile, or one too many. The names of the sorts are given.
pub fn declare_ops(
    alloc: Global,
    presentation: &mut Presentation,
    sorts: &NamePositions,
    type_name: &Name,
    declared: &[OpText],
    is_formal: bool,
) -> Result<(), TypeFault>
    requires sound { IsSound presentation.old }
    requires within { IsWithinLimits presentation.old }
    requires named { HasNames sorts.now (sort_names (presentation_of presentation.old)) }
    ensures { MatchResult result
        (λ _. AreOperationsDeclared (spelling type_name.now) is_formal
        (presentation_of presentation.old) (map written_operation_of declared.now)
        presentation.new)
        (λ fault. IsFaultOfOperations (spelling type_name.now) is_formal
        (presentation_of presentation.old) (map written_operation_of declared.now) fault) }
{
    for op in declared {
        declare_op(alloc, presentation, sorts, type_name, op, is_formal)?;
    }
    Ok(())
}

// Declares an operation.
fn declare_op(
    alloc: Global,
    presentation: &mut Presentation,
    sorts: &NamePositions,
    type_name: &Name,
    op: &OpText,
    is_formal: bool,
) -> Result<(), TypeFault>
    requires sound { IsSound presentation.old }
    requires within { IsWithinLimits presentation.old }
    requires named { HasNames sorts.now (sort_names (presentation_of presentation.old)) }
    ensures { MatchResult result
        (λ _. IsMade (operation_fault (spelling type_name.now) is_formal
        (presentation_of presentation.old) (written_operation_of op.now))
        (with_operation (spelling type_name.now) is_formal (presentation_of presentation.old)
        (written_operation_of op.now)) presentation.new)
        (λ fault. IsFaultFound (operation_fault (spelling type_name.now) is_formal
        (presentation_of presentation.old) (written_operation_of op.now)) fault) }
{
    let is_fitting = fits(op);
    if !is_fitting {
        return Err(TypeFault::Term(SortFault::NoReading { place: op.place }));
    }
    let made = op_of(alloc, sorts, type_name, op)?;
    let number = presentation.ops.ops().len() as u32;
    add_op(alloc, presentation, made, op.place, &op.name)?;
    mark_op(presentation, is_formal, number)?;
    Ok(())
}

// Whether the number of arguments fits the form.
fn fits(op: &OpText) -> bool
    ensures { result ≡ fits_form (form_of op.now.form) (length op.now.arguments.items) }
{
    match op.form {
        Form::Prefix => true,
        Form::Infix => op.arguments.len() == 2,
    }
}

// The operation over the sorts with these names.
fn op_of(
    alloc: Global,
    sorts: &NamePositions,
    type_name: &Name,
    op: &OpText,
) -> Result<Op, TypeFault>
    requires { AreFewDeclaredNames sorts.now }
    ensures { (p : PlainPresentation) → HasNames sorts.now (sort_names p) → MatchResult result
        (λ made. (unknown_sort_among p ((written_operation_of op.now).arguments
        ++ (written_operation_of op.now).result ∷ []) ≡ None)
        × (operation_of made
        ≡ declared_operation (spelling type_name.now) p (written_operation_of op.now)))
        (λ fault. IsFaultFound (unknown_sort_among p ((written_operation_of op.now).arguments
        ++ (written_operation_of op.now).result ∷ [])) fault) }
{
    let arguments = sorts_named(alloc, sorts, op.arguments.as_slice())?;
    let result = sort_named(alloc, sorts, &op.result)?;
    Ok(Op {
        name: op.name.copy(alloc)?,
        form: op.form,
        arguments,
        result,
        origin: type_name.copy(alloc)?,
    })
}

// Puts an operation at the end, or refuses it at the place.
fn add_op(
    alloc: Global,
    presentation: &mut Presentation,
    op: Op,
    place: Place,
    name: &Name,
) -> Result<(), TypeFault>
    requires sound { IsSound presentation.old }
    requires within { IsWithinLimits presentation.old }
    requires known { has_known_sorts (length (presentation_of presentation.old).signature.sorts)
        (operation_of op) ≡ true }
    ensures { MatchResult result
        (λ _. IsMade (presentation_fault (text_place_of place) (spelling name.now)
        (with_one_operation (presentation_of presentation.old) (operation_of op)))
        (with_one_operation (presentation_of presentation.old) (operation_of op))
        presentation.new)
        (λ fault. IsFaultFound (presentation_fault (text_place_of place) (spelling name.now)
        (with_one_operation (presentation_of presentation.old) (operation_of op))) fault) }
{
    let is_second = grow_by_op(alloc, presentation, op)?;
    if is_second {
        return Err(TypeFault::DoubleOperation {
            place,
            name: name.copy(alloc)?,
        });
    }
    let is_too_large = presentation.is_too_large();
    if is_too_large {
        return Err(TypeFault::TooLarge {
            place,
            name: name.copy(alloc)?,
        });
    }
    Ok(())
}
