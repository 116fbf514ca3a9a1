//! Lists of formal equations, and unions with such equations.

ghost use Rattle.lotos_base.specs.Signature.{Signature};
ghost use Rattle.std.specs.Prelude.{◌≡◌, ◌≤◌, ◌++◌, IfOk, OnOk, length, map};
ghost use Rattle.type_definitions.specs.FormalEquations.{
  FlattenedType,
  WithFormals,
  formals_joined,
  no_formals,
};
ghost use Rattle.type_definitions.specs.Images.{equation_image};
ghost use Rattle.type_definitions.specs.Presentation.{presentation_limit};
ghost use Rattle.type_definitions.specs.ProfiledImage.{number_in};
ghost use Rattle.type_definitions.specs.Requirements.{with_required};
ghost use Rattle.type_actualisation.specs.FormalLists.{
  AreFormalsOver,
  AreMoved,
  HaveJoined,
  with_list,
  with_members,
};
ghost use Rattle.type_presentations.specs.EquationListView.{equations_in};
ghost use Rattle.type_presentations.specs.OperationListView.{HasOperationKeys, operations_in};
ghost use Rattle.type_presentations.specs.PresentationView.{IsWithinLimits, presentation_of};
ghost use Rattle.type_presentations.specs.SortListView.{HasSortKeys, sorts_in};
ghost use Rattle.type_presentations.specs.PresentedView.{IsSoundPresentation};

use crate::bringing::NewNumbers;
use lotos_base::NoMemory;
use sort_terms::Equation;
use std::alloc::Global;
use type_definitions::image_of_equation;
use type_presentations::{EquationList, OperationList, Presentation, SortList};

/// Adds the images of the equations, one by one, with the new number of each sort and operation and
/// with the profiles of the new operations. Equal ones are not made one.
pub fn append_images(
    alloc: Global,
    list: &mut EquationList,
    coming: &EquationList,
    sorts: &[u32],
    ops: &[u32],
    profiles: &OperationList,
) -> Result<(), NoMemory>
    requires { (old : Signature) × (new : Signature)
        × AreMoved old new coming.now sorts.now ops.now profiles.now
        × AreFormalsOver new list.old }
    ensures equations { OnOk result (equations_in list.new ≡ equations_in list.old
        ++ map (equation_image (number_in sorts.now) (number_in ops.now))
        (equations_in coming.now)) }
    ensures over { OnOk result ((old new : Signature)
        → AreMoved old new coming.now sorts.now ops.now profiles.now
        → AreFormalsOver new list.old → AreFormalsOver new list.new) }
{
    let shared = profiles.ops();
    let equations = coming.equations();
    for equation in equations {
        let image = image_of_equation(alloc, equation, sorts, ops, shared)?;
        list.append(alloc, image)?;
    }
    Ok(())
}

/// Joins sorts and operations with those of the other presentation, and gives the new numbers of
/// the latter. More than 65,536 sorts or operations, which no types that can be flattened come to,
/// are answered as want of memory.
pub fn join_signature(
    alloc: Global,
    sorts: &mut SortList,
    ops: &mut OperationList,
    other: &Presentation,
) -> Result<NewNumbers, NoMemory>
    requires sort_keys { HasSortKeys sorts.old }
    requires op_keys { HasOperationKeys ops.old }
    requires few_sorts { length (sorts_in sorts.old) ≤ presentation_limit }
    requires few_ops { length (operations_in ops.old) ≤ presentation_limit }
    requires other_within { IsWithinLimits other.now }
    ensures { IfOk result (λ numbers. HaveJoined
        (with_members (sorts_in sorts.old) (operations_in ops.old))
        (presentation_of other.now) sorts.new ops.new numbers) }
{
    let joined_sorts = sorts.join(alloc, &other.sorts, &[])?;
    let sort_numbers = joined_sorts.numbers.as_slice();
    let joined_ops = ops.join(alloc, &other.ops, sort_numbers)?;
    let are_many_sorts = sorts.is_past_limit();
    if are_many_sorts {
        return Err(NoMemory);
    }
    let are_many_ops = ops.is_past_limit();
    if are_many_ops {
        return Err(NoMemory);
    }
    Ok(NewNumbers {
        sorts: joined_sorts.numbers,
        ops: joined_ops.numbers,
    })
}

/// Sorts and operations that were put together, with equations over them.
#[derive(Drop)]
pub struct FormalUnion {
    /// The sorts.
    pub sorts: SortList,
    /// The operations.
    pub ops: OperationList,
    /// The equations.
    pub equations: EquationList,
}

impl FormalUnion {
    ghost use Rattle.type_actualisation.specs.FormalLists.{IsUnionWith};

    /// Nothing at all.
    pub fn new(alloc: Global) -> FormalUnion
        ensures { IsUnionWith no_formals result }
    {
        FormalUnion {
            sorts: SortList::new(alloc),
            ops: OperationList::new(alloc),
            equations: EquationList::new(alloc),
        }
    }

    /// The equations.
    pub fn into_equations(self) -> Vec<Equation>
        ensures { result.items ≡ self.equations.equations.items }
    {
        self.equations.into_equations()
    }

    /// Joins the presentation, with its formal equations; equal ones, by place and image, are one.
    pub fn join(
        &mut self,
        alloc: Global,
        other: &Presentation,
        coming: &EquationList,
    ) -> Result<(), NoMemory>
        requires sound { IsSoundPresentation other.now }
        requires coming { AreFormalsOver (presentation_of other.now).signature coming.now }
        requires union { (w : WithFormals) × IsUnionWith w self.old }
        ensures { OnOk result ((w : WithFormals) → IsUnionWith w self.old
            → IsUnionWith (formals_joined w (with_list other.now coming.now)) self.new) }
    {
        let numbers = join_signature(alloc, &mut self.sorts, &mut self.ops, other)?;
        let sorts = numbers.sorts.as_slice();
        let ops = numbers.ops.as_slice();
        self.equations.join(alloc, coming, sorts, ops, &self.ops)?;
        Ok(())
    }

    /// Joins the presentation of a type, and puts what it requires behind the equations.
    pub fn require(
        &mut self,
        alloc: Global,
        other: &Presentation,
        required: &EquationList,
    ) -> Result<(), NoMemory>
        requires sound { IsSoundPresentation other.now }
        requires coming { AreFormalsOver (presentation_of other.now).signature required.now }
        requires union { (w : WithFormals) × IsUnionWith w self.old }
        ensures { OnOk result ((w : WithFormals) (t : FlattenedType) → IsUnionWith w self.old
            → t.mentioned.presentation ≡ presentation_of other.now
            → t.required ≡ equations_in required.now
            → IsUnionWith (with_required w t) self.new) }
    {
        let numbers = join_signature(alloc, &mut self.sorts, &mut self.ops, other)?;
        let sorts = numbers.sorts.as_slice();
        let ops = numbers.ops.as_slice();
        append_images(alloc, &mut self.equations, required, sorts, ops, &self.ops)?;
        Ok(())
    }
}
