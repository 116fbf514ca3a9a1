//! What all types require.

ghost use Rattle.std.specs.Prelude.{◌≡◌, ◌∷◌, ◌++◌, [], IfOk, List, OnOk, map};
ghost use Rattle.syntax_trees.specs.TreeViews.{item_of};
ghost use Rattle.type_definitions.specs.DeclaredTypes.{types_of};
ghost use Rattle.type_definitions.specs.Flattened.{IsPresentation, declared_with};
ghost use Rattle.type_definitions.specs.FormalEquations.{FlattenedType, mentioned_in, no_formals};
ghost use Rattle.type_definitions.specs.MentionFaults.{AreInOrder};
ghost use Rattle.type_definitions.specs.Requirements.{required_of};
ghost use Rattle.type_definitions.specs.TypeNamesView.{types_in};
ghost use Rattle.type_definitions.specs.TypeView.{declared_type_of, declared_types_of};
ghost use Rattle.type_actualisation.specs.FormalLists.{IsUnionWith};
ghost use Rattle.type_actualisation.specs.FormalTypesView.{
  AreFlattenedBehind,
  AreFormalTypes,
  AreRequiredInOrder,
  HasFormalsNext,
  IsFlattenedNext,
  required_union,
};
ghost use Rattle.type_flatten.specs.RequiredView.{AreRequired};
ghost use Rattle.type_presentations.specs.PresentationView.{presentation_of};
ghost use Rattle.type_presentations.specs.PresentedView.{IsSoundPresentation};

use crate::flattening::{in_order, united};
use crate::one_type::presentation_of_type;
use lotos_base::NoMemory;
use sort_terms::Equation;
use std::alloc::Global;
use syntax_trees::ItemText;
use type_actualisation::{FormalTypes, FormalUnion, formals_of_type, required_of_type};
use type_definitions::{TypeFault, TypeOrder, TypeText, order_types};
use type_presentations::{EquationList, Presentation};

/// What the types among the items require: for each actualisation in which nothing is formal, in
/// the order of flattening, what the formal equations without premisses of its base come to, each
/// at its own place, over the signature of the flattened data. An actualisation gives what its
/// formal equations come to even where another one gives the same.
///
/// The formal equations of an extension are those of its imports, equal ones once, and then its
/// own; of a renaming, those of its base; of an actualisation, those of its actual types.
///
/// Condition: `flatten` refuses nothing among these items. Where it does, the answer is want of
/// memory.
pub fn requirements(alloc: Global, items: &[ItemText]) -> Result<Vec<Equation>, NoMemory>
    ensures { IfOk result (λ equations. AreRequired (types_of (map item_of items.now))
        equations.items) }
{
    match requirements_of_items(alloc, items) {
        Ok(equations) => Ok(equations),
        Err(_) => Err(NoMemory),
    }
}

// The same, or a fault of the types.
fn requirements_of_items(alloc: Global, items: &[ItemText]) -> Result<Vec<Equation>, TypeFault>
    ensures { IfOk result (λ equations. AreRequired (types_of (map item_of items.now))
        equations.items) }
{
    let order = order_types(alloc, items)?;
    requirements_in_order(alloc, &order)
}

// Those of the types in this order.
fn requirements_in_order(alloc: Global, order: &TypeOrder<'_>) -> Result<Vec<Equation>, TypeFault>
    requires { AreInOrder (types_in order.now.names) order.now.order.items }
    ensures { IfOk result (λ equations. AreRequired (types_in order.now.names)
        equations.items) }
{
    let numbers = order.order.as_slice();
    let texts = in_order(alloc, &order.names, numbers)?;
    let listed = texts.as_slice();
    requirements_of_texts(alloc, listed)
}

// Those of types, each of which stands behind those that it mentions.
fn requirements_of_texts(alloc: Global, texts: &[TypeText<'_>]) -> Result<Vec<Equation>, TypeFault>
    ensures { IfOk result (λ equations. AreRequiredInOrder (declared_types_of texts.now)
        equations.items) }
{
    let mut required = FormalUnion::new(alloc);
    require_all(alloc, &mut required, texts)?;
    Ok(required.into_equations())
}

// Puts what the types require into a union that has nothing.
fn require_all(
    alloc: Global,
    required: &mut FormalUnion,
    texts: &[TypeText<'_>],
) -> Result<(), TypeFault>
    requires { IsUnionWith no_formals required.old }
    ensures { OnOk result (AreRequiredInOrder (declared_types_of texts.now)
        required.new.equations.equations.items) }
{
    let mut types = FormalTypes::new(alloc);
    require_among(alloc, &mut types, required, texts)
}

// The same, where there are no types yet.
fn require_among<'a>(
    alloc: Global,
    types: &mut FormalTypes<'a>,
    required: &mut FormalUnion,
    texts: &[TypeText<'a>],
) -> Result<(), TypeFault>
    requires types { AreFormalTypes [] types.old }
    requires required { IsUnionWith no_formals required.old }
    ensures { OnOk result (AreRequiredInOrder (declared_types_of texts.now)
        required.new.equations.equations.items) }
{
    flatten_all(alloc, types, required, texts)?;
    united(alloc, &types.types)?;
    Ok(())
}

// Adds the types and what they require, one after another, where there is nothing yet.
fn flatten_all<'a>(
    alloc: Global,
    types: &mut FormalTypes<'a>,
    required: &mut FormalUnion,
    texts: &[TypeText<'a>],
) -> Result<(), TypeFault>
    requires types { AreFormalTypes [] types.old }
    requires required { IsUnionWith no_formals required.old }
    ensures { OnOk result (AreFlattenedBehind [] (declared_types_of texts.now) types.new
        required.new) }
{
    for text in texts {
        flatten_next(alloc, types, required, text)?;
    }
    Ok(())
}

// Adds the type and what it requires.
fn flatten_next<'a>(
    alloc: Global,
    types: &mut FormalTypes<'a>,
    required: &mut FormalUnion,
    text: &TypeText<'a>,
) -> Result<(), TypeFault>
    requires { (all : List FlattenedType) × AreFormalTypes all types.old
        × IsUnionWith (required_union all) required.old }
    ensures { OnOk result ((all : List FlattenedType) → AreFormalTypes all types.old
        → IsUnionWith (required_union all) required.old
        → IsFlattenedNext all (declared_type_of text.now) types.new required.new) }
{
    let presentation = presentation_of_type(alloc, &types.types, text.name, text.body)?;
    let formals = formals_next(alloc, required, types, &presentation, text)?;
    types.add(alloc, text, presentation, formals)?;
    Ok(())
}

// The formal equations of the type, which has this presentation and is not among the types yet.
// Adds what it requires.
fn formals_next(
    alloc: Global,
    required: &mut FormalUnion,
    types: &FormalTypes<'_>,
    presentation: &Presentation,
    text: &TypeText<'_>,
) -> Result<EquationList, TypeFault>
    requires sound { IsSoundPresentation presentation.now }
    requires types { (all : List FlattenedType) × AreFormalTypes all types.now
        × IsPresentation (mentioned_in all) (declared_type_of text.now).name
        (declared_type_of text.now).body (presentation_of presentation.now)
        × IsUnionWith (required_union all) required.old }
    ensures { IfOk result (λ list. (all : List FlattenedType) → AreFormalTypes all types.now
        → IsPresentation (mentioned_in all) (declared_type_of text.now).name
        (declared_type_of text.now).body (presentation_of presentation.now)
        → IsUnionWith (required_union all) required.old
        → HasFormalsNext all (declared_type_of text.now) (presentation_of presentation.now) list
        required.new) }
{
    require_next(alloc, required, types, presentation, text)?;
    formals_of_type(alloc, types, presentation, text.body)
}

// Adds what the type requires, which has this presentation and is not among the types yet.
fn require_next(
    alloc: Global,
    required: &mut FormalUnion,
    types: &FormalTypes<'_>,
    presentation: &Presentation,
    text: &TypeText<'_>,
) -> Result<(), TypeFault>
    requires sound { IsSoundPresentation presentation.now }
    requires types { (all : List FlattenedType) × AreFormalTypes all types.now
        × IsPresentation (mentioned_in all) (declared_type_of text.now).name
        (declared_type_of text.now).body (presentation_of presentation.now)
        × IsUnionWith (required_union all) required.old }
    ensures { OnOk result ((all : List FlattenedType) (t : FlattenedType)
        → AreFormalTypes all types.now
        → IsPresentation (mentioned_in all) (declared_type_of text.now).name
        (declared_type_of text.now).body (presentation_of presentation.now)
        → t.mentioned
        ≡ declared_with (declared_type_of text.now) (presentation_of presentation.now)
        → t.required ≡ required_of all (declared_type_of text.now).name
        (presentation_of presentation.now) (declared_type_of text.now).body
        → IsUnionWith (required_union all) required.old
        → IsUnionWith (required_union (all ++ t ∷ [])) required.new) }
{
    let is_formal = presentation.is_formal();
    if is_formal {
        return Ok(());
    }
    let list = required_of_type(alloc, types, text)?;
    required.require(alloc, presentation, &list)?;
    Ok(())
}
